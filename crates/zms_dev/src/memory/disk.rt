// The pool device in memory. It keeps a record of its calls, so that it tells what a stop at any moment may leave.
ghost use Rattle.std.specs.Prelude.{◌≡◌, ◌+◌, ◌<◌, ◌≤◌, [], ◌∷◌, ◌++◌, length, is_ok, IfOk, OnOk, OnErr, nat_le, nat_lt, ◌&&◌, if◌then◌else◌, vec_capacity};
ghost use Rattle.zms_dev.specs.Bytes.{Gives};
ghost use Rattle.zms_dev.specs.Disk.{Only};
ghost use Rattle.zms_dev.specs.History.{wrote, lost, flushed, looked, IsImage};
ghost use Rattle.zms_dev.specs.MemoryDisk.{steps_of, stage_of, met, one_step_more};
ghost use Rattle.zms_dev.specs.Script.{fresh, allows, after_call};
ghost use Rattle.zms_dev.specs.Stop.{stage_after, LeavesBytes};

use super::bytes::{fits, overwrite, read_at};
use super::calls::{Call, CallRecord};
use super::script::Script;
use super::stop::{Unflushed, stopped_after};
use crate::filling::append;
use crate::{Disk, Failed};
use std::alloc::{AllocError, Global};
use std::marker::Model;

/// How much a pool device in memory has room for.
#[derive(Clone, Copy, Debug, PartialEq, Eq)]
pub struct DiskRoom {
    /// The greatest end of the device, in bytes.
    pub end: usize,
    /// In bytes that all its writes may bring.
    pub written: usize,
    /// In calls.
    pub calls: usize,
}

/// The pool device in memory, honest and telling its bytes.
#[derive(Drop)]
pub struct MemDisk {
    first: Vec<u8>,
    bytes: Vec<u8>,
    written: Vec<u8>,
    calls: Vec<CallRecord>,
    end: usize,
    room: usize,
    script: Script,
}

impl Model for MemDisk {
    ghost use Rattle.zms_dev.specs.MemoryDisk.{DiskForm};

    ghost Value = { DiskForm };

    ghost view = { λ d. record { first = d.first.items; written = d.written.items; calls = d.calls.items; end = d.end; room = d.room; script = d.script } };

    ghost use Rattle.zms_dev.specs.MemoryInside.{IsSound};

    ghost invariant = { IsSound };
}

impl MemDisk {
    /// A device with these bytes, all of them flushed, and with this room. The calls in `failing` fail, the first
    /// being call 0.
    pub fn new(
        alloc: Global,
        bytes: &[u8],
        room: DiskRoom,
        failing: &[usize],
    ) -> Result<MemDisk, AllocError>
        ensures form { IfOk result (λ d. d ≡ record { first = bytes.now; written = []; calls = []; end = room.end; room = room.written; script = fresh room.calls failing.now }) }
        ensures settled { IfOk result (λ d. Only bytes.now (⟦<MemDisk as Disk>⟧.state d).may_leave) }
    {
        Ok(MemDisk {
            first: Vec::from_slice(alloc, bytes)?,
            bytes: copy_with_room(alloc, bytes, room.end)?,
            written: Vec::with_capacity(alloc, room.written)?,
            calls: Vec::with_capacity(alloc, room.calls)?,
            end: room.end,
            room: room.written,
            script: Script::new(alloc, room.calls, failing)?,
        })
    }

    /// The bytes that it reads as, up to its end.
    pub fn bytes(&self) -> &[u8]
        ensures { result.now ≡ (stage_of self.now).seen }
    {
        &self.bytes
    }

    /// Bytes that a stop right after the first `calls` calls may leave. It changes nothing, so the device goes on.
    /// Linear in the bytes of the device and of its writes.
    pub fn stopped(
        &self,
        alloc: Global,
        calls: usize,
        how: Unflushed,
    ) -> Result<Vec<u8>, AllocError>
        requires { calls ≤ length self.now.calls }
        ensures image { IfOk result (λ v. IsImage (stage_after self.now calls) v.items) }
        ensures since { IfOk result (λ v. (⟦<MemDisk as Disk>⟧.state self.now).left_since calls v.items) }
        ensures how { IfOk result (λ v. LeavesBytes how (stage_after self.now calls) v.items) }
    {
        stopped_after(alloc, &self.first, &self.written, &self.calls[..calls], how)
    }

    /// Its calls, but for those past the room.
    pub fn calls(&self) -> &[CallRecord]
        ensures { result.now ≡ self.now.calls }
    {
        &self.calls
    }
}

fn copy_with_room(alloc: Global, bytes: &[u8], room: usize) -> Result<Vec<u8>, AllocError>
    ensures { IfOk result (λ v. (v.items ≡ bytes.now) × (room ≤ vec_capacity v)) }
{
    let mut copy = Vec::with_capacity(alloc, room.max(bytes.len()))?;
    append(&mut copy, bytes);
    Ok(copy)
}

impl Disk for MemDisk {
    ghost use Rattle.zms_dev.specs.History.{history};
    ghost use Rattle.zms_dev.specs.HistoryLaws.{counts_this, only_this, reads_now};
    ghost use Rattle.zms_dev.specs.MemoryDisk.{steps_of};

    ghost state = { λ d. history d.first (steps_of d) };

    ghost faults = { λ d. d.script.faults };

    ghost counts_now = { λ d t c le now. counts_this d.first (steps_of d) t c le now };

    ghost only_now = { λ d c left. only_this d.first (steps_of d) c left };

    ghost reads_as = { λ d tells. reads_now d.first (steps_of d) };

    fn size(&mut self) -> Result<u64, Failed>
        ensures answer { is_ok result ≡ allows self.old.script }
        ensures form { self.new ≡ met self.old self.old.written Call.Size (is_ok result) }
        ensures steps { steps_of self.new ≡ one_step_more self.old looked }
        ensures size { IfOk result (λ n. n ≡ length (stage_of self.old).seen) }
    {
        note(&mut self.calls, &mut self.script, Call::Size, true)?;
        Ok(self.bytes.len() as u64)
    }

    fn read(&mut self, at: u64, buf: &mut [u8]) -> Result<usize, Failed>
        ensures answer { is_ok result ≡ allows self.old.script }
        ensures form { self.new ≡ met self.old self.old.written (Call.Read at (length buf.old)) (is_ok result) }
        ensures steps { steps_of self.new ≡ one_step_more self.old looked }
        ensures bytes { IfOk result (λ n. Gives (stage_of self.old).seen at n buf.new) }
    {
        let call = Call::Read { at, len: buf.len() };
        note(&mut self.calls, &mut self.script, call, true)?;
        Ok(read_at(&self.bytes, at, buf))
    }

    fn write(&mut self, at: u64, bytes: &[u8]) -> Result<(), Failed>
        ensures answer { is_ok result ≡ (allows self.old.script && (nat_le (at + length bytes.now) self.old.end && nat_le (length self.old.written + length bytes.now) self.old.room)) }
        ensures form { self.new ≡ met self.old (if is_ok result then self.old.written ++ bytes.now else self.old.written) (Call.Write at (length bytes.now) (length self.old.written)) (is_ok result) }
        ensures done { OnOk result (steps_of self.new ≡ steps_of self.old ++ wrote at bytes.now ∷ []) }
        ensures failed { OnErr result (steps_of self.new ≡ one_step_more self.old (lost at (length bytes.now))) }
    {
        let call = Call::Write {
            at,
            len: bytes.len(),
            from: self.written.len(),
        };
        let room = has_room(at, bytes.len(), self.end, self.written.len(), self.room);
        note(&mut self.calls, &mut self.script, call, room)?;
        append(&mut self.written, bytes);
        overwrite(&mut self.bytes, at as usize, bytes);
        Ok(())
    }

    fn flush(&mut self) -> Result<(), Failed>
        ensures answer { is_ok result ≡ allows self.old.script }
        ensures form { self.new ≡ met self.old self.old.written Call.Flush (is_ok result) }
        ensures done { OnOk result (steps_of self.new ≡ steps_of self.old ++ flushed ∷ []) }
        ensures failed { OnErr result (steps_of self.new ≡ one_step_more self.old looked) }
    {
        note(&mut self.calls, &mut self.script, Call::Flush, true)
    }

    fn faults(&self) -> u64 {
        self.script.faults()
    }
}

// Whether a write has room, by its end and by all that was written before it.
fn has_room(at: u64, len: usize, end: usize, written: usize, room: usize) -> bool
    ensures { result ≡ (nat_le (at + len) end && nat_le (written + len) room) }
{
    fits(at, len, end) && fits(written as u64, len, room)
}

// Makes a call, and records it where there is room for it.
fn note(
    calls: &mut Vec<CallRecord>,
    script: &mut Script,
    call: Call,
    has_room: bool,
) -> Result<(), Failed>
    requires fits { script.old.room ≤ vec_capacity calls.old }
    requires within { length calls.old.items ≤ script.old.made }
    ensures answer { is_ok result ≡ (allows script.old && has_room) }
    ensures script { script.new ≡ after_call script.old (is_ok result) }
    ensures calls { calls.new.items ≡ (if nat_lt script.old.made script.old.room then calls.old.items ++ (record { call = call; went_well = is_ok result }) ∷ [] else calls.old.items) }
    ensures capacity { vec_capacity calls.old ≤ vec_capacity calls.new }
{
    let recorded = script.has_room();
    let answer = script.call(has_room);
    if recorded {
        let _ = calls.push(CallRecord {
            call,
            went_well: answer.is_ok(),
        });
    }
    answer
}
