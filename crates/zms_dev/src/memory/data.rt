// The device of a vdev in memory.
ghost use Rattle.std.specs.Prelude.{◌≡◌, ℕ, ◌+◌, ◌<◌, ◌≤◌, [], ◌∷◌, ◌++◌, length, is_ok, IfOk, OnOk, OnErr, nat_le, ◌&&◌, if◌then◌else◌};
ghost use Rattle.zms_dev.specs.Bytes.{byte, overwritten, DiffersOnlyIn};
ghost use Rattle.zms_dev.specs.Script.{fresh, allows, after_call};

use super::Room;
use super::bytes::{cover, fits, overwrite};
use super::script::Script;
use crate::{Data, Failed};
use std::alloc::{AllocError, Global};
use std::marker::Model;

/// The device of a vdev in memory, which tells its bytes and its discards. Discarded bytes are zeros.
#[derive(Drop)]
pub struct MemData {
    bytes: Vec<u8>,
    discards: Vec<(u64, u64)>,
    room: usize,
    script: Script,
}

impl Model for MemData {
    ghost use Rattle.std.specs.Prelude.{◌≤◌, vec_capacity, length};
    ghost use Rattle.zms_dev.specs.Memory.{DataForm};

    ghost Value = { DataForm };

    ghost view = { λ s. record { bytes = s.bytes.items; discards = s.discards.items; room = s.room; script = s.script } };

    ghost invariant = { λ s. (s.room ≤ vec_capacity s.bytes) × (s.script.room ≤ vec_capacity s.discards) × (length s.discards.items ≤ s.script.made) };
}

impl MemData {
    /// An empty device with this room: `room.bytes` is the greatest end of a write. The calls in `failing` fail, the
    /// first being call 0.
    pub fn new(alloc: Global, room: Room, failing: &[usize]) -> Result<MemData, AllocError>
        ensures { IfOk result (λ d. d ≡ record { bytes = []; discards = []; room = room.bytes; script = fresh room.calls failing.now }) }
    {
        Ok(MemData {
            bytes: Vec::with_capacity(alloc, room.bytes)?,
            discards: Vec::with_capacity(alloc, room.calls)?,
            room: room.bytes,
            script: Script::new(alloc, room.calls, failing)?,
        })
    }

    /// The bytes that it reads as, up to its end.
    pub fn bytes(&self) -> &[u8]
        ensures { result.now ≡ self.now.bytes }
    {
        &self.bytes
    }

    /// The first byte and the length of each discard that answered Ok.
    pub fn discards(&self) -> &[(u64, u64)]
        ensures { result.now ≡ self.now.discards }
    {
        &self.discards
    }
}

impl Data for MemData {
    ghost use Rattle.std.specs.Prelude.{Some};

    ghost state = { λ d. record { contents = Some d.bytes; discards = Some d.discards } };

    ghost faults = { λ d. d.script.faults };

    fn write(&mut self, at: u64, bytes: &[u8]) -> Result<(), Failed>
        ensures answer { is_ok result ≡ (allows self.old.script && nat_le (at + length bytes.now) self.old.room) }
        ensures bytes { self.new.bytes ≡ (if is_ok result then overwritten self.old.bytes at bytes.now else self.old.bytes) }
        ensures discards { self.new.discards ≡ self.old.discards }
        ensures room { self.new.room ≡ self.old.room }
        ensures script { self.new.script ≡ after_call self.old.script (is_ok result) }
    {
        self.script.call(fits(at, bytes.len(), self.room))?;
        overwrite(&mut self.bytes, at as usize, bytes);
        Ok(())
    }

    fn discard(&mut self, at: u64, len: u64) -> Result<(), Failed>
        ensures answer { is_ok result ≡ allows self.old.script }
        ensures outside { DiffersOnlyIn at len self.old.bytes self.new.bytes }
        ensures zeros { OnOk result ((p : ℕ) → at ≤ p → p < at + len → byte self.new.bytes p ≡ 0) }
        ensures err { OnErr result (self.new.bytes ≡ self.old.bytes) }
        ensures discards { self.new.discards ≡ (if is_ok result then self.old.discards ++ (at, len) ∷ [] else self.old.discards) }
        ensures room { self.new.room ≡ self.old.room }
        ensures script { self.new.script ≡ after_call self.old.script (is_ok result) }
    {
        self.script.call(true)?;
        cover(&mut self.bytes, at, len, 0);
        let _ = self.discards.push((at, len));
        Ok(())
    }

    fn faults(&self) -> u64 {
        self.script.faults()
    }
}
