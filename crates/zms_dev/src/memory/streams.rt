// Streams in memory.
ghost use Rattle.std.specs.Prelude.{◌≡◌, ◌+◌, ◌++◌, [], min, length, is_ok, IsOk, IfOk, OnErr, nat_le, ◌&&◌};
ghost use Rattle.zms_dev.specs.Script.{fresh, allows, after_call};
ghost use Rattle.zms_dev.specs.Stream.{Takes};

use super::Room;
use super::script::Script;
use crate::{Failed, Sink, Source};
use std::alloc::{AllocError, Global};
use std::marker::Model;

/// A text in memory, which tells the bytes that it has left.
#[derive(Drop)]
pub struct MemSource {
    bytes: Vec<u8>,
    next: usize,
    script: Script,
}

impl Model for MemSource {
    ghost use Rattle.std.specs.Prelude.{◌≤◌, length, drop};
    ghost use Rattle.zms_dev.specs.Memory.{SourceForm};

    ghost Value = { SourceForm };

    ghost view = { λ s. record { left = drop s.next s.bytes.items; script = s.script } };

    ghost invariant = { λ s. s.next ≤ length s.bytes.items };
}

impl MemSource {
    /// A source of these bytes, with room for so many calls. Those in `failing` fail, the first being call 0.
    pub fn new(
        alloc: Global,
        bytes: &[u8],
        calls: usize,
        failing: &[usize],
    ) -> Result<MemSource, AllocError>
        ensures { IfOk result (λ s. s ≡ record { left = bytes.now; script = fresh calls failing.now }) }
    {
        Ok(MemSource {
            bytes: Vec::from_slice(alloc, bytes)?,
            next: 0,
            script: Script::new(alloc, calls, failing)?,
        })
    }

    /// How many calls have failed.
    pub fn faults(&self) -> u64
        ensures { result ≡ self.now.script.faults }
    {
        self.script.faults()
    }
}

impl Source for MemSource {
    ghost use Rattle.std.specs.Prelude.{Some};

    ghost state = { λ s. record { left = Some s.left; faults = s.script.faults } };

    fn read(&mut self, buf: &mut [u8]) -> Result<usize, Failed>
        ensures answer { is_ok result ≡ allows self.old.script }
        ensures script { self.new.script ≡ after_call self.old.script (is_ok result) }
        ensures count { IfOk result (λ n. n ≡ min (length buf.new) (length self.old.left)) }
        ensures bytes { IfOk result (Takes self.old.left self.new.left buf.new) }
        ensures err { OnErr result (self.new.left ≡ self.old.left) }
    {
        self.script.call(true)?;
        let rest = &self.bytes[self.next..];
        let n = rest.len().min(buf.len());
        buf[..n].copy_from_slice(&rest[..n]);
        self.next += n;
        Ok(n)
    }
}

/// A sink in memory, which tells the bytes that it has taken.
#[derive(Drop)]
pub struct MemSink {
    taken: Vec<u8>,
    // How many of them were handed on.
    handed: usize,
    room: usize,
    script: Script,
}

impl Model for MemSink {
    ghost use Rattle.std.specs.Prelude.{◌≤◌, vec_capacity, length, take};
    ghost use Rattle.zms_dev.specs.Memory.{SinkForm};

    ghost Value = { SinkForm };

    ghost view = { λ s. record { taken = s.taken.items; handed = take s.handed s.taken.items; room = s.room; script = s.script } };

    ghost invariant = { λ s. (s.room ≤ vec_capacity s.taken) × (length s.taken.items ≤ s.room) × (s.handed ≤ length s.taken.items) };
}

impl MemSink {
    /// An empty sink with this room. The calls in `failing` fail, the first being call 0.
    pub fn new(alloc: Global, room: Room, failing: &[usize]) -> Result<MemSink, AllocError>
        ensures { IfOk result (λ s. s ≡ record { taken = []; handed = []; room = room.bytes; script = fresh room.calls failing.now }) }
    {
        Ok(MemSink {
            taken: Vec::with_capacity(alloc, room.bytes)?,
            handed: 0,
            room: room.bytes,
            script: Script::new(alloc, room.calls, failing)?,
        })
    }

    /// The bytes that it has taken.
    pub fn taken(&self) -> &[u8]
        ensures { result.now ≡ self.now.taken }
    {
        &self.taken
    }

    /// The bytes that it has handed on: all that it had taken at its last flush.
    pub fn handed(&self) -> &[u8]
        ensures { result.now ≡ self.now.handed }
    {
        &self.taken[..self.handed]
    }

    /// How many calls have failed.
    pub fn faults(&self) -> u64
        ensures { result ≡ self.now.script.faults }
    {
        self.script.faults()
    }
}

impl Sink for MemSink {
    ghost use Rattle.std.specs.Prelude.{Some};

    ghost state = { λ s. record { taken = Some s.taken; handed = Some s.handed; faults = s.script.faults } };

    fn write(&mut self, bytes: &[u8]) -> Result<usize, Failed>
        ensures answer { is_ok result ≡ (allows self.old.script && nat_le (length self.old.taken + length bytes.now) self.old.room) }
        ensures script { self.new.script ≡ after_call self.old.script (is_ok result) }
        ensures whole { IfOk result (λ n. (n ≡ length bytes.now) × (self.new.taken ≡ self.old.taken ++ bytes.now)) }
        ensures err { OnErr result (self.new.taken ≡ self.old.taken) }
        ensures handed { self.new.handed ≡ self.old.handed }
        ensures room { self.new.room ≡ self.old.room }
    {
        self.script
            .call(bytes.len() <= self.room - self.taken.len())?;
        let _ = self.taken.extend_from_slice(bytes);
        Ok(bytes.len())
    }

    // It keeps what it takes, so a flush always succeeds.
    fn flush(&mut self) -> Result<(), Failed>
        ensures done { IsOk result }
        ensures form { self.new ≡ record self.old { handed = self.old.taken } }
    {
        self.handed = self.taken.len();
        Ok(())
    }
}
