// The calls of an object in memory: how many there is room for, and which are to fail.
ghost use Rattle.std.specs.Prelude.{◌≡◌, ◌&&◌, is_ok, IfOk, nat_lt};
ghost use Rattle.zms_dev.specs.Script.{fresh, allows, after_call};

use crate::Failed;
use std::alloc::{AllocError, Global};
use std::marker::Model;

#[derive(Drop)]
pub struct Script {
    made: usize,
    room: usize,
    failing: Vec<usize>,
    faults: u64,
}

impl Model for Script {
    ghost use Rattle.std.specs.Prelude.{◌≤◌};
    ghost use Rattle.zms_dev.specs.Script.{ScriptState};

    ghost Value = { ScriptState };

    ghost view = { λ s. record { made = s.made; room = s.room; failing = s.failing.items; faults = s.faults } };

    ghost invariant = { λ s. s.made ≤ s.room };
}

impl Script {
    pub fn new(alloc: Global, room: usize, failing: &[usize]) -> Result<Script, AllocError>
        ensures { IfOk result (λ s. s ≡ fresh room failing.now) }
    {
        Ok(Script {
            made: 0,
            room,
            failing: Vec::from_slice(alloc, failing)?,
            faults: 0,
        })
    }

    /// Makes a call, which fails where it is past the room or named, or where its bytes have no room.
    pub fn call(&mut self, has_room: bool) -> Result<(), Failed>
        ensures answer { is_ok result ≡ (allows self.old && has_room) }
        ensures next { self.new ≡ after_call self.old (is_ok result) }
    {
        let allowed = self.made < self.room && !self.failing.contains(&self.made);
        if self.made < self.room {
            self.made += 1;
        }
        if !(allowed && has_room) {
            self.faults = self.faults.saturating_add(1);
            return Err(Failed);
        }
        Ok(())
    }

    /// Whether there is room for one more call.
    pub fn has_room(&self) -> bool
        ensures { result ≡ nat_lt self.now.made self.now.room }
    {
        self.made < self.room
    }

    pub fn faults(&self) -> u64
        ensures { result ≡ self.now.faults }
    {
        self.faults
    }
}
