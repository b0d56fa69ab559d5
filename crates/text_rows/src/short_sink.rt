//! A sink that fails in the middle of a text.

ghost use Rattle.std.specs.Prelude.{◌≡◌};
ghost use Rattle.zms_dev.specs.Causes.{one_more};

use std::alloc::{AllocError, Global};
use zms_dev::{Failed, Sink};

/// How many bytes it takes at a call.
const AT_ONCE: usize = 5;

/// Takes a few bytes at a call, so many in all, and fails where it has no room for one.
#[derive(Drop)]
pub struct ShortSink {
    taken: Vec<u8>,
    room: usize,
    faults: u64,
}

impl ShortSink {
    pub fn new(alloc: Global, room: usize) -> Result<ShortSink, AllocError> {
        Ok(ShortSink {
            taken: Vec::with_capacity(alloc, room)?,
            room,
            faults: 0,
        })
    }

    pub fn taken(&self) -> &[u8] {
        &self.taken
    }

    pub fn faults(&self) -> u64 {
        self.faults
    }

    fn fail(&mut self)
        ensures { self.new.faults ≡ one_more self.old.faults }
    {
        if self.faults < u64::MAX {
            self.faults += 1;
        }
    }
}

impl Sink for ShortSink {
    ghost use Rattle.std.specs.Prelude.{None};

    ghost state = { λ s. record { taken = None; handed = None; faults = s.faults } };

    fn write(&mut self, bytes: &[u8]) -> Result<usize, Failed> {
        let room = self.room.saturating_sub(self.taken.len());
        let count = bytes.len().min(AT_ONCE).min(room);
        let is_full = count == 0 && !bytes.is_empty();
        if is_full || self.taken.extend_from_slice(&bytes[..count]).is_err() {
            self.fail();
            return Err(Failed);
        }
        Ok(count)
    }

    fn flush(&mut self) -> Result<(), Failed> {
        Ok(())
    }
}
