//! The forms in memory that a call runs over.

ghost use Rattle.std.specs.Prelude.{◌≡◌, length, IfOk};

use crate::device::DiskFailing;
use std::alloc::{AllocError, Global};
use zms_dev::{MemData, MemSink, MemSource, Room};

/// The number of a call that is never made.
const NEVER: usize = usize::MAX;

/// Which call of each object fails, the first being call 0.
#[derive(Clone, Copy, Debug, PartialEq, Eq)]
pub struct Failing {
    pub source: usize,
    pub sink: usize,
    pub trace: usize,
    pub disk: DiskFailing,
}

impl Failing {
    pub const NOTHING: Failing = Failing {
        source: NEVER,
        sink: NEVER,
        trace: NEVER,
        disk: DiskFailing::Nothing,
    };
}

pub fn source(alloc: Global, bytes: &[u8], failing: usize) -> Result<MemSource, AllocError> {
    MemSource::new(alloc, bytes, 4096, &[failing])
}

pub fn sink(alloc: Global, failing: usize) -> Result<MemSink, AllocError> {
    let room = Room {
        bytes: 131_072,
        calls: 65_536,
    };
    MemSink::new(alloc, room, &[failing])
}

/// The data devices, which have no room.
pub fn data_devices(alloc: Global) -> Result<Vec<MemData>, AllocError>
    ensures { IfOk result (λ devices. length devices.items ≡ 16) }
{
    let room = Room { bytes: 0, calls: 0 };
    let mut devices = Vec::with_capacity(alloc, 16)?;
    for _ in 0..16usize {
        devices.push(MemData::new(alloc, room, &[])?)?;
    }
    Ok(devices)
}
