//! The files of a pool.
ghost use Rattle.std.specs.Prelude.{◌≡◌, length, IfOk};

use crate::device::FileDevice;
use crate::streams::{FileSink, file_sink};
use std::alloc::{AllocError, Global};
use zms_units::MAX_DEVICES;

/// The files of a pool, none of which is opened yet. `POOL.meta` is the pool device, `POOL.d0` to `POOL.d15` are the
/// devices of its vdevs, and `POOL.trace` is for the trace.
#[derive(Drop)]
pub struct PoolFiles {
    pub meta: FileDevice,
    pub devices: Vec<FileDevice>,
    pub trace: FileSink,
    ghost each_device: { length devices.items ≡ 16 },
}

impl PoolFiles {
    pub fn new(alloc: Global, rt: HostRuntime, pool: &str) -> Result<Self, AllocError> {
        Ok(PoolFiles {
            meta: FileDevice::new(rt, format!(in alloc; "{pool}.meta")?),
            devices: data_files(alloc, rt, pool)?,
            trace: file_sink(alloc, rt, format!(in alloc; "{pool}.trace")?)?,
        })
    }
}

fn data_files(alloc: Global, rt: HostRuntime, pool: &str) -> Result<Vec<FileDevice>, AllocError>
    ensures { IfOk result (λ devices. length devices.items ≡ 16) }
{
    let mut devices = Vec::with_capacity(alloc, MAX_DEVICES)?;
    for index in 0..MAX_DEVICES {
        devices.push(FileDevice::new(rt, format!(in alloc; "{pool}.d{index}")?))?;
    }
    Ok(devices)
}
