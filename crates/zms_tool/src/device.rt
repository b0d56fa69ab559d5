//! Devices over files.
ghost use Rattle.std.specs.Prelude.{◌≡◌};

use crate::faults::Faults;
use crate::file::LazyFile;
use std::io;
use zms_dev::{Data, Disk, Failed};

/// How many zeros are written at once, in bytes.
const PIECE: u64 = 4096;

const ZEROS: [u8; 4096] = [0; 4096];

/// A file as the pool device, or as the device of a vdev. It tells no contents, so nothing is claimed of its bytes.
#[derive(Drop)]
pub struct FileDevice {
    file: LazyFile,
    faults: Faults,
}

impl FileDevice {
    /// The device in the file at this path, which need not be there.
    pub fn new(rt: HostRuntime, path: String) -> Self
        ensures { result.faults.count ≡ 0 }
    {
        FileDevice {
            file: LazyFile::new(rt, path),
            faults: Faults::NONE,
        }
    }
}

impl Disk for FileDevice {
    ghost use Rattle.zms_dev.specs.Disk.{silent};

    ghost state = { λ _. silent };

    ghost faults = { λ d. d.faults.count };

    ghost counts_now = { λ _ _ _ _ none. none };

    ghost only_now = { λ _ _ none. none };

    ghost reads_as = { λ _ tells. tells.honest };

    fn size(&mut self) -> Result<u64, Failed> {
        self.faults.noted(self.file.size())
    }

    fn read(&mut self, at: u64, buf: &mut [u8]) -> Result<usize, Failed> {
        self.faults.noted(self.file.read(at, buf))
    }

    fn write(&mut self, at: u64, bytes: &[u8]) -> Result<(), Failed> {
        self.faults.noted(self.file.write(at, bytes))
    }

    fn flush(&mut self) -> Result<(), Failed> {
        self.faults.noted(self.file.flush())
    }

    fn faults(&self) -> u64 {
        self.faults.count
    }
}

impl Data for FileDevice {
    ghost use Rattle.zms_dev.specs.Data.{mute};

    ghost state = { λ _. mute };

    ghost faults = { λ d. d.faults.count };

    fn write(&mut self, at: u64, bytes: &[u8]) -> Result<(), Failed> {
        self.faults.noted(self.file.write(at, bytes))
    }

    fn discard(&mut self, at: u64, len: u64) -> Result<(), Failed> {
        self.faults.noted(write_zeros(&mut self.file, at, len))
    }

    fn faults(&self) -> u64 {
        self.faults.count
    }
}

// Writes zeros over the range as far as the file goes: what lies behind its end reads as zeros already.
fn write_zeros(file: &mut LazyFile, at: u64, len: u64) -> io::Result<()> {
    let end = at.saturating_add(len).min(file.size()?);
    let mut next = at;
    while next < end {
        let n = PIECE.min(end - next);
        file.write(next, &ZEROS[..n as usize])?;
        next += n;
    }
    Ok(())
}
