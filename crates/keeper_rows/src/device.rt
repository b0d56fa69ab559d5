//! The pool device of a row. Its panel, which the row has too, says which call goes wrong; where the device was given passes
//! of lanes, it takes a grant with those of one lane in each write and flush.

ghost use Rattle.std.specs.Prelude.{◌≤◌, length, IfOk};

use crate::faults::Faults;
use crate::probe::Probe;
use std::sync::atomic::{AtomicU64, Ordering};
use zms_dev::{Disk, Failed};

/// No call goes wrong.
pub const NEVER: u64 = u64::MAX;

/// More bytes than any device of a row has.
const MOST_BYTES: usize = 67_108_864;

/// The byte with the lowest bits of the offset in the fourth word, of 8 bytes, whose offset begins at bit 16.
const FOURTH_OFFSET: usize = 26;

/// How many calls of a kind go well before one goes wrong, after which they go well again; and what was counted.
#[derive(Drop)]
pub struct Panel {
    /// Calls of each kind, of which one fails.
    pub call: AtomicU64,
    pub read: AtomicU64,
    pub write: AtomicU64,
    pub flush: AtomicU64,
    /// Reads of which one gives 0xFF everywhere, and those of which one gives the run of the fourth word at an offset that
    /// differs in its lowest bit.
    pub ones: AtomicU64,
    pub moved: AtomicU64,
    /// How many calls were made, and how many of them were writes.
    pub calls: AtomicU64,
    pub writes: AtomicU64,
    /// How many tries of the device to take a grant were made, and how many got one.
    pub tries: AtomicU64,
    pub grants: AtomicU64,
}

impl Panel {
    pub fn new() -> Self {
        Panel {
            call: AtomicU64::new(NEVER),
            read: AtomicU64::new(NEVER),
            write: AtomicU64::new(NEVER),
            flush: AtomicU64::new(NEVER),
            ones: AtomicU64::new(NEVER),
            moved: AtomicU64::new(NEVER),
            calls: AtomicU64::new(0),
            writes: AtomicU64::new(0),
            tries: AtomicU64::new(0),
            grants: AtomicU64::new(0),
        }
    }

    /// Counts a call of a kind, and whether it goes well.
    fn meet(&self, kind: &AtomicU64) -> Result<(), Failed> {
        count(&self.calls);
        let any = is_due(&self.call);
        if is_due(kind) || any {
            return Err(Failed);
        }
        Ok(())
    }
}

fn count(counter: &AtomicU64) {
    counter.fetch_add(1, Ordering::SeqCst);
}

/// Whether the call that goes wrong is due. The count below 0 is `NEVER`.
fn is_due(left: &AtomicU64) -> bool {
    let calls = left.load(Ordering::SeqCst);
    if calls == NEVER {
        return false;
    }
    left.store(calls.wrapping_sub(1), Ordering::SeqCst);
    calls == 0
}

/// Puts bytes into a range of their length.
fn put(range: &mut [u8], bytes: &[u8]) {
    if range.len() == bytes.len() {
        range.copy_from_slice(bytes);
    }
}

/// Reads the bytes from a place on, and answers how many there are.
fn read_at(bytes: &[u8], at: u64, buf: &mut [u8]) -> usize
    ensures { result ≤ length buf.new }
{
    let start = (at as usize).min(bytes.len());
    let rest = bytes.get(start..).unwrap_or(&[]);
    let count = rest.len().min(buf.len());
    buf[..count].copy_from_slice(&rest[..count]);
    count
}

/// The bytes, and who has a say in how calls go.
#[derive(Drop)]
struct Contents<'c> {
    bytes: Vec<u8>,
    panel: &'c Panel,
    probes: Vec<Probe<'c>>,
}

impl<'c> Contents<'c> {
    /// Takes a grant with the next probe.
    fn take_grant(&mut self) {
        if let Some(probe) = self.probes.pop() {
            count(&self.panel.tries);
            if probe.is_granted() {
                count(&self.panel.grants);
            }
        }
    }

    /// The range from `at` on, to whose end the device grows.
    fn range(&mut self, at: u64, len: usize) -> Result<&mut [u8], Failed> {
        let start = at as usize;
        let end = start.saturating_add(len);
        if end > MOST_BYTES {
            return Err(Failed);
        }
        if end > self.bytes.len() && self.bytes.resize(end, 0).is_err() {
            return Err(Failed);
        }
        match self.bytes.as_mut_slice().get_mut(start..end) {
            Some(range) => Ok(range),
            None => Err(Failed),
        }
    }

    fn size(&self) -> Result<u64, Failed> {
        self.panel.meet(&self.panel.read)?;
        Ok(self.bytes.len() as u64)
    }

    fn read(&mut self, at: u64, buf: &mut [u8]) -> Result<usize, Failed>
        ensures { IfOk result (λ n. n ≤ length buf.new) }
    {
        self.panel.meet(&self.panel.read)?;
        if is_due(&self.panel.ones) {
            buf.fill(0xff);
            return Ok(buf.len());
        }
        let count = read_at(&self.bytes, at, buf);
        if is_due(&self.panel.moved) && count > FOURTH_OFFSET {
            buf[FOURTH_OFFSET] ^= 1;
        }
        Ok(count)
    }

    /// A write that fails leaves 0xEE in its range.
    fn write(&mut self, at: u64, bytes: &[u8]) -> Result<(), Failed> {
        self.take_grant();
        count(&self.panel.writes);
        let met = self.panel.meet(&self.panel.write);
        let range = self.range(at, bytes.len())?;
        match met {
            Ok(()) => {
                put(range, bytes);
                Ok(())
            }
            Err(failed) => {
                range.fill(0xee);
                Err(failed)
            }
        }
    }

    fn flush(&mut self) -> Result<(), Failed> {
        self.take_grant();
        self.panel.meet(&self.panel.flush)
    }
}

/// The device. In contracts it tells no bytes.
#[derive(Drop)]
pub struct Device<'c> {
    contents: Contents<'c>,
    faults: Faults,
}

impl<'c> Device<'c> {
    /// A device with these bytes, which takes a grant with each of the probes.
    pub fn new(bytes: Vec<u8>, panel: &'c Panel, probes: Vec<Probe<'c>>) -> Device<'c> {
        Device {
            contents: Contents {
                bytes,
                panel,
                probes,
            },
            faults: Faults::NONE,
        }
    }

    pub fn into_bytes(self) -> Vec<u8> {
        self.contents.bytes
    }
}

impl<'c> Disk for Device<'c> {
    ghost use Rattle.zms_dev.specs.Disk.{silent};

    ghost state = { λ _. silent };

    ghost faults = { λ d. d.faults.count };

    ghost counts_now = { λ _ _ _ _ none. none };

    ghost only_now = { λ _ _ none. none };

    ghost reads_as = { λ _ tells. tells.honest };

    fn size(&mut self) -> Result<u64, Failed> {
        self.faults.noted(self.contents.size())
    }

    fn read(&mut self, at: u64, buf: &mut [u8]) -> Result<usize, Failed> {
        self.faults.noted(self.contents.read(at, buf))
    }

    fn write(&mut self, at: u64, bytes: &[u8]) -> Result<(), Failed> {
        self.faults.noted(self.contents.write(at, bytes))
    }

    fn flush(&mut self) -> Result<(), Failed> {
        self.faults.noted(self.contents.flush())
    }

    fn faults(&self) -> u64 {
        self.faults.count
    }
}
