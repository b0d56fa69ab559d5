//! The pool device of a row. It fails where it is told to, and keeps a record of what changed it.

ghost use Rattle.std.specs.Prelude.{◌≤◌, length, IfOk};

use crate::faults::Faults;
use crate::images::Image;
use std::alloc::{AllocError, Global};
use zms_dev::{Disk, Failed, Unflushed};

/// A place among the calls of a device that change it: behind so many flushes, and then so many writes.
#[derive(Clone, Copy, Debug, PartialEq, Eq)]
pub struct Position {
    pub flushes: u32,
    pub writes: u32,
}

impl Position {
    pub const START: Position = Position {
        flushes: 0,
        writes: 0,
    };

    /// `FLUSHES.WRITES`
    pub fn of(text: &str) -> Option<Position> {
        let (flushes, writes) = text.split_once('.')?;
        Some(Position {
            flushes: flushes.parse::<u32>().ok()?,
            writes: writes.parse::<u32>().ok()?,
        })
    }

    pub fn is_before(self, other: Position) -> bool {
        self.flushes < other.flushes || self.flushes == other.flushes && self.writes < other.writes
    }

    /// The place behind one change more.
    fn behind(self, change: &Change) -> Position {
        match change {
            Change::Lost { .. } => self,
            Change::Write { .. } => Position {
                flushes: self.flushes,
                writes: self.writes.saturating_add(1),
            },
            Change::Flush => Position {
                flushes: self.flushes.saturating_add(1),
                writes: 0,
            },
        }
    }
}

/// A call that changed the device, or may have.
#[derive(Drop)]
enum Change {
    Write { at: u64, bytes: Vec<u8> },
    /// A write that failed.
    Lost { at: u64, len: u64 },
    Flush,
}

#[derive(Clone, Copy, Debug, PartialEq, Eq)]
enum Kind {
    Size,
    Read,
    /// A read as long as the read right before it.
    Again,
    Write,
    Flush,
}

/// Which call fails. Numbers count from 0; those of calls pass over each read that is as long as the read right before it.
#[derive(Clone, Copy, Debug, PartialEq, Eq)]
pub enum DiskFailing {
    Nothing,
    Call { number: u32 },
    /// The call that changes the device first at a place.
    Change { place: Position },
    Read { number: u32 },
    Flush { number: u32 },
}

/// A call that failed: the place at which it was made, and whether it was one that changes the device.
#[derive(Clone, Copy, Debug, PartialEq, Eq)]
pub struct FailedCall {
    pub place: Position,
    pub is_change: bool,
}

/// The bytes of a device and what happened to them.
#[derive(Drop)]
struct Record {
    alloc: Global,
    first: Image,
    seen: Image,
    changes: Vec<Change>,
    place: Position,
    calls: u32,
    reads: u32,
    /// The length of the last read, if no change came behind it.
    last_read: Option<usize>,
    failing: DiskFailing,
    failed: Option<FailedCall>,
}

impl Record {
    fn fails(&self, kind: Kind) -> bool {
        match self.failing {
            DiskFailing::Nothing => false,
            DiskFailing::Call { number } => kind != Kind::Again && number == self.calls,
            DiskFailing::Change { place } => {
                place == self.place && (kind == Kind::Write || kind == Kind::Flush)
            }
            DiskFailing::Read { number } => {
                (kind == Kind::Read || kind == Kind::Again) && number == self.reads
            }
            DiskFailing::Flush { number } => kind == Kind::Flush && number == self.place.flushes,
        }
    }

    /// Counts a call, and whether it goes well. One call fails at most.
    fn meet(&mut self, kind: Kind) -> Result<(), Failed> {
        let fails = self.fails(kind);
        if kind != Kind::Again {
            self.calls = self.calls.saturating_add(1);
        }
        if kind == Kind::Read || kind == Kind::Again {
            self.reads = self.reads.saturating_add(1);
        }
        if !fails {
            return Ok(());
        }
        self.failing = DiskFailing::Nothing;
        self.failed = Some(FailedCall {
            place: self.place,
            is_change: kind == Kind::Write || kind == Kind::Flush,
        });
        Err(Failed)
    }

    fn note(&mut self, change: Change) -> Result<(), Failed> {
        self.place = self.place.behind(&change);
        self.last_read = None;
        match self.changes.push(change) {
            Ok(()) => Ok(()),
            Err(_) => Err(Failed),
        }
    }

    fn size(&mut self) -> Result<u64, Failed> {
        self.meet(Kind::Size)?;
        Ok(self.seen.length())
    }

    fn read(&mut self, at: u64, buf: &mut [u8]) -> Result<usize, Failed>
        ensures { IfOk result (λ n. n ≤ length buf.new) }
    {
        let kind = if self.last_read == Some(buf.len()) {
            Kind::Again
        } else {
            Kind::Read
        };
        self.last_read = Some(buf.len());
        self.meet(kind)?;
        Ok(self.seen.read(at, buf))
    }

    fn write(&mut self, at: u64, bytes: &[u8]) -> Result<(), Failed> {
        if let Err(failed) = self.meet(Kind::Write) {
            let len = bytes.len() as u64;
            self.note(Change::Lost { at, len })?;
            return Err(failed);
        }
        let Ok(()) = self.seen.write(self.alloc, at, bytes) else {
            return Err(Failed);
        };
        match Vec::from_slice(self.alloc, bytes) {
            Ok(bytes) => self.note(Change::Write { at, bytes }),
            Err(_) => Err(Failed),
        }
    }

    fn flush(&mut self) -> Result<(), Failed> {
        self.meet(Kind::Flush)?;
        self.note(Change::Flush)
    }
}

/// The device. In contracts it tells no bytes.
#[derive(Drop)]
pub struct Device {
    record: Record,
    faults: Faults,
}

/// The change, with this byte in the range of a write.
fn tear(alloc: Global, image: &mut Image, change: &Change, byte: u8) -> Result<(), AllocError> {
    match change {
        Change::Write { at, bytes } => image.tear(alloc, *at, bytes.len() as u64, byte),
        Change::Lost { at, len } => image.tear(alloc, *at, *len, byte),
        Change::Flush => Ok(()),
    }
}

fn apply(alloc: Global, image: &mut Image, change: &Change) -> Result<(), AllocError> {
    match change {
        Change::Write { at, bytes } => image.write(alloc, *at, bytes),
        Change::Lost { .. } | Change::Flush => Ok(()),
    }
}

impl Device {
    /// A device with these bytes, all of them flushed.
    pub fn new(alloc: Global, image: &Image, failing: DiskFailing) -> Result<Device, AllocError> {
        let record = Record {
            alloc,
            first: image.copy(alloc)?,
            seen: image.copy(alloc)?,
            changes: Vec::new(alloc),
            place: Position::START,
            calls: 0,
            reads: 0,
            last_read: None,
            failing,
            failed: None,
        };
        Ok(Device {
            record,
            faults: Faults::NONE,
        })
    }

    /// What it reads as.
    pub fn seen(&self) -> &Image {
        &self.record.seen
    }

    /// Whether no call changed it, or may have.
    pub fn is_untouched(&self) -> bool {
        self.record.changes.is_empty()
    }

    pub fn failed(&self) -> Option<FailedCall> {
        self.record.failed
    }

    /// How many changes come before a place, if the device came there.
    pub fn changes_before(&self, wanted: Position) -> Option<usize> {
        let mut place = Position::START;
        for (number, change) in self.record.changes.iter().enumerate() {
            if place == wanted {
                return Some(number);
            }
            place = place.behind(change);
        }
        if place == wanted {
            Some(self.record.changes.len())
        } else {
            None
        }
    }

    /// How many changes there were.
    pub fn changes(&self) -> usize {
        self.record.changes.len()
    }

    /// Each place to which the device came by a change.
    pub fn places(&self) -> Result<Vec<Position>, AllocError> {
        let mut places = Vec::new(self.record.alloc);
        let mut place = Position::START;
        for change in &self.record.changes {
            place = place.behind(change);
            places.push(place)?;
        }
        Ok(places)
    }

    /// The number of the last flush among the first changes.
    fn last_flush(&self, changes: usize) -> Option<usize> {
        let mut last = None;
        for (number, change) in self.record.changes.iter().enumerate() {
            if let Change::Flush = change
                && number < changes
            {
                last = Some(number);
            }
        }
        last
    }

    /// The bytes that a stop behind so many changes leaves. What was not flushed is as before, as written, or zeros or ones,
    /// then also from the end of what was flushed to what was written behind it.
    pub fn stopped(&self, changes: usize, how: Unflushed) -> Result<Image, AllocError> {
        let alloc = self.record.alloc;
        let last = self.last_flush(changes);
        let mut image = self.record.first.copy(alloc)?;
        for (number, change) in self.record.changes.iter().enumerate() {
            if number >= changes {
                return Ok(image);
            }
            let is_flushed = last.is_some_and(|last| number < last);
            match how {
                _ if is_flushed => apply(alloc, &mut image, change)?,
                Unflushed::Old => {}
                Unflushed::New => apply(alloc, &mut image, change)?,
                Unflushed::Zeros => tear(alloc, &mut image, change, 0)?,
                Unflushed::Ones => tear(alloc, &mut image, change, 0xff)?,
            }
        }
        Ok(image)
    }
}

impl Disk for Device {
    ghost use Rattle.zms_dev.specs.Disk.{silent};

    ghost state = { λ _. silent };

    ghost faults = { λ d. d.faults.count };

    ghost counts_now = { λ _ _ _ _ none. none };

    ghost only_now = { λ _ _ none. none };

    ghost reads_as = { λ _ tells. tells.honest };

    fn size(&mut self) -> Result<u64, Failed> {
        self.faults.noted(self.record.size())
    }

    fn read(&mut self, at: u64, buf: &mut [u8]) -> Result<usize, Failed> {
        self.faults.noted(self.record.read(at, buf))
    }

    fn write(&mut self, at: u64, bytes: &[u8]) -> Result<(), Failed> {
        self.faults.noted(self.record.write(at, bytes))
    }

    fn flush(&mut self) -> Result<(), Failed> {
        self.faults.noted(self.record.flush())
    }

    fn faults(&self) -> u64 {
        self.faults.count
    }
}
