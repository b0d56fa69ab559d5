//! Answers and journals as tables write them.

use crate::lane::Asked;
use ms_cell::{CellFault, CloseFault, LoadFault};
use ms_core::MsFault;
use ms_model::{GateNote, Journals};
use pool_keeper::SyncFault;
use std::alloc::{AllocError, Global};
use std::fmt::Write;
use trace_text::write_trace;
use txg_gate::TooMany;
use zms_dev::{MemSink, Room};
use zms_units::{Damage, First, Group, MsId};

pub fn text(alloc: Global, word: &str) -> Result<String, AllocError> {
    String::from_str(alloc, word)
}

fn cell_text(alloc: Global, fault: CellFault) -> Result<String, AllocError> {
    match fault {
        CellFault::Ms(MsFault::Late { group, collected }) => {
            format!(in alloc; "late {} {}", group.0, collected.0)
        }
        CellFault::Ms(MsFault::NotLive { unit }) => format!(in alloc; "notlive {unit}"),
        CellFault::Ms(MsFault::NotLoaded) => text(alloc, "notloaded"),
        CellFault::Ms(_) => text(alloc, "refused"),
        CellFault::Busy => text(alloc, "busy"),
        CellFault::Memory => text(alloc, "memory"),
    }
}

pub fn asked_text(alloc: Global, asked: Asked) -> Result<String, AllocError> {
    match asked {
        Asked::Granted { group, seg } => {
            format!(in alloc; "granted {} {}:{}", group.0, seg.start, seg.count)
        }
        Asked::Freed { group } => format!(in alloc; "done {}", group.0),
        Asked::Missed => text(alloc, "miss"),
        Asked::NotLoaded => text(alloc, "notloaded"),
        Asked::Refused(fault) => cell_text(alloc, fault),
        Asked::NoSuch => text(alloc, "nosuch"),
    }
}

/// Damage without what it is in the words.
fn damaged_text(alloc: Global, id: MsId, damage: Damage) -> Result<String, AllocError> {
    let what = match damage {
        Damage::Word(_) => "word",
        Damage::Counts { .. } => "counts",
        Damage::Unit { .. } => "unit",
    };
    format!(in alloc; "damaged {} {} {what}", id.vdev, id.index)
}

fn suspended_text(alloc: Global, first: First) -> Result<String, AllocError> {
    match first {
        First::Device { before, after } => format!(in alloc; "suspended {before} {after}"),
        First::Damaged { id, .. } => format!(in alloc; "suspended {} {}", id.vdev, id.index),
    }
}

pub fn load_text(alloc: Global, answer: Result<(), LoadFault>) -> Result<String, AllocError> {
    match answer {
        Ok(()) => text(alloc, "done"),
        Err(LoadFault::Suspended { first }) => suspended_text(alloc, first),
        Err(LoadFault::Device { before, after }) => format!(in alloc; "device {before} {after}"),
        Err(LoadFault::Damaged { id, damage }) => damaged_text(alloc, id, damage),
        Err(LoadFault::Memory) => text(alloc, "memory"),
    }
}

pub fn sync_text(alloc: Global, answer: Result<Group, SyncFault>) -> Result<String, AllocError> {
    match answer {
        Ok(group) => format!(in alloc; "done {}", group.0),
        Err(SyncFault::Suspended { first }) => suspended_text(alloc, first),
        Err(SyncFault::Busy { open_group, synced }) => {
            format!(in alloc; "busy {} {}", open_group.0, synced.0)
        }
        Err(SyncFault::Device { before, after }) => format!(in alloc; "device {before} {after}"),
        Err(SyncFault::Damaged { id, damage }) => damaged_text(alloc, id, damage),
        Err(SyncFault::Memory) => text(alloc, "memory"),
    }
}

pub fn close_text(alloc: Global, answer: Result<Group, CloseFault>) -> Result<String, AllocError> {
    match answer {
        Ok(group) => format!(in alloc; "closed {}", group.0),
        Err(CloseFault::TooMany(TooMany { open_group, synced })) => {
            format!(in alloc; "toomany {} {}", open_group.0, synced.0)
        }
        Err(CloseFault::Memory) => text(alloc, "memory"),
    }
}

/// The gate's journal in one line.
pub fn gate_text(alloc: Global, notes: &[GateNote]) -> Result<String, AllocError> {
    let mut line = String::from_str(alloc, "gate")?;
    for note in notes {
        match *note {
            GateNote::Closed { lane, group } => write!(line, " {lane} closed {}", group.0)?,
            GateNote::Settled { group } => write!(line, " settled {}", group.0)?,
        }
    }
    Ok(line)
}

/// The trace of the journals.
pub fn trace_of(alloc: Global, journals: &Journals) -> Result<String, AllocError> {
    let room = Room {
        bytes: 65_536,
        calls: 65_536,
    };
    let mut sink = MemSink::new(alloc, room, &[])?;
    if write_trace(&mut sink, journals).is_err() {
        return text(alloc, "no trace");
    }
    match str::from_utf8(sink.taken()) {
        Ok(trace) => text(alloc, trace),
        Err(_) => text(alloc, "no text"),
    }
}
