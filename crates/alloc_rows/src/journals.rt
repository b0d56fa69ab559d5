//! The journals of a pool that was ended, as a trace writes them.
use crate::pool::Pool;
use std::alloc::{AllocError, Global};
use std::sync::Wait;
use trace_text::Printed;
use zms_dev::{MemSink, Room};

/// How many bytes and pieces the text has at most.
const ROOM: Room = Room {
    bytes: 65_536,
    calls: 65_536,
};

/// The text of the journals of the metaslabs, and of those classes that have notes. None where it is longer than its room.
fn journals_text<W: Wait>(
    rt: &W,
    alloc: Global,
    pool: Pool,
) -> Result<Option<MemSink>, AllocError> {
    let (metaslabs, classes) = pool.end(rt, alloc)?;
    let mut sink = MemSink::new(alloc, ROOM, &[])?;
    for metaslab in metaslabs {
        if metaslab.into_journal().write(&mut sink).is_err() {
            return Ok(None);
        }
    }
    for journal in classes {
        if !journal.notes.is_empty() && journal.write(&mut sink).is_err() {
            return Ok(None);
        }
    }
    Ok(Some(sink))
}

/// Ends a pool, and puts the lines of its journals into a list, the last one first.
pub fn read_journals<W: Wait>(
    rt: &W,
    alloc: Global,
    pool: Pool,
) -> Result<Vec<String>, AllocError> {
    let mut lines = Vec::new(alloc);
    let Some(sink) = journals_text(rt, alloc, pool)? else {
        return Ok(lines);
    };
    if let Ok(text) = str::from_utf8(sink.taken()) {
        for line in text.lines() {
            lines.push(String::from_str(alloc, line)?)?;
        }
    }
    lines.reverse();
    Ok(lines)
}
