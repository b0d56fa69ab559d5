//! Reports of which one call fails.

use crate::rows::{NEVER, Row, tell};
use std::alloc::{AllocError, Global};

/// More calls than a report of these rows makes whose failing is tried.
const MOST_CALLS: usize = 300;

/// Whether each of the first calls of the sink that fails is told, and ends the report: what was taken is a front of the
/// text, and none of it is handed on.
pub(crate) fn sink_fails(alloc: Global, row: &Row) -> Result<bool, AllocError> {
    for call in 0..MOST_CALLS {
        let told = tell(alloc, row, call, NEVER)?;
        if told.answer == "done" {
            return Ok(call > 0);
        }
        if told.answer != "write"
            || !row.wanted.starts_with(&told.taken)
            || !told.handed.is_empty()
        {
            return Ok(false);
        }
    }
    Ok(true)
}

/// Whether each call of the device that fails is told: the pool is not opened, or the report ends, behind a front of the text.
pub(crate) fn device_fails(alloc: Global, row: &Row) -> Result<bool, AllocError> {
    for call in 0..MOST_CALLS {
        let told = tell(alloc, row, NEVER, call)?;
        if told.answer == "done" {
            return Ok(call > 0);
        }
        let is_told = told.answer == "device" || told.answer == "closed";
        if !is_told || !row.wanted.starts_with(&told.taken) || !told.handed.is_empty() {
            return Ok(false);
        }
    }
    Ok(true)
}
