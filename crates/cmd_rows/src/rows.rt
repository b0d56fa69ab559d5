//! The file of rows.

use cmd_text::fields::{MAX_NUMBER, field, first_line, number, two_numbers};
use std::alloc::{AllocError, Global};

/// The greatest text that a row may have.
const MAX_ROW_BYTES: u64 = 40_000_000;

/// A text, and what is wanted of it.
#[derive(Drop)]
pub struct Row<'a> {
    pub name: &'a [u8],
    pub is_full: bool,
    pub text: Vec<u8>,
    pub wanted: &'a [u8],
}

/// So many bytes and a line feed, and what stands behind.
fn bytes_of(rest: &[u8], count: u64) -> Option<(&[u8], &[u8])> {
    if count >= rest.len() as u64 {
        return None;
    }
    let count = count as usize;
    Some((&rest[..count], &rest[count + 1..]))
}

/// Adds a piece to the text as often as it stands there; none where the file is not laid out so.
fn add_piece<'a>(text: &mut Vec<u8>, rest: &'a [u8]) -> Result<Option<&'a [u8]>, AllocError> {
    let (line, next) = first_line(rest);
    let Some((times, length)) = two_numbers(line, MAX_ROW_BYTES, MAX_ROW_BYTES) else {
        return Ok(None);
    };
    let Some((piece, next)) = bytes_of(next, length) else {
        return Ok(None);
    };
    for _ in 0..times {
        text.extend_from_slice(piece)?;
    }
    Ok(Some(next))
}

/// The first row, and what stands behind it; none where the file is not laid out so, or ends.
pub fn next_row(alloc: Global, rest: &[u8]) -> Result<Option<(Row<'_>, &[u8])>, AllocError> {
    let (line, mut next) = first_line(rest);
    let Some((name, line)) = field(line) else {
        return Ok(None);
    };
    let Some((pieces, kind)) = field(line) else {
        return Ok(None);
    };
    let mut text = Vec::new(alloc);
    for _ in 0..number(pieces).unwrap_or(0) {
        let Some(behind) = add_piece(&mut text, next)? else {
            return Ok(None);
        };
        next = behind;
    }
    let (line, behind) = first_line(next);
    let Some((wanted, behind)) = bytes_of(behind, number(line).unwrap_or(MAX_NUMBER)) else {
        return Ok(None);
    };
    let row = Row {
        name,
        is_full: kind == b"full".as_slice(),
        text,
        wanted,
    };
    Ok(Some((row, behind)))
}
