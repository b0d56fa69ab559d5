//! What is found on the pool device as a stop leaves it.

use crate::calls::{Left, found};
use crate::device::Position;
use crate::images::Image;
use row_tables::Words;
use std::alloc::AllocError;
use std::sync::Wait;
use std::thread::Threads;
use zms_dev::Unflushed;

fn unflushed_of(word: &str) -> Option<Unflushed> {
    match word {
        "old" => Some(Unflushed::Old),
        "new" => Some(Unflushed::New),
        "zeros" => Some(Unflushed::Zeros),
        "ones" => Some(Unflushed::Ones),
        _ => None,
    }
}

/// The bytes that a stop at a place leaves, `FLUSHES.WRITES HOW`, or at the end of the call, `end HOW`.
fn stopped(left: &Left, words: &mut Words<'_>) -> Result<Option<Image>, AllocError> {
    let place = words.word();
    let changes = match Position::of(place) {
        Some(position) => left.disk.changes_before(position),
        None if place == "end" => Some(left.disk.changes()),
        None => None,
    };
    match (changes, unflushed_of(words.word())) {
        (Some(changes), Some(how)) => Ok(Some(left.disk.stopped(changes, how)?)),
        _ => Ok(None),
    }
}

/// What is found at a group on the device as a stop leaves it, `PLACE HOW GROUP`, or that there is no such stop.
pub fn found_at<R: AllocGlobal + Threads + Wait + Sync>(
    rt: &R,
    left: &Left,
    line: &str,
) -> Result<String, AllocError> {
    let alloc = rt.alloc();
    let mut words = Words::new(line);
    match stopped(left, &mut words)? {
        Some(image) => found(rt, alloc, &image, words.word()),
        None => String::from_str(alloc, "no stop"),
    }
}

/// Whether a line speaks of a place.
pub fn speaks_of(line: &str, place: Position) -> bool {
    Position::of(Words::new(line).word()) == Some(place)
}

/// The first place to which the device came by a change and of which no line speaks.
pub fn place_left_out(left: &Left, stops: &str) -> Result<Option<Position>, AllocError> {
    for place in left.disk.places()? {
        if !stops.lines().any(|line| speaks_of(line, place)) {
            return Ok(Some(place));
        }
    }
    Ok(None)
}
