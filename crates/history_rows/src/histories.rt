//! Which journals are legal histories of a metaslab of 256 units of 4096 bytes, opened in group 4.

use crate::lines::noted_of;
use ms_model::{Noted, legal};
use row_tables::{Calls, Words, are_segs, read_segs};
use std::alloc::{AllocError, Global};
use zms_units::{Group, Seg};

/// Rows that keep nothing from one to the next.
#[derive(Drop)]
pub struct HistoryCalls;

impl Calls for HistoryCalls {
    /// `held START:COUNT .. | LANE ACT | ..`
    fn answer(&mut self, alloc: Global, words: &mut Words<'_>) -> Result<String, AllocError> {
        let text = words.rest();
        let (held, notes) = text.split_once(" | ").unwrap_or((text, ""));
        let mut held = Words::new(held);
        let _held = held.word();
        match (read_segs(alloc, &mut held)?, read_notes(alloc, notes)?) {
            (Some(held), Some(notes)) => verdict(alloc, &held, &notes),
            _ => String::from_str(alloc, "no call"),
        }
    }
}

fn read_notes(alloc: Global, text: &str) -> Result<Option<Vec<Noted>>, AllocError> {
    let mut notes = Vec::new(alloc);
    for note in text.split(" | ") {
        if !note.is_empty() {
            let Some(noted) = noted_of(&mut Words::new(note)) else {
                return Ok(None);
            };
            notes.push(noted)?;
        }
    }
    Ok(Some(notes))
}

fn verdict(alloc: Global, held: &[Seg], notes: &[Noted]) -> Result<String, AllocError> {
    if !are_segs(256, held) {
        return String::from_str(alloc, "no base");
    }
    match legal(alloc, held, 256, 12, Group(4), notes)? {
        None => String::from_str(alloc, "legal"),
        Some(place) => format!(in alloc; "not note {place}"),
    }
}
