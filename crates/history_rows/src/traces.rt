//! The text of journals, whole and of the metaslabs alone.

use crate::reading::read_journals;
use ms_model::Journals;
use row_tables::{Calls, Words};
use std::alloc::{AllocError, Global};
use std::fs;
use std::rt::Files;
use trace_text::{write_metaslab_trace, write_trace};
use zms_dev::{Failed, MemSink, Room};

/// Rows over the files of a folder.
#[derive(Drop)]
pub struct TraceCalls<'a, R: Files + AllocGlobal + Drop> {
    rt: &'a R,
}

impl<'a, R: Files + AllocGlobal + Drop> TraceCalls<'a, R> {
    pub fn new(rt: &'a R) -> Self {
        TraceCalls { rt }
    }

    /// The text of the file of this name, empty where it was not read.
    fn text(&self, alloc: Global, name: &str) -> Result<String, AllocError> {
        match fs::read_to_string(self.rt, name) {
            Ok(text) => Ok(text),
            Err(_) => Ok(String::new(alloc)),
        }
    }
}

impl<R: Files + AllocGlobal + Drop> Calls for TraceCalls<'_, R> {
    /// `whole FILE`, or `metaslabs FILE WANTED` where the metaslabs' parts have the text of another file
    fn answer(&mut self, alloc: Global, words: &mut Words<'_>) -> Result<String, AllocError> {
        let is_whole = words.word() == "whole";
        let name = words.word();
        let given = self.text(alloc, name)?;
        let wanted = self.text(alloc, if is_whole { name } else { words.word() })?;
        match read_journals(alloc, given.as_str())? {
            Some(journals) if !given.is_empty() => {
                compared(alloc, &journals, is_whole, wanted.as_str())
            }
            _ => String::from_str(alloc, "no trace"),
        }
    }
}

/// Whether journals have this text.
fn compared(
    alloc: Global,
    journals: &Journals,
    is_whole: bool,
    wanted: &str,
) -> Result<String, AllocError> {
    let room = Room {
        bytes: 4000,
        calls: 4000,
    };
    let mut sink = MemSink::new(alloc, room, &[])?;
    let written = if is_whole {
        write_trace(&mut sink, journals)
    } else {
        write_metaslab_trace(&mut sink, journals)
    };
    match written {
        Ok(()) if sink.taken() == wanted.as_bytes() => {
            format!(in alloc; "the same {} bytes", wanted.len())
        }
        Ok(()) => String::from_str(alloc, "another text"),
        Err(Failed) => String::from_str(alloc, "failed"),
    }
}
