//! Tables of rows: lines `CALL -> ANSWER` of a text, each of them called and compared with the answer that it wants. Empty
//! lines and lines that begin with `#` are passed over.
//!
//! Nothing is proved of what a table says: it holds what no clause can say, and its rows are data.
#![tactic(auto)]

mod segs;
mod words;

pub use segs::{are_apart_from, are_segs, read_segs, rise_from, segs_text};
use std::alloc::{AllocError, Global};
use std::rt::Files;
use std::{fs, io};
pub use words::Words;

/// What the rows of a table call.
pub trait Calls {
    /// The answer to the call of these words, as a table writes it.
    fn answer(&mut self, alloc: Global, words: &mut Words<'_>) -> Result<String, AllocError>;
}

/// How many rows have the answer that they want, and how many have another.
#[derive(Clone, Copy, Debug, PartialEq, Eq)]
struct Tally {
    agree: u64,
    differ: u64,
}

impl Tally {
    fn add(&mut self, agrees: bool) {
        if agrees {
            self.agree = self.agree.saturating_add(1);
        } else {
            self.differ = self.differ.saturating_add(1);
        }
    }
}

/// Whether a row has the answer that it wants; one that has another is printed.
fn agrees<R: Print + AllocGlobal, C: Calls>(
    rt: &R,
    calls: &mut C,
    name: &str,
    row: &str,
) -> io::Result<bool> {
    let Some((call, wanted)) = row.split_once(" -> ") else {
        println!(rt; "{name}: {row}: no row")?;
        return Ok(false);
    };
    let found = calls.answer(rt.alloc(), &mut Words::new(call))?;
    if found.as_str() == wanted {
        return Ok(true);
    }
    println!(rt; "{name}: {call}: wanted {wanted}, found {found}")?;
    Ok(false)
}

/// Calls each row of a table, and prints the rows that differ and how many agree. The table is the file of this name.
pub fn call_rows<R: Files + Print + AllocGlobal, C: Calls>(
    rt: &R,
    calls: &mut C,
    name: &str,
) -> io::Result<()> {
    let mut tally = Tally {
        agree: 0,
        differ: 0,
    };
    let text = fs::read_to_string(rt, name)?;
    for row in text.lines() {
        if !row.is_empty() && !row.starts_with('#') {
            tally.add(agrees(rt, calls, name, row)?);
        }
    }
    let Tally { agree, differ } = tally;
    println!(rt; "{name}: {agree} rows agree, {differ} differ")
}
