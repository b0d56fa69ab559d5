//! Entries of space maps and their words.

ghost use Rattle.std.specs.Prelude.{◌≡◌, true};
ghost use Rattle.sm_entry.specs.Grammar.{IsFitting};

use crate::space::bad;
use row_tables::{Calls, Words};
use sm_entry::{Entry, EntryFault, SmType, read, write};
use std::alloc::{AllocError, Global};
use std::fmt::Write;

/// Rows that keep nothing from one to the next.
#[derive(Drop)]
pub struct EntryCalls;

impl Calls for EntryCalls {
    fn answer(&mut self, alloc: Global, words: &mut Words<'_>) -> Result<String, AllocError> {
        match words.word() {
            "write" => match entry_of(words) {
                Some(entry) if fits(&entry) => written(alloc, &entry),
                _ => bad(alloc),
            },
            "read" => match read_words(alloc, words)? {
                Some(given) if !given.is_empty() => entry_text(alloc, read(&given)),
                _ => bad(alloc),
            },
            _ => bad(alloc),
        }
    }
}

/// The type of this name.
pub fn kind_of(name: &str) -> Option<SmType> {
    match name {
        "alloc" => Some(SmType::Alloc),
        "free" => Some(SmType::Free),
        _ => None,
    }
}

pub fn kind_name(kind: SmType) -> &'static str {
    match kind {
        SmType::Alloc => "alloc",
        SmType::Free => "free",
    }
}

/// The words of 64 bits that are left, none where one of them is no number.
pub fn read_words(alloc: Global, words: &mut Words<'_>) -> Result<Option<Vec<u64>>, AllocError> {
    let mut given = Vec::new(alloc);
    for word in words.rest().split(' ') {
        if !word.is_empty() {
            let Some(number) = Words::new(word).hex() else {
                return Ok(None);
            };
            given.push(number)?;
        }
    }
    Ok(Some(given))
}

/// The text of words of 64 bits, `none` where there is none.
pub fn words_text(alloc: Global, given: &[u64]) -> Result<String, AllocError> {
    let mut text = String::new(alloc);
    for word in given {
        if !text.is_empty() {
            text.push_str(" ")?;
        }
        write!(text, "{word:016x}")?;
    }
    if text.is_empty() {
        return String::from_str(alloc, "none");
    }
    Ok(text)
}

/// `one OFFSET RUN KIND`, `two VDEV OFFSET RUN KIND` or `debug ACTION PASS GROUP`
fn entry_of(words: &mut Words<'_>) -> Option<Entry> {
    match words.word() {
        "one" => Some(Entry::One {
            offset: words.number()?,
            run: words.number()?,
            kind: kind_of(words.word())?,
        }),
        "two" => Some(Entry::Two {
            vdev: words.small()?,
            offset: words.number()?,
            run: words.number()?,
            kind: kind_of(words.word())?,
        }),
        "debug" => Some(Entry::Debug {
            action: words.byte()?,
            pass: words.word().parse::<u16>().ok()?,
            group: words.number()?,
        }),
        _ => None,
    }
}

/// Whether each field of an entry fits its bits.
pub fn fits(entry: &Entry) -> bool
    ensures { result ≡ true → IsFitting entry.now }
{
    match *entry {
        Entry::One { offset, run, .. } => offset < 1 << 47 && 1 <= run && run <= 1 << 15,
        Entry::Two {
            vdev,
            offset,
            run,
            ..
        } => vdev < 1 << 24 && offset < 1 << 63 && 1 <= run && run <= 1 << 36,
        Entry::Debug {
            action,
            pass,
            group,
        } => action < 4 && pass < 1024 && group < 1 << 50,
    }
}

/// The words of an entry.
fn written(alloc: Global, entry: &Entry) -> Result<String, AllocError>
    requires { IsFitting entry.now }
{
    let mut out = [7, 8];
    let size = write(entry, &mut out);
    words_text(alloc, &out[..size.min(2)])
}

/// An entry that was read, and how many words it has; or why there is none.
fn entry_text(
    alloc: Global,
    found: Result<(Entry, usize), EntryFault>,
) -> Result<String, AllocError> {
    match found {
        Ok((Entry::One { offset, run, kind }, size)) => {
            format!(in alloc; "{size} one {offset} {run} {}", kind_name(kind))
        }
        Ok(
            (
                Entry::Two {
                    vdev,
                    offset,
                    run,
                    kind,
                },
                size,
            ),
        ) => { format!(in alloc; "{size} two {vdev} {offset} {run} {}", kind_name(kind)) }
        Ok(
            (
                Entry::Debug {
                    action,
                    pass,
                    group,
                },
                size,
            ),
        ) => format!(in alloc; "{size} debug {action} {pass} {group}"),
        Err(EntryFault::BadPad) => String::from_str(alloc, "badpad"),
        Err(EntryFault::Short) => String::from_str(alloc, "short"),
    }
}
