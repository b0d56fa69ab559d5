//! What the lanes of a run do, as lines of a table say: `LANE CALL -> ANSWER`, up to a line `end`.

use crate::device::Panel;
use crate::lane::{Asked, Lane};
use crate::session::Play;
use crate::texts::{asked_text, close_text, load_text, sync_text, text};
use row_tables::Words;
use std::alloc::{AllocError, Global};
use std::fmt::Write;
use std::str::Lines;
use std::sync::Wait;
use std::sync::atomic::{AtomicU64, Ordering};
use std::thread::Threads;
use zms_units::{MsId, Seg};

/// More lines than a table has.
pub const MOST_LINES: u32 = 1_000_000;

/// How many rows agree, and what is to be told of those that differ.
#[derive(Drop)]
pub struct Report {
    pub agree: u64,
    pub differ: u64,
    pub told: String,
}

impl Report {
    pub fn new(alloc: Global) -> Self {
        Report {
            agree: 0,
            differ: 0,
            told: String::new(alloc),
        }
    }

    /// Compares a row's answer.
    pub fn compare(&mut self, call: &str, wanted: &str, found: &str) -> Result<(), AllocError> {
        if wanted == found {
            self.agree = self.agree.saturating_add(1);
            return Ok(());
        }
        self.differ = self.differ.saturating_add(1);
        write!(self.told, "{call}: wanted {wanted}, found {found}\n")
    }
}

/// The lines of a table that are left.
#[derive(Drop)]
pub struct Script<'t, 'p> {
    pub lines: Lines<'t>,
    pub panel: &'p Panel,
    pub report: Report,
}

impl<'t, 'p> Script<'t, 'p> {
    /// The next line that is not empty and no comment.
    pub fn line(&mut self) -> Option<&'t str> {
        for _ in 0..MOST_LINES {
            let line = self.lines.next()?;
            if !line.is_empty() && !line.starts_with('#') {
                return Some(line);
            }
        }
        None
    }
}

/// The metaslab of the words `VDEV INDEX`.
fn id_of(words: &mut Words<'_>) -> Option<MsId> {
    let vdev = words.byte()?;
    let index = words.word().parse::<u16>().ok()?;
    Some(MsId { vdev, index })
}

/// `VDEV INDEX COUNT`: a grant in the open group, for which the metaslab is loaded if need be.
fn grant<W: Wait>(
    rt: &W,
    alloc: Global,
    lane: &mut Lane<'_, '_>,
    words: &mut Words<'_>,
) -> Result<String, AllocError> {
    let (Some(id), Some(count)) = (id_of(words), words.small()) else {
        return text(alloc, "no call");
    };
    let hold = lane.hold(rt);
    let group = hold.group;
    let mut asked = lane.ask(rt, id, group, count);
    let mut loaded = None;
    if asked == Asked::NotLoaded {
        loaded = lane.load(rt, id);
        asked = lane.ask(rt, id, group, count);
    }
    lane.release(rt, hold);
    match loaded {
        Some(Err(fault)) => load_text(alloc, Err(fault)),
        _ => asked_text(alloc, asked),
    }
}

/// `VDEV INDEX START:COUNT`
fn free<W: Wait>(
    rt: &W,
    alloc: Global,
    lane: &mut Lane<'_, '_>,
    words: &mut Words<'_>,
) -> Result<String, AllocError> {
    let (Some(id), Some((start, count))) = (id_of(words), words.pair()) else {
        return text(alloc, "no call");
    };
    let hold = lane.hold(rt);
    let asked = lane.free(rt, id, &hold, Seg { start, count });
    lane.release(rt, hold);
    asked_text(alloc, asked)
}

/// `VDEV INDEX`
fn load<W: Wait>(
    rt: &W,
    alloc: Global,
    lane: &mut Lane<'_, '_>,
    words: &mut Words<'_>,
) -> Result<String, AllocError> {
    let Some(id) = id_of(words) else {
        return text(alloc, "no call");
    };
    match lane.load(rt, id) {
        Some(answer) => load_text(alloc, answer),
        None => text(alloc, "nosuch"),
    }
}

/// A call of a lane.
fn call<W: Wait>(
    rt: &W,
    alloc: Global,
    lane: &mut Lane<'_, '_>,
    words: &mut Words<'_>,
) -> Result<String, AllocError> {
    match words.word() {
        "grant" => grant(rt, alloc, lane, words),
        "free" => free(rt, alloc, lane, words),
        "load" => load(rt, alloc, lane, words),
        "close" => close_text(alloc, lane.close(rt)),
        "sync" => sync_text(alloc, lane.sync(rt)),
        _ => text(alloc, "no call"),
    }
}

/// The counter of the panel that a word names.
fn counter<'p>(panel: &'p Panel, word: &str) -> Option<&'p AtomicU64> {
    match word {
        "call" => Some(&panel.call),
        "read" => Some(&panel.read),
        "write" => Some(&panel.write),
        "flush" => Some(&panel.flush),
        "ones" => Some(&panel.ones),
        "moved" => Some(&panel.moved),
        "calls" => Some(&panel.calls),
        "writes" => Some(&panel.writes),
        "tries" => Some(&panel.tries),
        "grants" => Some(&panel.grants),
        _ => None,
    }
}

/// `COUNTER NUMBER`
fn set(alloc: Global, panel: &Panel, words: &mut Words<'_>) -> Result<String, AllocError> {
    let (Some(counter), Some(number)) = (counter(panel, words.word()), words.number()) else {
        return text(alloc, "no counter");
    };
    counter.store(number, Ordering::SeqCst);
    text(alloc, "done")
}

/// `COUNTER`
pub fn counted(alloc: Global, panel: &Panel, words: &mut Words<'_>) -> Result<String, AllocError> {
    match counter(panel, words.word()) {
        Some(counter) => format!(in alloc; "{}", counter.load(Ordering::SeqCst)),
        None => text(alloc, "no counter"),
    }
}

/// The answer to a line's call.
fn answer<W: Wait>(
    rt: &W,
    alloc: Global,
    panel: &Panel,
    lanes: &mut [Lane<'_, '_>],
    words: &mut Words<'_>,
) -> Result<String, AllocError> {
    let first = words.word();
    match first {
        "set" => set(alloc, panel, words),
        "count" => counted(alloc, panel, words),
        _ => {
            let number = first.parse::<u8>().ok();
            for lane in lanes {
                if Some(lane.number()) == number {
                    return call(rt, alloc, lane, words);
                }
            }
            text(alloc, "no lane")
        }
    }
}

impl<'t, 'p> Play for Script<'t, 'p> {
    fn play<W: Threads + Wait + Sync>(
        &mut self,
        rt: &W,
        alloc: Global,
        mut lanes: Vec<Lane<'_, '_>>,
    ) -> Result<(), AllocError> {
        for _ in 0..MOST_LINES {
            let line = self.line().unwrap_or("end");
            if line == "end" {
                return Ok(());
            }
            let (asked, wanted) = line.split_once(" -> ").unwrap_or((line, ""));
            let found = answer(rt, alloc, self.panel, &mut lanes, &mut Words::new(asked))?;
            self.report.compare(asked, wanted, found.as_str())?;
        }
        Ok(())
    }
}
