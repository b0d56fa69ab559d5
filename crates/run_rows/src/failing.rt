//! Which calls fail, and what is wanted where each fails in turn.

use crate::calls::{Left, call};
use crate::device::{DiskFailing, FailedCall, Position};
use crate::folders::Asked;
use crate::forms::Failing;
use crate::images::Image;
use crate::report::{Report, compare_all};
use crate::stops::{found_at, speaks_of};
use row_tables::Words;
use std::io;
use std::sync::Wait;
use std::thread::Threads;

/// More calls than any row makes fail in turn.
const MOST_CALLS: u32 = 500;

/// Which object fails in turn.
#[derive(Clone, Copy, Debug, PartialEq, Eq)]
enum Part {
    Out,
    Trace,
    /// The pool device, where the lanes begin at this place.
    Disk { lanes: Position },
}

/// `PLACE`, `read N` or `flush N`
fn disk_failing(words: &mut Words<'_>) -> Option<DiskFailing> {
    let name = words.word();
    if let Some(place) = Position::of(name) {
        return Some(DiskFailing::Change { place });
    }
    let number = words.small()?;
    match name {
        "read" => Some(DiskFailing::Read { number }),
        "flush" => Some(DiskFailing::Flush { number }),
        _ => None,
    }
}

/// Which calls fail: lines `source N`, `sink N`, `trace N`, `disk PLACE`, `disk read N` and `disk flush N`.
fn failing_of(text: &str) -> Failing {
    let mut failing = Failing::NOTHING;
    for line in text.lines() {
        let mut words = Words::new(line);
        let name = words.word();
        if name == "disk" {
            failing.disk = disk_failing(&mut words).unwrap_or(failing.disk);
        } else if let Some(number) = words.small() {
            match name {
                "source" => failing.source = number as usize,
                "sink" => failing.sink = number as usize,
                "trace" => failing.trace = number as usize,
                _ => {}
            }
        }
    }
    failing
}

fn call_with<R: AllocGlobal + Threads + Wait + Sync>(
    rt: &R,
    asked: &Asked,
    before: &Image,
    failing: Failing,
) -> io::Result<Left> {
    Ok(call(
        rt,
        rt.alloc(),
        &asked.words,
        &asked.commands,
        before,
        failing,
    )?)
}

/// Makes a call, and lets fail what its row says.
pub fn made<R: AllocGlobal + Threads + Wait + Sync>(
    rt: &R,
    asked: &Asked,
    before: &Image,
) -> io::Result<Left> {
    call_with(rt, asked, before, failing_of(asked.failing.as_str()))
}

/// Whether bytes are a beginning of a text, and not all of it.
fn is_front(front: &[u8], text: &[u8]) -> bool {
    front.len() < text.len() && text.starts_with(front)
}

/// Compares what a call left one of whose writes to a sink failed: the write is told and not tried again, and what the
/// sink took is a beginning of its text. Where it is the printed text, nothing is traced.
fn compare_sink<R: Print>(
    rt: &R,
    report: &mut Report<'_>,
    asked: &Asked,
    left: &Left,
    is_trace: bool,
) -> io::Result<()> {
    report.require(rt, "a write fault", left.status == 4)?;
    report.require(rt, "told", left.told.as_str() == "zms: write fault\n")?;
    let faults = if is_trace { (0, 1) } else { (1, 0) };
    let counts = (left.out_faults, left.trace_faults);
    report.require(rt, "one fault of the sink", counts == faults)?;
    let fronts = if is_trace {
        left.printed == asked.printed && is_front(&left.traced, &asked.traced)
    } else {
        left.traced.is_empty() && is_front(&left.printed, &asked.printed)
    };
    report.require(rt, "a beginning of the text", fronts)?;
    match &asked.left {
        Some(image) => {
            let same = image.parts_at(left.disk.seen()).is_none();
            report.require(rt, "the device as without a fault", same)
        }
        None => Ok(()),
    }
}

/// Whether what was printed and traced is that of a device whose call failed: nothing before the lanes, and behind them the
/// texts of the row for a failed device. A read at the place at which lanes begin may be either's.
fn is_told(asked: &Asked, left: &Left, failed: FailedCall, lanes: Position) -> bool {
    let nothing = left.printed.is_empty() && left.traced.is_empty();
    let texts = left.printed == asked.printed_failed && left.traced == asked.traced_failed;
    if failed.place.is_before(lanes) {
        nothing
    } else if failed.place == lanes && !failed.is_change {
        nothing || texts
    } else {
        texts
    }
}

/// Compares what is found behind a call that failed with what a stop in its place leaves.
fn compare_stops<R: Print + AllocGlobal + Threads + Wait + Sync>(
    rt: &R,
    report: &mut Report<'_>,
    asked: &Asked,
    left: &Left,
    place: Position,
) -> io::Result<()> {
    for line in asked.stops.as_str().lines() {
        if speaks_of(line, place) {
            let (stop, wanted) = line.split_once(" -> ").unwrap_or((line, ""));
            let (_, how) = stop.split_once(' ').unwrap_or((stop, ""));
            let end = format!(in rt.alloc(); "end {how}")?;
            let given = found_at(rt, left, end.as_str())?;
            if given.as_str() != wanted {
                report.tell(rt, stop, given.as_str())?;
            }
        }
    }
    Ok(())
}

/// Compares what a call left whose device failed: it is told, and a stop leaves what one at the failed call leaves.
fn compare_disk<R: Print + AllocGlobal + Threads + Wait + Sync>(
    rt: &R,
    report: &mut Report<'_>,
    asked: &Asked,
    left: &Left,
    lanes: Position,
) -> io::Result<()> {
    report.require(rt, "a device fault", left.status == 5)?;
    report.require(rt, "told", left.told.as_str() == "zms: device fault\n")?;
    report.require(rt, "one fault of the device", left.disk_faults == 1)?;
    let Some(failed) = left.disk.failed() else {
        return Ok(());
    };
    let told = is_told(asked, left, failed, lanes);
    report.require(rt, "texts of a device fault", told)?;
    if failed.is_change {
        compare_stops(rt, report, asked, left, failed.place)?;
    }
    Ok(())
}

fn compare_failed<R: Print + AllocGlobal + Threads + Wait + Sync>(
    rt: &R,
    report: &mut Report<'_>,
    asked: &Asked,
    left: &Left,
    part: Part,
) -> io::Result<()> {
    match part {
        Part::Out => compare_sink(rt, report, asked, left, false),
        Part::Trace => compare_sink(rt, report, asked, left, true),
        Part::Disk { lanes } => compare_disk(rt, report, asked, left, lanes),
    }
}

/// Makes each call of an object fail in turn, and wants that there are at least so many.
fn fail_each<R: Print + AllocGlobal + Threads + Wait + Sync>(
    rt: &R,
    report: &mut Report<'_>,
    asked: &Asked,
    before: &Image,
    part: Part,
    least: u32,
) -> io::Result<()> {
    let mut failing = Failing::NOTHING;
    for number in 0..MOST_CALLS {
        match part {
            Part::Out => failing.sink = number as usize,
            Part::Trace => failing.trace = number as usize,
            Part::Disk { .. } => failing.disk = DiskFailing::Call { number },
        }
        let left = call_with(rt, asked, before, failing)?;
        if left.status == 0 {
            report.require(rt, "as many calls as wanted", number >= least)?;
            return compare_all(rt, report, asked, before, &left);
        }
        compare_failed(rt, report, asked, &left, part)?;
    }
    report.tell(rt, "calls", "more than a row makes fail")
}

/// `each sink N`, `each trace N` or `each disk N PLACE`
fn part_of(words: &mut Words<'_>) -> Option<(Part, u32)> {
    if words.word() != "each" {
        return None;
    }
    let name = words.word();
    let least = words.small()?;
    match name {
        "sink" => Some((Part::Out, least)),
        "trace" => Some((Part::Trace, least)),
        "disk" => {
            let lanes = Position::of(words.word())?;
            Some((Part::Disk { lanes }, least))
        }
        _ => None,
    }
}

/// Makes calls fail in turn, as the lines of a row say.
pub fn fail_in_turn<R: Print + AllocGlobal + Threads + Wait + Sync>(
    rt: &R,
    report: &mut Report<'_>,
    asked: &Asked,
    before: &Image,
) -> io::Result<()> {
    for line in asked.failing.as_str().lines() {
        if let Some((part, least)) = part_of(&mut Words::new(line)) {
            fail_each(rt, report, asked, before, part, least)?;
        }
    }
    Ok(())
}
