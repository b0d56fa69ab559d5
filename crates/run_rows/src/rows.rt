//! Rows that are folders: calls in turn over one pool device, each in a folder `1`, `2` and so on.

use crate::calls::Left;
use crate::failing::{fail_in_turn, made};
use crate::folders::{Asked, image_file, read_call};
use crate::images::Image;
use crate::report::{Report, compare_all};
use crate::stops::{found_at, place_left_out};
use std::rt::Files;
use std::sync::Wait;
use std::thread::Threads;
use std::{fs, io};

/// More calls than any row has.
const MOST_FOLDERS: u32 = 20;

/// Takes each stop, lines `PLACE HOW GROUP -> FOUND`. Where there are any, each place to which the device came has one.
fn take_stops<R: Print + AllocGlobal + Threads + Wait + Sync>(
    rt: &R,
    report: &mut Report<'_>,
    asked: &Asked,
    left: &Left,
) -> io::Result<()> {
    for line in asked.stops.as_str().lines() {
        let (stop, wanted) = line.split_once(" -> ").unwrap_or((line, ""));
        let given = found_at(rt, left, stop)?;
        if given.as_str() != wanted {
            report.tell(rt, stop, given.as_str())?;
        }
    }
    let stops = asked.stops.as_str();
    match place_left_out(left, stops)? {
        Some(place) if !stops.is_empty() && left.disk_faults == 0 => {
            let detail = format!(in rt.alloc(); "{}.{}", place.flushes, place.writes)?;
            report.tell(rt, "no row for the stop", detail.as_str())
        }
        _ => Ok(()),
    }
}

/// Makes a call and compares it; what the device has then.
fn run_call<R: Print + AllocGlobal + Threads + Wait + Sync>(
    rt: &R,
    report: &mut Report<'_>,
    asked: &Asked,
    before: &Image,
) -> io::Result<Image> {
    let left = made(rt, asked, before)?;
    compare_all(rt, report, asked, before, &left)?;
    take_stops(rt, report, asked, &left)?;
    fail_in_turn(rt, report, asked, before)?;
    Ok(left.disk.seen().copy(rt.alloc())?)
}

/// Makes the calls of a row in turn. Whether all are as wanted.
fn run_row<R: Print + AllocGlobal + Files + Threads + Wait + Sync>(
    rt: &R,
    row: &str,
) -> io::Result<bool> {
    let alloc = rt.alloc();
    let mut device = image_file(rt, row, "device")?.unwrap_or(Image::new(alloc));
    for number in 1..MOST_FOLDERS {
        let place = format!(in alloc; "{row}/{number}")?;
        let Some(asked) = read_call(rt, place.as_str())? else {
            return Ok(number > 1);
        };
        let mut report = Report {
            place: place.as_str(),
            differs: false,
        };
        device = run_call(rt, &mut report, &asked, &device)?;
        if report.differs {
            return Ok(false);
        }
    }
    Ok(true)
}

/// The names in a folder, in their order.
fn names<R: Files + AllocGlobal + Clone + Drop>(rt: &R, folder: &str) -> io::Result<Vec<String>> {
    let mut names = Vec::new(rt.alloc());
    for entry in fs::read_dir(rt, folder)? {
        let entry = entry?;
        names.push(String::from_str(rt.alloc(), entry.file_name())?)?;
    }
    names.sort()?;
    Ok(names)
}

/// Runs each row of a folder, and prints how many are as wanted.
pub fn run_all<R: Print + AllocGlobal + Files + Clone + Drop + Threads + Wait + Sync>(
    rt: &R,
    folder: &str,
) -> io::Result<()> {
    let mut agree = 0u64;
    let mut differ = 0u64;
    for name in names(rt, folder)? {
        let row = format!(in rt.alloc(); "{folder}/{name}")?;
        if run_row(rt, row.as_str())? {
            agree = agree.saturating_add(1);
        } else {
            differ = differ.saturating_add(1);
            println!(rt; "{row}: differs")?;
        }
    }
    println!(rt; "{folder}: {agree} rows agree, {differ} differ")
}
