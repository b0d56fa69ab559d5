//! The rows, one after the other.

use crate::failing::{device_fails, sink_fails};
use crate::images::image_of;
use crate::layouts::made;
use meta_store::{At, open};
use std::alloc::{AllocError, Global};
use std::rt::Files;
use std::{fs, io};
use zdb_report::report;
use zms_dev::{DiskRoom, MemDisk, MemSink, Room};
use zms_units::Group;

/// The number of a call that is never made.
pub(crate) const NEVER: usize = usize::MAX;

/// A device, what is asked of it, the report that is wanted, and whether each call is made to fail, too.
#[derive(Drop)]
pub(crate) struct Row {
    pub(crate) image: Vec<u8>,
    pub(crate) at: At,
    pub(crate) wanted: Vec<u8>,
    pub(crate) fails: bool,
}

/// What a report answered, by a word, and what the sink took and handed on.
#[derive(Drop)]
pub(crate) struct Told {
    pub(crate) answer: &'static str,
    pub(crate) taken: Vec<u8>,
    pub(crate) handed: Vec<u8>,
    pub(crate) is_same: bool,
}

fn word_of(answer: Result<(), zdb_report::ReportFault>) -> &'static str {
    match answer {
        Ok(()) => "done",
        Err(zdb_report::ReportFault::Write) => "write",
        Err(zdb_report::ReportFault::Device) => "device",
        Err(zdb_report::ReportFault::Damaged { .. }) => "damaged",
        Err(zdb_report::ReportFault::Memory) => "memory",
    }
}

/// Opens a device and reports it, where these calls of the sink and of the device fail. `closed`, where it does not open.
pub(crate) fn tell(
    alloc: Global,
    row: &Row,
    sink_call: usize,
    device_call: usize,
) -> Result<Told, AllocError> {
    let room = DiskRoom {
        end: row.image.len(),
        written: 0,
        calls: 8192,
    };
    let disk = MemDisk::new(alloc, &row.image, room, &[device_call])?;
    let sink_room = Room {
        bytes: 65_536,
        calls: 8192,
    };
    let mut sink = MemSink::new(alloc, sink_room, &[sink_call])?;
    let (answer, disk) = match open(alloc, disk, row.at) {
        Ok(store) => {
            let mut store = store;
            let answer = report(alloc, &mut sink, &mut store);
            (word_of(answer), store.into_disk())
        }
        Err((disk, _)) => ("closed", disk),
    };
    Ok(Told {
        answer,
        taken: Vec::from_slice(alloc, sink.taken())?,
        handed: Vec::from_slice(alloc, sink.handed())?,
        is_same: disk.bytes() == row.image.as_slice(),
    })
}

fn at_of(text: &str) -> At {
    match text.parse::<u64>() {
        Ok(group) => At::Group(Group(group)),
        Err(_) => At::Newest,
    }
}

fn row_of<R: Files + AllocGlobal>(rt: &R, line: &str) -> io::Result<Option<Row>> {
    let alloc = rt.alloc();
    let words: Vec<&str> = line.split(' ').collect(alloc)?;
    match words.as_slice() {
        ["make", spec, wanted] => Ok(Some(Row {
            image: made(alloc, *spec)?,
            at: At::Newest,
            wanted: fs::read(rt, *wanted)?,
            fails: true,
        })),
        ["image", name, at, wanted] => {
            let text = fs::read_to_string(rt, *name)?;
            Ok(Some(Row {
                image: image_of(alloc, text.as_str())?,
                at: at_of(*at),
                wanted: fs::read(rt, *wanted)?,
                fails: false,
            }))
        }
        _ => Ok(None),
    }
}

/// Whether a row has the report that is wanted, twice, and each failing call its answer, where calls are made to fail.
fn agrees(alloc: Global, row: &Row) -> Result<bool, AllocError> {
    for _ in 0..2u8 {
        let told = tell(alloc, row, NEVER, NEVER)?;
        if told.answer != "done" || told.taken.as_slice() != row.wanted.as_slice() {
            return Ok(false);
        }
        if told.handed.as_slice() != row.wanted.as_slice() || !told.is_same {
            return Ok(false);
        }
    }
    Ok(!row.fails || sink_fails(alloc, row)? && device_fails(alloc, row)?)
}

/// Goes over the lines of `rows.txt`, and prints the rows that differ and how many agree.
pub fn run_rows<R: Files + Print + AllocGlobal>(rt: &R) -> io::Result<()> {
    let text = fs::read_to_string(rt, "rows.txt")?;
    let mut agree = 0u64;
    let mut differ = 0u64;
    for line in text.lines() {
        let same = match row_of(rt, line)? {
            Some(row) => agrees(rt.alloc(), &row)?,
            None => false,
        };
        if same {
            agree = agree.saturating_add(1);
        } else {
            differ = differ.saturating_add(1);
            println!(rt; "differs: {line}")?;
        }
    }
    println!(rt; "rows.txt: {agree} rows agree, {differ} differ")
}
