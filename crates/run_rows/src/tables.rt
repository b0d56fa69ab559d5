//! The words of the command line, and what a device is found to be; and the data device in memory.

use crate::calls::words_of;
use crate::device::{Device, DiskFailing};
use crate::images::Image;
use row_tables::{Calls, Words};
use std::alloc::{AllocError, Global};
use zms_dev::{
    Data, Disk, DiskRoom, Failed, MemData, MemDisk, MemSink, MemSource, ReadError, Room, put,
    read_part, read_text, write_whole,
};
use zms_top::{Asked, pool_name, read_words, zms_still};
use zms_units::VdevRow;

/// Rows that keep nothing from one to the next.
#[derive(Drop)]
pub struct TextCalls;

impl Calls for TextCalls {
    fn answer(&mut self, alloc: Global, words: &mut Words<'_>) -> Result<String, AllocError> {
        match words.word() {
            "words" => asked(alloc, words.rest()),
            "still" => still(alloc, words.rest()),
            _ => String::from_str(alloc, "no call"),
        }
    }
}

/// The vdevs of a pool, each by its class, shift, units and metaslabs.
fn vdevs_text(alloc: Global, vdevs: &[VdevRow]) -> Result<String, AllocError> {
    let mut text = String::new(alloc);
    for row in vdevs {
        let front = if text.is_empty() { "" } else { ", " };
        let VdevRow {
            class,
            ashift,
            units,
            metaslabs,
        } = *row;
        let one = format!(in alloc; "{front}{class:?} {ashift} {units} {metaslabs}")?;
        text.push_str(one.as_str())?;
    }
    Ok(text)
}

/// What words ask for, and the pool that they name.
fn asked(alloc: Global, text: &str) -> Result<String, AllocError> {
    let words = words_of(alloc, text)?;
    match (read_words(&words), pool_name(&words)) {
        (Some(Asked::Create { vdevs }), Some(pool)) => {
            let vdevs = vdevs_text(alloc, vdevs.as_slice())?;
            format!(in alloc; "create {pool} of {vdevs}")
        }
        (Some(Asked::Run { at }), Some(pool)) => format!(in alloc; "run {pool} at {at:?}"),
        (Some(Asked::Report { at }), Some(pool)) => format!(in alloc; "report {pool} at {at:?}"),
        (None, None) => String::from_str(alloc, "nothing"),
        _ => String::from_str(alloc, "words and pool differ"),
    }
}

/// How the calls that run no lanes end, over an empty device.
fn still(alloc: Global, text: &str) -> Result<String, AllocError> {
    let words = words_of(alloc, text)?;
    let room = Room {
        bytes: 64,
        calls: 8,
    };
    let mut out = MemSink::new(alloc, room, &[])?;
    let meta = Device::new(alloc, &Image::new(alloc), DiskFailing::Nothing)?;
    let (status, _meta) = zms_still(alloc, &words, &mut out, meta);
    format!(in alloc; "{status}")
}

/// An empty device.
fn disk(alloc: Global, failing: &[usize]) -> Result<MemDisk, AllocError> {
    let room = DiskRoom {
        end: 64,
        written: 64,
        calls: 8,
    };
    MemDisk::new(alloc, &[], room, failing)
}

/// The calls of the outside, each once over its form in memory.
#[derive(Drop)]
pub struct FormCalls;

fn bytes_text(alloc: Global, bytes: &[u8]) -> Result<String, AllocError> {
    format!(in alloc; "{bytes:?}")
}

fn part(alloc: Global, failing: &[usize]) -> Result<String, AllocError> {
    let mut disk = disk(alloc, failing)?;
    let put = put(&mut disk, 1, &[7, 8, 9]);
    let mut part = [5; 4];
    let read = read_part(&mut disk, 2, &mut part);
    match (put, read, disk.size()) {
        (Ok(()), Ok(()), Ok(size)) => format!(in alloc; "{part:?} of {size}"),
        _ => format!(in alloc; "{Failed}"),
    }
}

fn data(alloc: Global) -> Result<String, AllocError> {
    let room = Room { bytes: 8, calls: 8 };
    let mut data = MemData::new(alloc, room, &[])?;
    let wrote = data.write(1, &[1, 2, 3]);
    let discarded = data.discard(2, 9);
    match (wrote, discarded) {
        (Ok(()), Ok(())) => bytes_text(alloc, data.bytes()),
        _ => format!(in alloc; "{Failed}"),
    }
}

fn text(alloc: Global, failing: &[usize]) -> Result<String, AllocError> {
    let mut source = MemSource::new(alloc, b"blocks", 4, failing)?;
    let mut text = Vec::new(alloc);
    match read_text(alloc, &mut source, &mut text, 3) {
        Ok(()) => bytes_text(alloc, &text),
        Err(error) => match error {
            ReadError::Memory => Err(AllocError),
            ReadError::Failed => format!(in alloc; "{error}"),
        },
    }
}

fn whole(alloc: Global) -> Result<String, AllocError> {
    let room = Room { bytes: 8, calls: 8 };
    let mut sink = MemSink::new(alloc, room, &[])?;
    match write_whole(&mut sink, b"blocks") {
        Ok(()) => bytes_text(alloc, sink.taken()),
        Err(error) => format!(in alloc; "{error}"),
    }
}

impl Calls for FormCalls {
    fn answer(&mut self, alloc: Global, words: &mut Words<'_>) -> Result<String, AllocError> {
        match words.rest() {
            "put and read" => part(alloc, &[]),
            "put and read failing" => part(alloc, &[0]),
            "write and discard" => data(alloc),
            "read text" => text(alloc, &[]),
            "read text failing" => text(alloc, &[0]),
            "write text" => whole(alloc),
            _ => String::from_str(alloc, "no call"),
        }
    }
}
