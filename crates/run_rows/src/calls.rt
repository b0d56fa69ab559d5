//! One call of the program over the forms in memory.

use crate::device::Device;
use crate::forms::{Failing, data_devices, sink, source};
use crate::images::Image;
use std::alloc::{AllocError, Global};
use std::sync::Wait;
use std::thread::Threads;
use zms_dev::{Disk, NoMeet};
use zms_top::{Shipped, Status, zms};

/// What a call answered, printed, traced and said, the pool device as it left it, and how often device and sinks failed.
#[derive(Drop)]
pub struct Left {
    pub status: u8,
    pub printed: Vec<u8>,
    pub traced: Vec<u8>,
    pub told: String,
    pub disk: Device,
    pub disk_faults: u64,
    pub out_faults: u64,
    pub trace_faults: u64,
}

/// What the program says of a status on standard error.
fn told(alloc: Global, status: Status) -> Result<String, AllocError> {
    if status == Status::Done {
        Ok(String::new(alloc))
    } else {
        format!(in alloc; "{status}\n")
    }
}

pub fn call<R: Threads + Wait + Sync>(
    rt: &R,
    alloc: Global,
    words: &[String],
    commands: &[u8],
    device: &Image,
    failing: Failing,
) -> Result<Left, AllocError> {
    let mut input = source(alloc, commands, failing.source)?;
    let mut out = sink(alloc, failing.sink)?;
    let mut trace = sink(alloc, failing.trace)?;
    let meta = Device::new(alloc, device, failing.disk)?;
    let devices = data_devices(alloc)?;
    let shipped = zms(
        rt, alloc, words, &mut input, &mut out, &mut trace, meta, devices, &NoMeet,
    );
    let Shipped {
        status,
        meta,
        devices: _,
        journals: _,
        lists: _,
    } = shipped;
    Ok(Left {
        status: status.exit_code(),
        printed: Vec::from_slice(alloc, out.taken())?,
        traced: Vec::from_slice(alloc, trace.taken())?,
        told: told(alloc, status)?,
        disk_faults: meta.faults(),
        disk: meta,
        out_faults: out.faults(),
        trace_faults: trace.faults(),
    })
}

/// The words of a text.
pub fn words_of(alloc: Global, text: &str) -> Result<Vec<String>, AllocError> {
    let mut words = Vec::new(alloc);
    for word in text.split_whitespace() {
        words.push(String::from_str(alloc, word)?)?;
    }
    Ok(words)
}

/// The words of a run at a group, or at the newest.
fn run_at(alloc: Global, group: &str) -> Result<Vec<String>, AllocError> {
    if group == "newest" {
        return words_of(alloc, "run p");
    }
    let text = format!(in alloc; "run p --group={group}")?;
    words_of(alloc, text.as_str())
}

/// What a run without commands finds on a device at a group: its first and its last line, or why it does not run.
pub fn found<R: Threads + Wait + Sync>(
    rt: &R,
    alloc: Global,
    device: &Image,
    group: &str,
) -> Result<String, AllocError> {
    let words = run_at(alloc, group)?;
    let left = call(rt, alloc, &words, b"", device, Failing::NOTHING)?;
    match String::from_utf8(left.printed) {
        Ok(text) if left.status == 0 => {
            let first = text.as_str().lines().next().unwrap_or("");
            let last = text.as_str().lines().last().unwrap_or("");
            format!(in alloc; "{first}, {last}")
        }
        _ => String::from_str(alloc, left.told.as_str().trim_end()),
    }
}
