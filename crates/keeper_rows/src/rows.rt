//! Rows of runs over one device: pools that are made and opened, and what each run left.
ghost use Rattle.std.specs.Prelude.{◌+◌, ◌≤◌, IfSome};

use crate::checks::{are_legal, groups_text};
use crate::device::{Device, Panel};
use crate::opening::create_pool;
use crate::script::{MOST_LINES, Report, Script, counted};
use crate::session::{Crowd, Ended, run};
use crate::texts::{gate_text, text, trace_of};
use meta_store::At;
use row_tables::Words;
use std::alloc::{AllocError, Global};
use std::rt::Files;
use std::sync::Wait;
use std::thread::Threads;
use std::{fs, io, mem};
use zms_units::{Class, Group, VdevRow};

/// The most vdevs of a pool.
const MOST_VDEVS: u32 = 16;

fn class_of(word: &str) -> Option<Class> {
    match word {
        "normal" => Some(Class::Normal),
        "log" => Some(Class::Log),
        "special" => Some(Class::Special),
        "dedup" => Some(Class::Dedup),
        _ => None,
    }
}

/// `CLASS ASHIFT UNITS METASLABS`
fn vdev_of(words: &mut Words<'_>) -> Option<VdevRow> {
    let class = class_of(words.word())?;
    let ashift = words.byte()?;
    let units = words.small()?;
    let metaslabs = words.word().parse::<u16>().ok()?;
    Some(VdevRow {
        class,
        ashift,
        units,
        metaslabs,
    })
}

/// Makes a pool of vdevs: the bytes of its device.
fn create(
    alloc: Global,
    panel: &Panel,
    words: &mut Words<'_>,
) -> Result<Option<Vec<u8>>, AllocError> {
    let mut vdevs = Vec::new(alloc);
    for _ in 0..MOST_VDEVS {
        if !words.is_empty() {
            let Some(vdev) = vdev_of(words) else {
                return Ok(None);
            };
            vdevs.push(vdev)?;
        }
    }
    let device = Device::new(Vec::new(alloc), panel, Vec::new(alloc));
    Ok(Some(create_pool(alloc, device, vdevs)?.into_bytes()))
}

/// Makes a pool of so many metaslabs of 256 units: the bytes of its device.
pub fn create_one(alloc: Global, panel: &Panel, metaslabs: u16) -> Result<Vec<u8>, AllocError> {
    let mut vdevs = Vec::new(alloc);
    vdevs.push(VdevRow {
        class: Class::Normal,
        ashift: 12,
        units: 256,
        metaslabs,
    })?;
    let device = Device::new(Vec::new(alloc), panel, Vec::new(alloc));
    Ok(create_pool(alloc, device, vdevs)?.into_bytes())
}

/// What a run left, if there was one, or the bytes of a new pool.
#[derive(Drop)]
struct Row {
    bytes: Vec<u8>,
    ended: Option<Ended>,
}

impl Row {
    /// The bytes of the device, which the row has no longer.
    fn take_bytes(&mut self, alloc: Global) -> Vec<u8> {
        match &mut self.ended {
            Some(ended) => mem::replace(&mut ended.bytes, Vec::new(alloc)),
            None => mem::replace(&mut self.bytes, Vec::new(alloc)),
        }
    }
}

/// `AT LANES PROBES`
fn crowd_of(words: &mut Words<'_>) -> Option<(At, Crowd)>
    ensures { IfSome result (λ r. (r.1.probes ≤ 15) × (r.1.probes + r.1.lanes ≤ 16)) }
{
    let at = match words.word() {
        "newest" => At::Newest,
        word => At::Group(Group(word.parse::<u64>().ok()?)),
    };
    let lanes = words.byte()?;
    let probes = words.byte()?;
    if lanes > 16 || probes > 15 || probes + lanes > 16 {
        return None;
    }
    Some((at, Crowd { probes, lanes }))
}

/// Opens the pool, and lets its lanes run.
fn open<W: Threads + Wait + Sync>(
    rt: &W,
    alloc: Global,
    script: &mut Script<'_, '_>,
    row: &mut Row,
    words: &mut Words<'_>,
) -> Result<String, AllocError> {
    let Some((at, crowd)) = crowd_of(words) else {
        return text(alloc, "no crowd");
    };
    let bytes = row.take_bytes(alloc);
    let panel = script.panel;
    row.ended = Some(run(rt, alloc, panel, bytes, at, crowd, script)?);
    text(alloc, "opened")
}

/// The lines of a trace, up to `end`, are those that come next.
fn compare_trace(
    alloc: Global,
    script: &mut Script<'_, '_>,
    ended: &Ended,
) -> Result<(), AllocError> {
    let trace = trace_of(alloc, &ended.journals)?;
    for line in trace.as_str().lines() {
        let wanted = script.line().unwrap_or("nothing");
        script.report.compare("trace", wanted, line)?;
    }
    Ok(())
}

/// The answer to what is asked of a run that ended.
fn left_text(
    alloc: Global,
    panel: &Panel,
    ended: &mut Ended,
    words: &mut Words<'_>,
) -> Result<String, AllocError> {
    match words.word() {
        "count" => counted(alloc, panel, words),
        "gate" => gate_text(alloc, &ended.gate),
        "groups" => groups_text(alloc, ended, words.number().unwrap_or(0)),
        "legal" => {
            let legal = are_legal(alloc, ended)?;
            text(alloc, if legal { "all" } else { "not all" })
        }
        _ => text(alloc, "no row"),
    }
}

/// Plays one line, and those of the run that it begins.
fn play<W: Threads + Wait + Sync>(
    rt: &W,
    alloc: Global,
    script: &mut Script<'_, '_>,
    row: &mut Row,
    line: &str,
) -> Result<(), AllocError> {
    let (asked, wanted) = line.split_once(" -> ").unwrap_or((line, ""));
    let mut words = Words::new(asked);
    let panel = script.panel;
    if let Some(name) = asked.strip_prefix("create ") {
        row.ended = None;
        row.bytes = create(alloc, panel, &mut Words::new(name))?.unwrap_or(Vec::new(alloc));
        return Ok(());
    }
    if let Some(rest) = asked.strip_prefix("open ") {
        let found = open(rt, alloc, script, row, &mut Words::new(rest))?;
        return script.report.compare(asked, wanted, found.as_str());
    }
    let Some(ended) = &mut row.ended else {
        return script.report.compare(asked, wanted, "no run");
    };
    if asked == "trace" {
        return compare_trace(alloc, script, ended);
    }
    let found = left_text(alloc, panel, ended, &mut words)?;
    script.report.compare(asked, wanted, found.as_str())
}

/// Plays each row of a table.
pub fn play_rows<R: Files + Print + AllocGlobal + Threads + Wait + Sync>(
    rt: &R,
    name: &str,
) -> io::Result<()> {
    let alloc = rt.alloc();
    let table = fs::read_to_string(rt, name)?;
    let panel = Panel::new();
    let mut script = Script {
        lines: table.as_str().lines(),
        panel: &panel,
        report: Report::new(alloc),
    };
    let mut row = Row {
        bytes: Vec::new(alloc),
        ended: None,
    };
    for _ in 0..MOST_LINES {
        let Some(line) = script.line() else {
            break;
        };
        play(rt, alloc, &mut script, &mut row, line)?;
    }
    let Report {
        agree,
        differ,
        told,
    } = script.report;
    print!(rt; "{told}")?;
    println!(rt; "{name}: {agree} rows agree, {differ} differ")
}
