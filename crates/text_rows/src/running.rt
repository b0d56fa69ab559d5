//! The rows, one after the other.

ghost use Rattle.std.specs.Prelude.{◌≡◌, ◌≤◌, length};
ghost use Rattle.vdev_map.specs.Numbers.{metaslabs_in};

use crate::replies::{ReplyRow, reply_rows};
use crate::short_sink::ShortSink;
use crate::totals::{TotalsRow, five_vdevs, greatest_counts, two_vdevs};
use cmd_text::{Command, read_commands};
use lane_run::Reply;
use run_text::write_run;
use std::alloc::{AllocError, Global};
use std::io;
use vdev_map::{Layout, check};
use zms_dev::{Failed, MemSink, Room, Sink};
use zms_units::{Group, Items, VdevRow};

/// A run that is over, and the text that is wanted of it.
#[derive(Drop)]
struct Run {
    commands: Items<Command>,
    replies: Vec<Reply>,
    totals: TotalsRow,
    wanted: String,
}

/// How many metaslabs there are in all.
fn metaslab_count(vdevs: &[VdevRow]) -> usize
    requires { length vdevs.now ≤ 16 }
    ensures { result ≡ metaslabs_in vdevs.now }
{
    let mut metaslabs = 0;
    for row in vdevs {
        metaslabs += usize::from(row.metaslabs);
    }
    metaslabs
}

/// The run of these rows, where their command file is read: an empty line and a comment stand before each command.
fn run_of(
    alloc: Global,
    rows: Vec<ReplyRow>,
    totals: TotalsRow,
) -> Result<Option<Run>, AllocError> {
    let mut text = String::new(alloc);
    let mut wanted = String::new(alloc);
    let mut replies = Vec::new(alloc);
    for row in rows {
        text.push_str("\n# A command.\n")?;
        text.push_str(row.command)?;
        text.push_str("\n")?;
        wanted.push_str(row.wanted)?;
        wanted.push_str("\n")?;
        replies.push(Reply {
            lane: 1,
            answer: row.answer,
        })?;
    }
    wanted.push_str(totals.wanted)?;
    match read_commands(alloc, text.as_bytes()) {
        Err(_) => Ok(None),
        Ok(script) => Ok(Some(Run {
            commands: script.commands,
            replies,
            totals,
            wanted,
        })),
    }
}

/// Writes the text of a run, where there is a reply to each command, and counts for each metaslab.
fn write<S: Sink>(
    alloc: Global,
    out: &mut S,
    run: &Run,
) -> Result<Option<Result<(), Failed>>, AllocError> {
    let counts = run.totals.counts.as_slice();
    let layout = Layout {
        flush: 8,
        log: 65_536,
        vdevs: Items::from_vec(Vec::from_slice(alloc, &run.totals.vdevs)?),
    };
    let commands = run.commands.as_slice();
    if check(&layout).is_err() || commands.len() != run.replies.len() {
        return Ok(None);
    }
    let vdevs = layout.vdevs.as_slice();
    if metaslab_count(vdevs) != counts.len() {
        return Ok(None);
    }
    Ok(Some(write_run(
        out,
        commands,
        &run.replies,
        vdevs,
        counts,
        Group(run.totals.group),
    )))
}

/// Whether a sink that takes all takes the text that is wanted.
fn is_whole(alloc: Global, run: &Run) -> Result<bool, AllocError> {
    let room = Room {
        bytes: 65_536,
        calls: 4096,
    };
    let mut sink = MemSink::new(alloc, room, &[])?;
    let answer = write(alloc, &mut sink, run)?;
    Ok(answer == Some(Ok(())) && sink.taken() == run.wanted.as_bytes() && sink.faults() == 0)
}

/// Whether a sink that has room for so many bytes takes just these, and its one failure is told.
fn is_front(alloc: Global, run: &Run, room: usize) -> Result<bool, AllocError> {
    let mut sink = ShortSink::new(alloc, room)?;
    let answer = write(alloc, &mut sink, run)?;
    let wanted = run.wanted.as_bytes();
    if room >= wanted.len() {
        return Ok(answer == Some(Ok(())) && sink.taken() == wanted && sink.faults() == 0);
    }
    Ok(answer == Some(Err(Failed)) && sink.taken() == &wanted[..room] && sink.faults() == 1)
}

/// How many of the fronts of a text, and the whole, are taken as is wanted.
fn fronts(alloc: Global, run: &Run) -> Result<u64, AllocError> {
    let mut taken = 0u64;
    for room in 0..run.wanted.len() + 1 {
        if is_front(alloc, run, room)? {
            taken = taken.saturating_add(1);
        }
    }
    Ok(taken)
}

/// Writes one run, and prints what was seen of it.
fn run_row<R: Print + AllocGlobal>(
    rt: &R,
    rows: Vec<ReplyRow>,
    totals: TotalsRow,
) -> io::Result<()> {
    let alloc = rt.alloc();
    let commands = rows.len();
    let metaslabs = totals.counts.len();
    let Some(run) = run_of(alloc, rows, totals)? else {
        return println!(rt; "no command file");
    };
    let whole = if is_whole(alloc, &run)? {
        "as wanted"
    } else {
        "another text"
    };
    let count = fronts(alloc, &run)?;
    let all = run.wanted.len().saturating_add(1);
    println!(rt;
        "{commands} commands, {metaslabs} metaslabs: {whole}; {count} of {all} fronts as wanted"
    )
}

pub fn run_rows<R: Print + AllocGlobal>(rt: &R) -> io::Result<()> {
    let alloc = rt.alloc();
    run_row(rt, reply_rows(alloc)?, five_vdevs(alloc)?)?;
    run_row(rt, Vec::new(alloc), two_vdevs(alloc)?)?;
    run_row(rt, Vec::new(alloc), greatest_counts(alloc)?)
}
