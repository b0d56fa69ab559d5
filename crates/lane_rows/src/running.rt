//! The rows, one after the other.
use crate::opening::{find_bases, new_pool, small, total};
use crate::rows::{Row, rows};
use crate::scripts::is_script;
use cmd_text::{Command, Script, read_commands};
use lane_run::Reply;
use meta_store::MetaStore;
use ms_core::Counts;
use pool_lanes::{Lanes, run_lanes};
use run_text::write_run;
use std::alloc::{AllocError, Global};
use std::io;
use std::sync::Wait;
use std::thread::Threads;
use vdev_map::{Layout, check};
use zms_dev::{MemDisk, MemSink, NoMeet, Room};
use zms_units::{Group, Items, Seg};

/// What was printed, where there was a reply to each command.
fn printed(
    alloc: Global,
    commands: &[Command],
    replies: &[Reply],
    layout: &Layout,
    totals: &[Counts],
    group: Group,
) -> Result<MemSink, AllocError> {
    let room = Room {
        bytes: 65_536,
        calls: 4096,
    };
    let mut sink = MemSink::new(alloc, room, &[])?;
    if check(layout).is_err() || commands.len() != replies.len() {
        return Err(AllocError);
    }
    let vdevs = layout.vdevs.as_slice();
    if total(vdevs) as usize != totals.len() {
        return Err(AllocError);
    }
    match write_run(&mut sink, commands, replies, vdevs, totals, group) {
        Ok(()) => Ok(sink),
        Err(_) => Err(AllocError),
    }
}

/// Runs a file over a store of this layout, and answers what is printed.
fn play<R: Threads + Wait + Sync>(
    rt: &R,
    alloc: Global,
    layout: &Layout,
    script: &Script,
) -> Result<MemSink, AllocError> {
    let mut store = new_pool(alloc, layout)?;
    let bases = find_bases(alloc, &mut store);
    let group = store.group().0;
    let bases = match bases {
        Ok(bases) if is_script(script) && 4 <= group && group < 100_000 => bases,
        _ => {
            let _ = store.into_disk();
            return Err(AllocError);
        }
    };
    let Lanes {
        replies,
        journals: _,
        totals,
        gate: _,
        group,
        meta: _,
    } = run_lanes(rt, alloc, store, bases, script, &NoMeet);
    let commands = script.commands.as_slice();
    printed(alloc, commands, &replies?, layout, &totals, group)
}

/// Runs one row, and tells whether it is as wanted.
fn run_row<R: Threads + Wait + Sync>(rt: &R, alloc: Global, row: &Row) -> Result<bool, AllocError> {
    let layout = small(alloc)?;
    let Ok(script) = read_commands(alloc, row.commands.as_bytes()) else {
        return Ok(false);
    };
    let sink = play(rt, alloc, &layout, &script)?;
    Ok(sink.taken() == row.wanted.as_bytes())
}

pub fn run_rows<R: Print + AllocGlobal + Threads + Wait + Sync>(rt: &R) -> io::Result<()> {
    let alloc = rt.alloc();
    for row in rows(alloc)? {
        let name = row.name;
        let seen = if run_row(rt, alloc, &row)? {
            "as wanted"
        } else {
            "another text"
        };
        println!(rt; "{name}: {seen}")?;
    }
    Ok(())
}
