//! Four lanes and a keeper at the cells of one pool, each in a thread of its own, and the calls at the cells one by one.
//! What is printed is the same whatever the schedule.
#![tactic(auto)]

mod forms;
mod keeper;
mod lanes;
mod looking;
mod pool;
mod running;

use forms::{call_forms, runs_differ};
use keeper::load_all;
use lanes::{A_CLOSING, COMMANDS};
use looking::{Counts, is_legal, journals_of};
use ms_cell::{close_cells, join_cells, next_cells};
use ms_core::Metaslab;
use pool::{count_of, make_pool};
use range_tree::RangeTrees;
use running::{Lanes, run_all};
use std::alloc::{AllocError, Global};
use std::io;
use std::sync::Wait;
use std::thread::Threads;
use txg_gate::Gate;

/// How many groups the lanes close.
const GROUPS: u32 = 4 * COMMANDS / A_CLOSING;

/// At how many notes at least the lane has changed.
const CHANGES: u64 = 100;

/// Prints whether something was seen.
fn print_seen(rt: &impl Print, what: &str, seen: bool) -> io::Result<()> {
    println!(rt; "{what}: {}", if seen { "seen" } else { "not seen" })
}

/// What the lanes and the keeper left: the closed cells, and whether all was done.
#[derive(Drop)]
struct Ended {
    gate: Gate,
    metaslabs: Vec<Metaslab<RangeTrees>>,
    done: bool,
}

/// Makes a pool, runs the lanes and the keeper, and closes its cells.
fn run_pool<R: Threads + Wait + Sync>(rt: &R, alloc: Global) -> Result<Ended, AllocError> {
    let (cells, mut rest) = make_pool(alloc)?;
    let room = Vec::with_capacity(alloc, count_of(&cells) as usize)?;
    let mut keeper = next_cells(alloc, &cells, &mut rest, 0)?;
    let one = next_cells(alloc, &cells, &mut rest, 1)?;
    let two = next_cells(alloc, &cells, &mut rest, 2)?;
    let three = next_cells(alloc, &cells, &mut rest, 3)?;
    let four = next_cells(alloc, &cells, &mut rest, 4)?;
    let lanes = Lanes {
        one,
        two,
        three,
        four,
    };
    let loaded = load_all(rt, &cells, &mut keeper);
    let (passes, ran) = run_all(rt, alloc, &cells, keeper, lanes, GROUPS);
    join_cells(&cells, &mut rest, passes);
    let (gate, metaslabs) = close_cells(rt, cells, rest, room);
    Ok(Ended {
        gate,
        metaslabs,
        done: loaded && ran,
    })
}

/// Prints what the closed journals have.
fn print_journals<R: Print + AllocGlobal>(rt: &R, ended: Ended) -> io::Result<()> {
    let Ended {
        gate,
        metaslabs,
        done,
    } = ended;
    let alloc = rt.alloc();
    print_seen(rt, "each command was done", done)?;
    let mut counts = Counts::new();
    counts.add_gate(gate.into_notes().as_slice());
    let journals = journals_of(alloc, metaslabs)?;
    for journal in journals.as_slice() {
        print_seen(rt, "a legal journal", is_legal(alloc, journal)?)?;
        counts.add_metaslab(journal.notes.as_slice());
    }
    print_counts(rt, counts)
}

fn print_counts(rt: &impl Print, counts: Counts) -> io::Result<()> {
    let Counts {
        grants,
        frees,
        loads,
        collects,
        settles,
        others,
        closings,
        settlings,
        ..
    } = counts;
    println!(rt; "{grants} grants, {frees} frees, {loads} loads, {others} others")?;
    println!(rt; "{collects} collects, {settles} settles")?;
    println!(rt; "{closings} groups closed, {settlings} settled")?;
    print_seen(rt, "a metaslab was full", counts.misses > 0)?;
    print_seen(rt, "lanes alternate", counts.changes >= CHANGES)
}

/// Prints what was seen of the calls one by one.
fn print_forms<R: Print + AllocGlobal + Wait>(rt: &R) -> io::Result<()> {
    let alloc = rt.alloc();
    let seen = call_forms(rt, alloc)?;
    print_seen(rt, "wrong runs load nothing", seen.wrong_runs)?;
    print_seen(rt, "runs differ at the lowest unit", runs_differ(alloc)?)?;
    print_seen(rt, "a held metaslab is busy, and another grants", seen.busy)?;
    print_seen(rt, "the last unit is freed once", seen.last_unit)?;
    print_seen(rt, "a collected group is late", seen.late)
}

fn main(rt: HostRuntime) -> io::Result<()> {
    print_forms(&rt)?;
    let alloc = rt.alloc();
    let ended = run_pool(&rt, alloc)?;
    print_journals(&rt, ended)
}
