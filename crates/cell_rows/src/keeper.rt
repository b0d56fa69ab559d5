//! What the keeper does: it loads the metaslabs, and settles each closed group, one metaslab after the other and then the
//! gate.
ghost use Rattle.std.specs.Prelude.{◌≡◌, ℕ, ◌+◌, ◌^◌, ◌<◌, ◌≤◌, true, length};
ghost use Rattle.turn_cell.specs.Notes.{IsPrefix};
ghost use Rattle.ms_cell.specs.Passes.{Seated, AreIdle};
ghost use Rattle.ms_cell.specs.GateAnswers.{IsClosedBefore};
ghost use Rattle.cell_rows.specs.Keeper.{HasSettled};

use crate::pool::{Passes, Pool, count_of, id_at, units_of};
use ms_cell::{collect_at, load_at, quiesced_at, settle_at, settled_at};
use ms_core::RunBuf;
use row_tables::are_segs;
use std::alloc::{AllocError, Global};
use std::sync::Wait;
use std::thread;
use zms_units::{Group, Seg};

/// How often the keeper looks at most whether the next group is quiesced.
const LOOKS: u32 = 50_000_000;

/// The most runs that one group changes in one metaslab.
const RUNS: u64 = 2048;

/// The lane that the keeper works for.
const LANE: u8 = 1;

/// Loads the metaslab of a number from runs, which have to lie within its units.
pub fn load<W: Wait>(
    rt: &W,
    cells: &Pool,
    passes: &mut Passes,
    number: u32,
    held: &[Seg],
) -> Result<Option<u32>, AllocError>
    requires number { number < length cells.now.metaslabs }
    requires seated { Seated 0 cells.now passes.old }
    requires settled { HasSettled cells.now cells.now.opened 0 passes.old }
    ensures seated { Seated 0 cells.now passes.new }
    ensures settled { HasSettled cells.now cells.now.opened 0 passes.new }
{
    let id = id_at(cells, number);
    if !are_segs(units_of(cells, id), held) {
        return Err(AllocError);
    }
    load_at(rt, cells, passes, LANE, id, held)
}

/// Loads each metaslab, of which none holds anything yet.
pub fn load_all<W: Wait>(rt: &W, cells: &Pool, passes: &mut Passes) -> bool
    requires seated { Seated 0 cells.now passes.old }
    requires settled { HasSettled cells.now cells.now.opened 0 passes.old }
    ensures seated { Seated 0 cells.now passes.new }
    ensures settled { HasSettled cells.now cells.now.opened 0 passes.new }
{
    for number in 0..count_of(cells) {
        if !matches!(load(rt, cells, passes, number, &[]), Ok(None)) {
            return false;
        }
    }
    true
}

/// Waits until the group is closed and nobody works in it or an earlier one.
fn wait_for<W: Wait>(rt: &W, cells: &Pool, passes: &mut Passes, settled: u64) -> bool
    requires small { settled < 2 ^ 60 }
    requires seated { Seated 0 cells.now passes.old }
    requires settled { HasSettled cells.now settled 0 passes.old }
    ensures seated { Seated 0 cells.now passes.new }
    ensures settled { HasSettled cells.now settled 0 passes.new }
    ensures closed { result ≡ true → IsClosedBefore cells.now.opened (settled + 1) passes.new.gate.seen }
{
    for _ in 0..LOOKS {
        if is_quiesced(rt, cells, passes, settled) {
            return true;
        }
        thread::yield_now();
    }
    false
}

/// Whether the group after the settled one is closed and nobody works in it or an earlier one.
fn is_quiesced<W: Wait>(rt: &W, cells: &Pool, passes: &mut Passes, settled: u64) -> bool
    requires small { settled < 2 ^ 60 }
    requires seated { Seated 0 cells.now passes.old }
    requires settled { HasSettled cells.now settled 0 passes.old }
    ensures seated { Seated 0 cells.now passes.new }
    ensures settled { HasSettled cells.now settled 0 passes.new }
    ensures closed { result ≡ true → IsClosedBefore cells.now.opened (settled + 1) passes.new.gate.seen }
{
    quiesced_at(rt, cells, passes, Group(settled + 1))
}

/// Gathers what the next group changed in the metaslab of a number, and settles it there.
fn settle_one<W: Wait>(
    rt: &W,
    alloc: Global,
    cells: &Pool,
    passes: &mut Passes,
    settled: u64,
    number: u32,
) -> bool
    requires small { settled < 2 ^ 60 }
    requires number { number < length cells.now.metaslabs }
    requires seated { Seated 0 cells.now passes.old }
    requires settled { HasSettled cells.now settled number passes.old }
    ensures seated { Seated 0 cells.now passes.new }
    ensures settled { result ≡ true → HasSettled cells.now settled (number + 1) passes.new }
    ensures later { IsPrefix passes.old.gate.seen passes.new.gate.seen }
{
    let id = id_at(cells, number);
    let group = Group(settled + 1);
    let mut runs = RunBuf::new(alloc);
    if runs.reserve(RUNS).is_err() {
        return false;
    }
    match collect_at(rt, cells, passes, LANE, id, group, &mut runs) {
        Ok(()) => {
            settle_at(rt, cells, passes, LANE, id, group);
            true
        }
        Err(_) => false,
    }
}

/// Gathers and settles the next group in each metaslab.
fn settle_each<W: Wait>(
    rt: &W,
    alloc: Global,
    cells: &Pool,
    passes: &mut Passes,
    settled: u64,
) -> bool
    requires small { settled < 2 ^ 60 }
    requires seated { Seated 0 cells.now passes.old }
    requires settled { HasSettled cells.now settled 0 passes.old }
    ensures seated { Seated 0 cells.now passes.new }
    ensures settled { result ≡ true → HasSettled cells.now settled (length cells.now.metaslabs) passes.new }
    ensures later { IsPrefix passes.old.gate.seen passes.new.gate.seen }
{
    for number in 0..count_of(cells) {
        if !settle_one(rt, alloc, cells, passes, settled, number) {
            return false;
        }
    }
    true
}

/// Settles the next group at the gate.
fn settle_gate<W: Wait>(rt: &W, cells: &Pool, passes: &mut Passes, settled: u64)
    requires small { settled < 2 ^ 60 }
    requires seated { Seated 0 cells.now passes.old }
    requires settled { HasSettled cells.now settled (length cells.now.metaslabs) passes.old }
    requires closed { IsClosedBefore cells.now.opened (settled + 1) passes.old.gate.seen }
    ensures seated { Seated 0 cells.now passes.new }
    ensures settled { HasSettled cells.now (settled + 1) 0 passes.new }
{
    settled_at(rt, cells, passes, Group(settled + 1));
}

/// Settles the next group once it is quiesced.
fn settle_next<W: Wait>(
    rt: &W,
    alloc: Global,
    cells: &Pool,
    passes: &mut Passes,
    settled: u64,
) -> bool
    requires small { settled < 2 ^ 60 }
    requires seated { Seated 0 cells.now passes.old }
    requires settled { HasSettled cells.now settled 0 passes.old }
    ensures seated { Seated 0 cells.now passes.new }
    ensures settled { result ≡ true → HasSettled cells.now (settled + 1) 0 passes.new }
{
    if !wait_for(rt, cells, passes, settled) {
        return false;
    }
    if !settle_each(rt, alloc, cells, passes, settled) {
        return false;
    }
    settle_gate(rt, cells, passes, settled);
    true
}

/// Settles so many groups, each once it is quiesced. False where one of them was not settled.
pub fn run_keeper<W: Wait>(
    rt: &W,
    alloc: Global,
    cells: &Pool,
    mut passes: Passes,
    groups: u32,
) -> (Passes, bool)
    requires seated { Seated 0 cells.now passes }
    requires settled { HasSettled cells.now cells.now.opened 0 passes }
    ensures { AreIdle cells.now result.0 }
{
    let opened = cells.opened.0;
    if opened > 1_000_000 {
        return (passes, false);
    }
    for group in 0..groups {
        let settled = opened + u64::from(group);
        if !settle_next(rt, alloc, cells, &mut passes, settled) {
            return (passes, false);
        }
    }
    (passes, true)
}
