//! Four lanes and the keeper, each in a thread of its own.
ghost use Rattle.std.specs.Prelude.{◌≡◌, ◌+◌, ◌<◌, ◌≤◌};
ghost use Rattle.ms_cell.specs.Passes.{Seated, AreIdle, AreFresh};
ghost use Rattle.cell_rows.specs.Keeper.{HasSettled};

use crate::keeper::run_keeper;
use crate::lanes::run_lane;
use crate::pool::{Passes, Pool};
use ms_cell::join_cells;
use std::alloc::Global;
use std::sync::Wait;
use std::thread;
use std::thread::Threads;

/// Runs the lanes `lane` and `lane + 1` in two threads, and joins their passes.
fn run_two<R: Threads + Wait + Sync>(
    rt: &R,
    cells: &Pool,
    first: Passes,
    second: Passes,
    lane: u8,
) -> (Passes, bool)
    requires lane { (1 ≤ lane) × (lane < 16) }
    requires first { AreFresh lane cells.now first }
    requires second { AreFresh (lane + 1) cells.now second }
    ensures { AreIdle cells.now result.0 }
{
    let next = lane + 1;
    let ((mut first, one), (second, other)) = thread::join(
        rt,
        move ||
            requires lane { (1 ≤ lane) × (lane ≤ 16) }
            requires passes { AreFresh lane cells.now first }
            ensures { AreIdle cells.entry.now result.0 }
        { run_lane(rt, cells, first, lane) },
        move ||
            requires lane { (1 ≤ next) × (next ≤ 16) }
            requires passes { AreFresh next cells.now second }
            ensures { AreIdle cells.entry.now result.0 }
        { run_lane(rt, cells, second, next) },
    );
    join_cells(cells, &mut first, second);
    (first, one && other)
}

/// The passes of four lanes.
#[derive(Drop)]
pub struct Lanes {
    pub one: Passes,
    pub two: Passes,
    pub three: Passes,
    pub four: Passes,
}

/// Runs the lanes 1 to 4 in four threads, and joins their passes.
fn run_four<R: Threads + Wait + Sync>(rt: &R, cells: &Pool, lanes: Lanes) -> (Passes, bool)
    requires one { AreFresh 1 cells.now lanes.one }
    requires two { AreFresh 2 cells.now lanes.two }
    requires three { AreFresh 3 cells.now lanes.three }
    requires four { AreFresh 4 cells.now lanes.four }
    ensures { AreIdle cells.now result.0 }
{
    let Lanes {
        one,
        two,
        three,
        four,
    } = lanes;
    let ((mut first, low), (second, high)) = thread::join(
        rt,
        move ||
            requires one { AreFresh 1 cells.now one }
            requires two { AreFresh 2 cells.now two }
            ensures { AreIdle cells.entry.now result.0 }
        { run_two(rt, cells, one, two, 1) },
        move ||
            requires three { AreFresh 3 cells.now three }
            requires four { AreFresh 4 cells.now four }
            ensures { AreIdle cells.entry.now result.0 }
        { run_two(rt, cells, three, four, 3) },
    );
    join_cells(cells, &mut first, second);
    (first, low && high)
}

/// Runs the lanes beside the keeper, which settles so many groups, and joins all passes.
pub fn run_all<R: Threads + Wait + Sync>(
    rt: &R,
    alloc: Global,
    cells: &Pool,
    keeper: Passes,
    lanes: Lanes,
    groups: u32,
) -> (Passes, bool)
    requires keeper { Seated 0 cells.now keeper }
    requires settled { HasSettled cells.now cells.now.opened 0 keeper }
    requires one { AreFresh 1 cells.now lanes.one }
    requires two { AreFresh 2 cells.now lanes.two }
    requires three { AreFresh 3 cells.now lanes.three }
    requires four { AreFresh 4 cells.now lanes.four }
    ensures { AreIdle cells.now result.0 }
{
    let ((mut first, kept), (second, ran)) = thread::join(
        rt,
        move ||
            requires keeper { Seated 0 cells.now keeper }
            requires settled { HasSettled cells.now cells.now.opened 0 keeper }
            ensures { AreIdle cells.entry.now result.0 }
        { run_keeper(rt, alloc, cells, keeper, groups) },
        move ||
            requires one { AreFresh 1 cells.now lanes.one }
            requires two { AreFresh 2 cells.now lanes.two }
            requires three { AreFresh 3 cells.now lanes.three }
            requires four { AreFresh 4 cells.now lanes.four }
            ensures { AreIdle cells.entry.now result.0 }
        { run_four(rt, cells, lanes) },
    );
    join_cells(cells, &mut first, second);
    (first, kept && ran)
}
