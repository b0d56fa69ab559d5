//! The lanes of a pool run, each in a thread of its own where one can be made, and else one after the other.
ghost use Rattle.std.specs.Prelude.{◌≡◌, ℕ, ◌+◌, ◌≤◌, Some, length, slice_get, IfOk, vec_len};
ghost use Rattle.std.specs.List.{All};
ghost use Rattle.zms_units.specs.Limits.{MAX_COMMANDS};
ghost use Rattle.lane_run.specs.Runs.{IsRun};
ghost use Rattle.pool_lanes.specs.Running.{CanRun, RanFrom, AreRan};

use cmd_text::Command;
use lane_run::{Reply, run_lane};
use pool_keeper::LaneKeeper;
use pool_seats::{Pool, PoolKeeper, Seat};
use std::alloc::{AllocError, Global};
use std::sync::Wait;
use std::thread::{Threads, map_vec};
use turn_cell::Turn;
use zms_dev::{Disk, Meet};

/// What is left of a lane: its seat, and its replies unless there was no memory for them.
#[derive(Drop)]
pub(crate) struct Ran<D: Disk + Send> {
    pub(crate) seat: Seat<D>,
    pub(crate) replies: Result<Vec<Reply>, AllocError>,
}

/// Runs one lane.
fn work<D: Disk + Send, M: Meet, W: Wait>(
    rt: &W,
    alloc: Global,
    pool: &Pool,
    turn: &Turn<PoolKeeper<D>>,
    commands: &[Command],
    meet: &M,
    seat: Seat<D>,
) -> Ran<D>
    requires commands { All (λ c. IsRun c.what) commands.now }
    requires few { length commands.now ≤ MAX_COMMANDS }
    requires can { CanRun pool.now turn.now seat }
    ensures { RanFrom pool.now turn.now commands.now seat result }
{
    let Seat { mut passes, keeper } = seat;
    let mut keeper = LaneKeeper::new(alloc, turn, keeper, passes.lane);
    let replies = run_lane(
        rt,
        alloc,
        &pool.cells,
        &pool.classes,
        &mut keeper,
        &mut passes,
        commands,
        meet,
    );
    let seat = Seat {
        passes,
        keeper: keeper.into_pass(),
    };
    Ran { seat, replies }
}

/// Runs all lanes. Want of memory for the threads drops what the lanes owned.
pub(crate) fn run_jobs<D: Disk + Send, M: Meet + Sync, W: Threads + Wait + Sync>(
    rt: &W,
    alloc: Global,
    pool: &Pool,
    turn: &Turn<PoolKeeper<D>>,
    commands: &[Command],
    meet: &M,
    seats: Vec<Seat<D>>,
) -> Result<Vec<Ran<D>>, AllocError>
    requires commands { All (λ c. IsRun c.what) commands.now }
    requires few { length commands.now ≤ MAX_COMMANDS }
    requires can { All (CanRun pool.now turn.now) seats.items }
    ensures count { IfOk result (λ rans. length rans.items ≡ length seats.items) }
    ensures each { IfOk result (λ rans. AreRan pool.now turn.now commands.now seats.items rans.items) }
{
    map_vec(
        rt,
        seats,
        &|seat: Seat<D>| -> Ran<D>
            requires { All (λ c. IsRun c.what) commands.now × (length commands.now ≤ MAX_COMMANDS) × CanRun pool.now turn.now seat }
            ensures { RanFrom pool.entry.now turn.entry.now commands.entry.now seat result }
        { work(rt, alloc, pool, turn, commands, meet, seat) },
    )
}
