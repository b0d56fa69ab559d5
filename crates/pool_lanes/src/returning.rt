//! What lanes owned comes back, and their replies.
ghost use Rattle.std.specs.Prelude.{◌≡◌, ◌≤◌, [], length, vec_capacity, IfOk};
ghost use Rattle.std.specs.List.{All};
ghost use Rattle.zms_units.specs.Limits.{MAX_COMMANDS};
ghost use Rattle.turn_passes.specs.Parts.{IsIdle};
ghost use Rattle.pool_seats.specs.Joining.{AreIdleRest, AreBackFrom, IsBack, Keeps};
ghost use Rattle.pool_lanes.specs.Lanes.{IsCommandWithin};
ghost use Rattle.pool_lanes.specs.Returning.{EachRan, AreListsOf, AreReplied, AreNumbered};
ghost use Rattle.pool_lanes.specs.Running.{CanRun};

use crate::merging::merge;
use crate::running::{Ran, run_jobs};
use cmd_text::Command;
use lane_run::Reply;
use pool_seats::{Pool, PoolKeeper, Rest, Seat, join_seat};
use std::alloc::{AllocError, Global};
use std::sync::Wait;
use std::thread::Threads;
use turn_cell::{Pass, Turn};
use zms_dev::{Disk, Meet};

/// Joins what each lane owned. Answers the lists of their replies, or want of memory where a lane met it.
fn join_lanes<D: Disk + Send>(
    pool: &Pool,
    turn: &Turn<PoolKeeper<D>>,
    rest: &mut Rest,
    keeper: &mut Pass<PoolKeeper<D>>,
    rans: Vec<Ran<D>>,
    room: Vec<Vec<Reply>>,
) -> Result<Vec<Vec<Reply>>, AllocError>
    requires rest { AreIdleRest pool.now rest.old }
    requires keeper { IsIdle turn.now keeper.old }
    requires back { EachRan (λ r. IsBack pool.now turn.now r.seat) rans.items }
    requires room { (room.items ≡ []) × (length rans.items ≤ vec_capacity room) }
    ensures rest { AreIdleRest pool.now rest.new }
    ensures keeper { IsIdle turn.now keeper.new }
    ensures keeps { Keeps rest.old keeper.old rest.new keeper.new }
    ensures back { EachRan (λ r. AreBackFrom rest.new keeper.new r.seat) rans.items }
    ensures lists { IfOk result (λ lists. AreListsOf rans.items lists.items) }
{
    let mut lists = room;
    let mut failed = None;
    for ran in rans {
        let Ran { seat, replies } = ran;
        join_seat(pool, turn, rest, keeper, seat);
        match replies {
            Ok(list) => lists.push_reserved(list),
            Err(error) => failed = Some(error),
        }
    }
    match failed {
        None => Ok(lists),
        Some(error) => Err(error),
    }
}

/// Runs the lanes of these seats, and joins what they owned: one reply a command, in the order of the file.
pub(crate) fn run_seats<D: Disk + Send, M: Meet + Sync, W: Threads + Wait + Sync>(
    rt: &W,
    alloc: Global,
    pool: &Pool,
    turn: &Turn<PoolKeeper<D>>,
    rest: &mut Rest,
    keeper: &mut Pass<PoolKeeper<D>>,
    seats: Vec<Seat<D>>,
    commands: &[Command],
    meet: &M,
    lists: Vec<Vec<Reply>>,
    room: Vec<Reply>,
) -> Result<Vec<Reply>, AllocError>
    requires rest { AreIdleRest pool.now rest.old }
    requires keeper { IsIdle turn.now keeper.old }
    requires can { All (CanRun pool.now turn.now) seats.items }
    requires numbered { AreNumbered seats.items }
    requires commands { All (IsCommandWithin (length seats.items)) commands.now }
    requires few { length commands.now ≤ MAX_COMMANDS }
    requires lists { (lists.items ≡ []) × (length seats.items ≤ vec_capacity lists) }
    requires room { (room.items ≡ []) × (length commands.now ≤ vec_capacity room) }
    ensures rest { AreIdleRest pool.now rest.new }
    ensures keeper { IsIdle turn.now keeper.new }
    ensures keeps { Keeps rest.old keeper.old rest.new keeper.new }
    ensures replied { IfOk result (λ r. AreReplied pool.now turn.now commands.now seats.items rest.new keeper.new r.items) }
{
    let rans = run_jobs(rt, alloc, pool, turn, commands, meet, seats)?;
    let lists = join_lanes(pool, turn, rest, keeper, rans, lists)?;
    Ok(merge(commands, lists, room))
}
