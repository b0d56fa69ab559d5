//! What one lane does: it asks the metaslabs for units in order, frees what it was granted, and now and then closes the
//! open group.
ghost use Rattle.std.specs.Prelude.{ℕ, ◌+◌, ◌<◌, ◌≤◌, length, OnOk, OnErr};
ghost use Rattle.zms_units.specs.Limits.{IsLane, MAX_UNITS};
ghost use Rattle.txg_gate.specs.Closings.{closings_of};
ghost use Rattle.ms_cell.specs.Passes.{Seated, AreIdle, AreFresh};

use crate::pool::{Passes, Pool, count_of, id_at, is_within, units_of};
use ms_cell::{CellFault, CloseFault, Look, close_open_at, free_at, grant_at, hold_at, release_at};
use std::sync::Wait;
use std::thread;
use txg_gate::Hold;
use zms_units::{Group, Seg};

/// How many commands a lane runs.
pub const COMMANDS: u32 = 50_000;

/// After how many of its commands a lane closes the open group.
pub const A_CLOSING: u32 = 100;

/// How many segments a lane holds at most.
const PIECES: usize = 16;

/// How often a lane asks at most for a closing that is refused.
const TRIES: u32 = 50_000_000;

/// A segment that a lane was granted in the metaslab of a number.
#[derive(Clone, Copy)]
pub struct Piece {
    pub number: u32,
    pub seg: Seg,
}

/// Holds the open group.
pub fn hold<W: Wait>(rt: &W, cells: &Pool, passes: &mut Passes, lane: u8) -> Hold
    requires seated { Seated lane cells.now passes.old }
    ensures seated { Seated lane cells.now passes.new }
    ensures own { closings_of lane passes.new.gate.seen ≤ closings_of lane passes.old.gate.seen }
{
    hold_at(rt, cells, passes)
}

/// Gives a hold up.
pub fn release<W: Wait>(rt: &W, cells: &Pool, passes: &mut Passes, lane: u8, hold: Hold)
    requires seated { Seated lane cells.now passes.old }
    ensures seated { Seated lane cells.now passes.new }
    ensures own { closings_of lane passes.new.gate.seen ≤ closings_of lane passes.old.gate.seen }
{
    release_at(rt, cells, passes, hold);
}

/// Asks the metaslab of a number.
pub fn ask<W: Wait>(
    rt: &W,
    cells: &Pool,
    passes: &mut Passes,
    lane: u8,
    number: u32,
    group: Group,
    count: u32,
) -> Result<Look, CellFault>
    requires lane { IsLane lane }
    requires number { number < length cells.now.metaslabs }
    requires count { (1 ≤ count) × (count ≤ MAX_UNITS) }
    requires seated { Seated lane cells.now passes.old }
    ensures seated { Seated lane cells.now passes.new }
    ensures own { closings_of lane passes.new.gate.seen ≤ closings_of lane passes.old.gate.seen }
{
    let id = id_at(cells, number);
    grant_at(rt, cells, passes, lane, id, group, count)
}

/// Asks the metaslabs in order, from one on, until one of them grants.
fn ask_in_order<W: Wait>(
    rt: &W,
    cells: &Pool,
    passes: &mut Passes,
    lane: u8,
    start: u32,
    group: Group,
    count: u32,
) -> Option<Piece>
    requires lane { IsLane lane }
    requires count { (1 ≤ count) × (count ≤ MAX_UNITS) }
    requires seated { Seated lane cells.now passes.old }
    ensures seated { Seated lane cells.now passes.new }
    ensures own { closings_of lane passes.new.gate.seen ≤ closings_of lane passes.old.gate.seen }
{
    let metaslabs = count_of(cells);
    for look in 0..metaslabs {
        let number = start.wrapping_add(look) % metaslabs;
        match ask(rt, cells, passes, lane, number, group, count) {
            Ok(Look::Granted(seg)) => return Some(Piece { number, seg }),
            Ok(Look::Miss) => {}
            _ => return None,
        }
    }
    None
}

/// Frees a segment of the metaslab of a number. `None` where it has no such segment.
pub fn give_back<W: Wait>(
    rt: &W,
    cells: &Pool,
    passes: &mut Passes,
    lane: u8,
    hold: &Hold,
    piece: Piece,
) -> Option<Result<(), CellFault>>
    requires lane { IsLane lane }
    requires seated { Seated lane cells.now passes.old }
    ensures seated { Seated lane cells.now passes.new }
    ensures own { closings_of lane passes.new.gate.seen ≤ closings_of lane passes.old.gate.seen }
{
    let Piece { number, seg } = piece;
    if number >= count_of(cells) {
        return None;
    }
    let id = id_at(cells, number);
    if !is_within(units_of(cells, id), seg) {
        return None;
    }
    Some(free_at(rt, cells, passes, lane, id, hold, seg))
}

/// One command, in the group that is open: frees what stands in the slot, or is granted something into it. False where a
/// metaslab doesn't take what it granted, or none has room.
fn command<W: Wait>(
    rt: &W,
    cells: &Pool,
    passes: &mut Passes,
    lane: u8,
    number: u32,
    slot: &mut Option<Piece>,
) -> bool
    requires lane { IsLane lane }
    requires seated { Seated lane cells.now passes.old }
    ensures seated { Seated lane cells.now passes.new }
    ensures own { closings_of lane passes.new.gate.seen ≤ closings_of lane passes.old.gate.seen }
{
    let held = hold(rt, cells, passes, lane);
    let (done, now) = match *slot {
        Some(piece) => {
            let freed = give_back(rt, cells, passes, lane, &held, piece);
            (freed == Some(Ok(())), None)
        }
        None => {
            let start = number.wrapping_add(u32::from(lane) * 2);
            let group = held.group;
            let piece = ask_in_order(rt, cells, passes, lane, start, group, 1 + number % 4);
            (piece.is_some(), piece)
        }
    };
    *slot = now;
    release(rt, cells, passes, lane, held);
    done
}

/// Closes the open group, as soon as it isn't the third that waits.
fn close<W: Wait>(rt: &W, cells: &Pool, passes: &mut Passes, lane: u8) -> bool
    requires lane { IsLane lane }
    requires seated { Seated lane cells.now passes.old }
    requires few { closings_of lane passes.old.gate.seen < 200000 }
    ensures seated { Seated lane cells.now passes.new }
    ensures own { closings_of lane passes.new.gate.seen ≤ closings_of lane passes.old.gate.seen + 1 }
{
    for _ in 0..TRIES {
        match try_close(rt, cells, passes, lane) {
            Ok(_) => return true,
            Err(CloseFault::TooMany(_)) => thread::yield_now(),
            Err(CloseFault::Memory) => return false,
        }
    }
    false
}

/// Closes the open group if it isn't the third that waits.
fn try_close<W: Wait>(
    rt: &W,
    cells: &Pool,
    passes: &mut Passes,
    lane: u8,
) -> Result<Group, CloseFault>
    requires lane { IsLane lane }
    requires seated { Seated lane cells.now passes.old }
    requires few { closings_of lane passes.old.gate.seen < 200000 }
    ensures seated { Seated lane cells.now passes.new }
    ensures ok { OnOk result (closings_of lane passes.new.gate.seen ≤ closings_of lane passes.old.gate.seen + 1) }
    ensures err { OnErr result (closings_of lane passes.new.gate.seen ≤ closings_of lane passes.old.gate.seen) }
{
    close_open_at(rt, cells, passes, lane)
}

/// Runs the commands of a lane, which has closed nothing yet. False where one of them was not done.
pub fn run_lane<W: Wait>(rt: &W, cells: &Pool, mut passes: Passes, lane: u8) -> (Passes, bool)
    requires lane { IsLane lane }
    requires fresh { AreFresh lane cells.now passes }
    ensures { AreIdle cells.now result.0 }
{
    let mut slots: [Option<Piece>; PIECES] = [None; PIECES];
    for number in 0..COMMANDS {
        let slot = &mut slots[number as usize % PIECES];
        if !command(rt, cells, &mut passes, lane, number, slot) {
            return (passes, false);
        }
        if number % A_CLOSING == A_CLOSING - 1 {
            if !close(rt, cells, &mut passes, lane) {
                return (passes, false);
            }
        }
    }
    (passes, true)
}
