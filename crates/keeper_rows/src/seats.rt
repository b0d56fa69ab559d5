//! The rights at a pool's turns, as they are handed out: right 0 to the keeper, the next ones to lanes inside the device, and
//! then one to each lane of the row.
ghost use Rattle.std.specs.Prelude.{◌≡◌, ◌+◌, ◌≤◌, true, IfOk, OnOk};
ghost use Rattle.zms_units.specs.Limits.{IsLane};
ghost use Rattle.turn_passes.specs.Parts.{IsIdle, IsRest};
ghost use Rattle.ms_cell.specs.Passes.{AreRests, AreFresh};
ghost use Rattle.class_group.specs.Passes.{AreFresh as AreClassesFresh};
ghost use Rattle.keeper_rows.specs.Parts.{StandAlike, KnowUnits, AreSeats, IsKeeperRest};

use crate::device::Device;
use crate::lane::Lane;
use crate::opening::is_same;
use crate::pool::{Passes, Pool, Shared};
use crate::probe::Probe;
use class_group::{ClassPasses, next_classes};
use lane_passes::LanePasses;
use meta_store::MetaStore;
use ms_cell::{CellPasses, next_cells};
use pool_keeper::{Keeper, LaneKeeper};
use range_tree::RangeTrees;
use std::alloc::{AllocError, Global};
use turn_cell::{Pass, Turn};
use turn_passes::{new_turn, next_pass, next_passes};

pub type RowKeeper<'c> = Keeper<Device<'c>, RangeTrees>;

/// The rest of the rights at the cells and the classes, from one right on.
#[derive(Drop)]
pub struct Seats {
    pub cells: Passes,
    pub classes: ClassPasses,
}

/// The keeper's passes of the cells, which know the bases that the rest knows.
fn keeper_passes(alloc: Global, cells: &Pool, rest: &mut Passes) -> Result<Passes, AllocError>
    requires rest { AreRests 0 cells.now rest.old }
    ensures rest { OnOk result (AreRests 1 cells.now rest.new) }
    ensures fresh { IfOk result (λ passes. AreFresh 0 cells.now passes) }
    ensures same { IfOk result (λ passes. StandAlike rest.old passes) }
{
    let metaslabs = next_passes(alloc, &cells.metaslabs, &mut rest.metaslabs, 0)?;
    let gate = next_pass(&cells.gate, &mut rest.gate, 0);
    Ok(CellPasses { gate, metaslabs })
}

/// The keeper's passes, and the rest without them.
pub fn seat_keeper(
    alloc: Global,
    shared: &Shared,
    mut seats: Seats,
) -> Result<(Seats, Passes), AllocError>
    requires { AreSeats 0 shared.now.cells shared.now.classes seats }
    ensures rest { IfOk result (λ r. AreSeats 1 shared.now.cells shared.now.classes r.0) }
    ensures fresh { IfOk result (λ r. AreFresh 0 shared.now.cells r.1) }
    ensures same { IfOk result (λ r. StandAlike seats.cells r.1) }
{
    let passes = keeper_passes(alloc, &shared.cells, &mut seats.cells)?;
    let _none = next_classes(alloc, &shared.classes, &mut seats.classes, 0)?;
    Ok((seats, passes))
}

/// The passes of the next lane, and the rest without them.
fn seat_lane(
    alloc: Global,
    shared: &Shared,
    mut seats: Seats,
    lane: u8,
) -> Result<(Seats, LanePasses<RangeTrees>), AllocError>
    requires lane { IsLane lane }
    requires seats { AreSeats lane shared.now.cells shared.now.classes seats }
    ensures rest { IfOk result (λ r. AreSeats (lane + 1) shared.now.cells shared.now.classes r.0) }
    ensures lane { IfOk result (λ r. r.1.lane ≡ lane) }
    ensures cells { IfOk result (λ r. AreFresh lane shared.now.cells r.1.cells) }
    ensures classes { IfOk result (λ r. AreClassesFresh lane shared.now.classes r.1.classes) }
{
    let cells = next_cells(alloc, &shared.cells, &mut seats.cells, lane)?;
    let classes = next_classes(alloc, &shared.classes, &mut seats.classes, lane)?;
    Ok((
        seats,
        LanePasses {
            lane,
            cells,
            classes,
        },
    ))
}

/// So many lanes for the device, from lane 1 on, and the rest without them.
pub fn seat_probes<'c>(
    alloc: Global,
    shared: &'c Shared,
    seats: Seats,
    count: u8,
) -> Result<(Seats, Vec<Probe<'c>>), AllocError>
    requires count { count ≤ 15 }
    requires seats { AreSeats 1 shared.now.cells shared.now.classes seats }
    ensures { IfOk result (λ r. AreSeats (count + 1) shared.now.cells shared.now.classes r.0) }
{
    let mut seats = seats;
    let mut probes = Vec::new(alloc);
    for number in 0..count {
        let lane = number + 1;
        let (rest, passes) = seat_lane(alloc, shared, seats, lane)?;
        seats = rest;
        probes.push(Probe::new(&shared.cells, passes.cells, lane))?;
    }
    Ok((seats, probes))
}

/// Leaves out the rights before one.
fn skip<'c>(turn: &Turn<RowKeeper<'c>>, rest: &mut Pass<RowKeeper<'c>>, first: u8)
    requires first { first ≤ 16 }
    requires rest { IsRest 0 turn.now rest.old }
    ensures rest { IsRest first turn.now rest.new }
    ensures fixed { rest.new.fixed ≡ rest.old.fixed }
{
    for right in 0..first {
        let _none = next_pass(turn, rest, right);
    }
}

/// A keeper of a store under its turn, and the rest of its rights from a lane's on.
pub fn keep<'c>(
    alloc: Global,
    shared: &'c Shared,
    store: MetaStore<Device<'c>>,
    held: &[u64],
    passes: Passes,
    first: u8,
) -> Result<(Turn<RowKeeper<'c>>, Pass<RowKeeper<'c>>), AllocError>
    requires first { IsLane first }
    requires fresh { AreFresh 0 shared.now.cells passes }
    requires units { KnowUnits shared.now.cells held.now passes }
    ensures { IfOk result (λ r. IsKeeperRest first shared.now.cells r.0 r.1) }
{
    if !is_same(&store, &shared.cells, held) {
        let _ = store.into_disk();
        return Err(AllocError);
    }
    match new_turn(alloc, Keeper::new(alloc, store, passes)) {
        Ok((turn, mut rest)) => {
            skip(&turn, &mut rest, first);
            Ok((turn, rest))
        }
        Err(keeper) => {
            let (store, _, _) = keeper.into_parts();
            let _ = store.into_disk();
            Err(AllocError)
        }
    }
}

/// The next lane of the row, and the rest without it.
fn next_lane<'a, 'c>(
    alloc: Global,
    shared: &'c Shared,
    turn: &'a Turn<RowKeeper<'c>>,
    rest: &mut Pass<RowKeeper<'c>>,
    seats: Seats,
    lane: u8,
) -> Result<(Seats, Lane<'a, 'c>), AllocError>
    requires lane { IsLane lane }
    requires seats { AreSeats lane shared.now.cells shared.now.classes seats }
    requires keeper { IsKeeperRest lane shared.now.cells turn.now rest.old }
    ensures rest { IfOk result (λ r. AreSeats (lane + 1) shared.now.cells shared.now.classes r.0) }
    ensures keeper { OnOk result (IsKeeperRest (lane + 1) shared.now.cells turn.now rest.new) }
    ensures idle { IsIdle turn.now rest.new }
{
    let (seats, passes) = seat_lane(alloc, shared, seats, lane)?;
    let pass = next_pass(turn, rest, lane);
    let keeper = LaneKeeper::new(alloc, turn, pass, lane);
    let lane = Lane::new(&shared.cells, &shared.classes, keeper, passes);
    Ok((seats, lane))
}

/// So many lanes of the row, from a first one on, and the rest without them.
pub fn seat_lanes<'a, 'c>(
    alloc: Global,
    shared: &'c Shared,
    turn: &'a Turn<RowKeeper<'c>>,
    rest: &mut Pass<RowKeeper<'c>>,
    seats: Seats,
    first: u8,
    count: u8,
) -> Result<(Seats, Vec<Lane<'a, 'c>>), AllocError>
    requires first { (1 ≤ first) × (first + count ≤ 17) }
    requires seats { AreSeats first shared.now.cells shared.now.classes seats }
    requires keeper { IsKeeperRest first shared.now.cells turn.now rest.old }
    ensures rest { IfOk result (λ r. AreSeats (first + count) shared.now.cells shared.now.classes r.0) }
    ensures idle { IsIdle turn.now rest.new }
{
    let mut seats = seats;
    let mut lanes = Vec::new(alloc);
    for number in 0..count {
        let (others, lane) = next_lane(alloc, shared, turn, rest, seats, first + number)?;
        seats = others;
        lanes.push(lane)?;
    }
    Ok((seats, lanes))
}
