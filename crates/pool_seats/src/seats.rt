//! The lanes of a run take their seats: of each turn the pass that has the lane's right.
ghost use Rattle.std.specs.Prelude.{◌≡◌, ◌+◌, ◌≤◌, [], length, vec_capacity, IfOk, OnOk};
ghost use Rattle.zms_units.specs.Limits.{IsLane};
ghost use Rattle.turn_passes.specs.Parts.{IsRest};
ghost use Rattle.ms_cell.specs.Passes.{AreFresh, StandAlike as CellsStandAlike};
ghost use Rattle.pool_seats.specs.Seats.{AreRights, StandAlike, IsNewLane, AreNewLanes, AreSeated};

use crate::pool::{Pool, PoolKeeper, Rest, Seat};
use class_group::next_classes;
use lane_passes::LanePasses;
use ms_cell::{CellPasses, next_cells};
use range_tree::RangeTrees;
use std::alloc::{AllocError, Global};
use turn_cell::{Pass, Turn};
use turn_passes::next_pass;
use zms_dev::Disk;

/// The keeper's passes of the cells, which have right 0, and the rest without that right. No note of a class needs it.
pub(crate) fn next_zero(
    alloc: Global,
    pool: &Pool,
    rest: &mut Rest,
) -> Result<CellPasses<RangeTrees>, AllocError>
    requires rest { AreRights 0 pool.now rest.old }
    ensures rest { OnOk result (AreRights 1 pool.now rest.new) }
    ensures same { OnOk result (StandAlike rest.new rest.old) }
    ensures fresh { IfOk result (λ passes. AreFresh 0 pool.now.cells passes) }
    ensures alike { IfOk result (λ passes. CellsStandAlike passes rest.old.cells) }
{
    let cells = next_cells(alloc, &pool.cells, &mut rest.cells, 0)?;
    let _none = next_classes(alloc, &pool.classes, &mut rest.classes, 0)?;
    Ok(cells)
}

/// The passes of the next lane, and the rest without them.
fn next_lane(
    alloc: Global,
    pool: &Pool,
    rest: &mut Rest,
    lane: u8,
) -> Result<LanePasses<RangeTrees>, AllocError>
    requires lane { IsLane lane }
    requires rest { AreRights lane pool.now rest.old }
    ensures rest { OnOk result (AreRights (lane + 1) pool.now rest.new) }
    ensures same { OnOk result (StandAlike rest.new rest.old) }
    ensures new { IfOk result (λ passes. IsNewLane lane pool.now rest.old passes) }
{
    let cells = next_cells(alloc, &pool.cells, &mut rest.cells, lane)?;
    let classes = next_classes(alloc, &pool.classes, &mut rest.classes, lane)?;
    Ok(LanePasses {
        lane,
        cells,
        classes,
    })
}

/// The passes of so many lanes from 1 on, and the rest without them.
pub(crate) fn next_lanes(
    alloc: Global,
    pool: &Pool,
    rest: &mut Rest,
    lanes: u8,
) -> Result<Vec<LanePasses<RangeTrees>>, AllocError>
    requires lanes { IsLane lanes }
    requires rest { AreRights 1 pool.now rest.old }
    ensures rest { OnOk result (AreRights (lanes + 1) pool.now rest.new) }
    ensures same { OnOk result (StandAlike rest.new rest.old) }
    ensures count { IfOk result (λ seats. length seats.items ≡ lanes) }
    ensures new { IfOk result (λ seats. AreNewLanes pool.now rest.old seats.items) }
{
    let mut seats = Vec::with_capacity(alloc, usize::from(lanes))?;
    for lane in 1..lanes + 1 {
        seats.push_reserved(next_lane(alloc, pool, rest, lane)?);
    }
    Ok(seats)
}

/// The seat of each lane at the keeper too, and the rest without them, in a list that has room for them.
pub fn take_seats<D: Disk + Send>(
    turn: &Turn<PoolKeeper<D>>,
    rest: &mut Pass<PoolKeeper<D>>,
    lanes: Vec<LanePasses<RangeTrees>>,
    room: Vec<Seat<D>>,
) -> Vec<Seat<D>>
    requires few { length lanes.items ≤ 16 }
    requires rest { IsRest 1 turn.now rest.old }
    requires room { (room.items ≡ []) × (length lanes.items ≤ vec_capacity room) }
    ensures rest { IsRest (length lanes.items + 1) turn.now rest.new }
    ensures fixed { rest.new.fixed ≡ rest.old.fixed }
    ensures count { length result.items ≡ length lanes.items }
    ensures seated { AreSeated turn.now rest.old lanes.items result.items }
{
    let mut seats = room;
    let mut lane = 1;
    for passes in lanes {
        let keeper = next_pass(turn, rest, lane);
        seats.push_reserved(Seat { passes, keeper });
        lane += 1;
    }
    seats
}
