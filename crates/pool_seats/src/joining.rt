//! What lanes owned comes back.
ghost use Rattle.turn_passes.specs.Parts.{IsIdle};
ghost use Rattle.pool_seats.specs.Joining.{AreIdleRest, AreBackFrom, IsBack, Keeps};

use crate::pool::{Pool, PoolKeeper, Rest, Seat};
use class_group::join_classes;
use lane_passes::LanePasses;
use ms_cell::join_cells;
use turn_cell::{Pass, Turn};
use turn_passes::join_pass;
use zms_dev::Disk;

/// Joins what a lane owned to the rest: whatever the lane's passes had, the rest has from then on.
pub fn join_seat<D: Disk + Send>(
    pool: &Pool,
    turn: &Turn<PoolKeeper<D>>,
    rest: &mut Rest,
    keeper: &mut Pass<PoolKeeper<D>>,
    seat: Seat<D>,
)
    requires rest { AreIdleRest pool.now rest.old }
    requires keeper { IsIdle turn.now keeper.old }
    requires back { IsBack pool.now turn.now seat }
    ensures rest { AreIdleRest pool.now rest.new }
    ensures keeper { IsIdle turn.now keeper.new }
    ensures keeps { Keeps rest.old keeper.old rest.new keeper.new }
    ensures back { AreBackFrom rest.new keeper.new seat }
{
    let Seat {
        passes,
        keeper: pass,
    } = seat;
    let LanePasses {
        lane: _,
        cells,
        classes,
    } = passes;
    join_cells(&pool.cells, &mut rest.cells, cells);
    join_classes(&pool.classes, &mut rest.classes, classes);
    join_pass(turn, keeper, pass);
}
