//! A pool is closed once its lanes have ended.
ghost use Rattle.std.specs.Prelude.{◌≡◌, ◌≤◌, [], ℕ, Some, length, vec_capacity};
ghost use Rattle.turn_cell.specs.Known.{Known};
ghost use Rattle.turn_passes.specs.Parts.{IsIdle};
ghost use Rattle.pool_keeper.specs.Keeper.{IsOf};
ghost use Rattle.pool_keeper.specs.declared.keeper.Start.{Start};
ghost use Rattle.range_tree.specs.declared.trees.RangeTrees.{RangeTrees as Trees};
ghost use Rattle.pool_seats.specs.Joining.{AreIdleRest};
ghost use Rattle.pool_seats.specs.Closing.{IsKeeperClosed, IsClosedPool};

use crate::pool::{Pool, PoolKeeper, Rest};
use class_group::close_classes;
use meta_store::MetaStore;
use ms_cell::{close_cells, join_cells};
use ms_core::Metaslab;
use ms_model::{ClassJournal, KeeperNote};
use range_tree::RangeTrees;
use std::sync::Wait;
use turn_cell::{Pass, Turn};
use turn_passes::{close_turn, join_pass};
use txg_gate::Gate;
use zms_dev::Disk;

/// What the turns of a pool held.
pub struct Closed<D: Disk + Send> {
    pub store: MetaStore<D>,
    pub gate: Gate,
    pub metaslabs: Vec<Metaslab<RangeTrees>>,
    pub classes: Vec<ClassJournal>,
    pub keeper: Vec<(u8, KeeperNote)>,
}

/// Ends the keeper's turn. Right 0, which no lane has, is of the pass `zero`.
fn close_keeper<D: Disk + Send, W: Wait>(
    rt: &W,
    turn: Turn<PoolKeeper<D>>,
    mut pass: Pass<PoolKeeper<D>>,
    zero: Pass<PoolKeeper<D>>,
) -> PoolKeeper<D>
    requires pass { IsIdle turn pass }
    requires zero { IsIdle turn zero }
    requires starts { (start : Start D Trees) × (pass.fixed ≡ Some start) }
    ensures { IsKeeperClosed D.state D.faults pass zero result }
{
    join_pass(&turn, &mut pass, zero);
    close_turn(rt, turn, pass)
}

/// Ends every turn, into lists that have room.
pub fn close_pool<D: Disk + Send, W: Wait>(
    rt: &W,
    pool: Pool,
    turn: Turn<PoolKeeper<D>>,
    rest: Rest,
    pass: Pass<PoolKeeper<D>>,
    zero: Pass<PoolKeeper<D>>,
    metaslabs: Vec<Metaslab<RangeTrees>>,
    classes: Vec<ClassJournal>,
) -> Closed<D>
    requires rest { AreIdleRest pool rest }
    requires pass { IsIdle turn pass }
    requires zero { IsIdle turn zero }
    requires starts { (start : Start D Trees) × ((pass.fixed ≡ Some start) × IsOf pool.cells start) }
    requires metaslabs { (metaslabs.items ≡ []) × (length pool.cells.metaslabs ≤ vec_capacity metaslabs) }
    requires classes { (classes.items ≡ []) × (4 ≤ vec_capacity classes) }
    ensures { IsClosedPool D.state D.faults pool rest pass zero result }
{
    let keeper = close_keeper(rt, turn, pass, zero);
    let (store, passes, notes) = keeper.into_parts();
    let Pool {
        cells,
        classes: groups,
    } = pool;
    let Rest {
        cells: mut last,
        classes: rest,
    } = rest;
    join_cells(&cells, &mut last, passes);
    let (gate, metaslabs) = close_cells(rt, cells, last, metaslabs);
    let classes = close_classes(rt, groups, rest, classes);
    Closed {
        store,
        gate,
        metaslabs,
        classes,
        keeper: notes,
    }
}
