//! A sync of a lane: the open group is closed, and each closed group committed.
ghost use Rattle.std.specs.Prelude.{◌≡◌, ◌<◌, ◌≤◌, [], IfOk, IfErr, OnOk, OnErr};
ghost use Rattle.zms_units.specs.Limits.{MAX_COMMANDS};
ghost use Rattle.vdev_map.specs.Numbers.{IsIn};
ghost use Rattle.txg_gate.specs.Closings.{closings_of};
ghost use Rattle.ms_cell.specs.Passes.{Seated};
ghost use Rattle.ms_cell.specs.Journey.{Journey};
ghost use Rattle.class_group.specs.Turns.{ClassTurns};
ghost use Rattle.lane_passes.specs.Lanes.{IsSeated, Acted, Journey as LaneJourney};
ghost use Rattle.pool_keeper.specs.Lines.{SyncNoted, HasSettled};
ghost use Rattle.pool_keeper.specs.Serving.{Serves, KeeperTurn};
ghost use Rattle.pool_keeper.specs.Syncs.{ClosedLine, SyncDid};
ghost use Rattle.pool_keeper.specs.SyncParts.{MeetNoted, WeighedAs, AllWeighedAs, OneTurn, TryAnswer, BehindLine, Did};

use crate::faults::SyncFault;
use crate::lane_keeper::LaneKeeper;
use crate::places::{count_of, id_at};
use crate::syncing::wait_for;
use class_group::{Classes, weigh};
use lane_passes::LanePasses;
use ms_cell::{CellPasses, Cells, CloseFault, close_open_at, look_at};
use seg_trees::SegTrees;
use std::alloc::AllocError;
use std::sync::Wait;
use txg_gate::TooMany;
use zms_dev::Disk;
use zms_units::{First, Group, MsId};

impl<'a, D: Disk + Send, R: SegTrees + Send> LaneKeeper<'a, D, R> {
    /// Takes the keeper's turn, in which the keeper learns all that the lane has seen, and the lane what the keeper has seen
    /// of the gate. Once a fault is kept that is the answer, and nothing is told.
    fn meet<W: Wait>(
        &mut self,
        rt: &W,
        cells: &Cells<R>,
        passes: &mut CellPasses<R>,
        lane: u8,
    ) -> Option<First>
        requires seated { Seated lane cells.now passes.old }
        requires serves { Serves self.old lane cells.now }
        ensures turn { KeeperTurn lane (MeetNoted lane result) self.old self.new }
        ensures serves { Serves self.new lane cells.now }
        ensures passes { Journey lane [] passes.old passes.new }
    {
        let mut held = self.turn.take(rt, &mut self.pass);
        let first = held.value_mut().greet(cells, passes, lane);
        self.turn.give(held, &mut self.pass, None);
        first
    }
}

/// Looks at the weight of a metaslab, and posts it where its free space is in memory. The only error is want of memory, and
/// posts nothing.
fn weigh_one<R: SegTrees, W: Wait>(
    rt: &W,
    cells: &Cells<R>,
    classes: &Classes,
    passes: &mut LanePasses<R>,
    id: MsId,
) -> Result<(), AllocError>
    requires id { IsIn cells.now.vdevs id }
    requires seated { IsSeated cells.now classes.now passes.old }
    ensures { Acted cells.now (WeighedAs passes.old.lane id result) passes.old passes.new }
{
    let (_, weight, loaded) = look_at(rt, cells, &mut passes.cells, id);
    if !loaded {
        return Ok(());
    }
    weigh(rt, classes, &mut passes.classes, passes.lane, id, weight)
}

/// The same, of each metaslab by number.
fn weigh_all<R: SegTrees, W: Wait>(
    rt: &W,
    cells: &Cells<R>,
    classes: &Classes,
    passes: &mut LanePasses<R>,
) -> Result<(), AllocError>
    requires seated { IsSeated cells.now classes.now passes.old }
    ensures { Acted cells.now (AllWeighedAs passes.old.lane result) passes.old passes.new }
{
    for number in 0..count_of(cells) {
        let id = id_at(cells, number);
        match weigh_one(rt, cells, classes, passes, id) {
            Ok(()) => {}
            Err(error) => return Err(error),
        }
    }
    Ok(())
}

/// Waits until a group is closed and nobody holds it, with no turn held, and commits each group up to it.
fn take_up<D: Disk + Send, R: SegTrees + Send, W: Wait>(
    rt: &W,
    cells: &Cells<R>,
    keeper: &mut LaneKeeper<'_, D, R>,
    passes: &mut LanePasses<R>,
    group: Group,
) -> Result<Group, SyncFault>
    requires seated { (c : ClassTurns) × IsSeated cells.now c passes.old }
    requires serves { Serves keeper.old passes.old.lane cells.now }
    ensures turn { KeeperTurn passes.old.lane (SyncNoted passes.old.lane result) keeper.old keeper.new }
    ensures serves { Serves keeper.new passes.new.lane cells.now }
    ensures passes { LaneJourney [] passes.old passes.new }
    ensures group { IfOk result (λ done. done ≡ group) }
    ensures settled { OnOk result (HasSettled cells.now group.0 passes.new.cells) }
{
    wait_for(rt, cells, &mut passes.cells, passes.lane, group);
    keeper.turn_to(rt, cells, &mut passes.cells, passes.lane, group)
}

/// Commits a group that the lane has closed, and posts the weight of each metaslab. Where there is no memory for that the
/// group is committed all the same.
fn sync_closed<D: Disk + Send, R: SegTrees + Send, W: Wait>(
    rt: &W,
    cells: &Cells<R>,
    classes: &Classes,
    keeper: &mut LaneKeeper<'_, D, R>,
    passes: &mut LanePasses<R>,
    group: Group,
) -> Result<Group, SyncFault>
    requires seated { IsSeated cells.now classes.now passes.old }
    requires serves { Serves keeper.old passes.old.lane cells.now }
    ensures did { Did cells.now (λ g es. OneTurn (λ t. ClosedLine passes.old.lane group g t result es)) passes.old passes.new keeper.old keeper.new }
    ensures group { IfOk result (λ done. done ≡ group) }
    ensures settled { OnOk result (HasSettled cells.now group.0 passes.new.cells) }
{
    match take_up(rt, cells, keeper, passes, group) {
        Ok(_) => {}
        Err(fault) => return Err(fault),
    }
    match weigh_all(rt, cells, classes, passes) {
        Ok(()) => Ok(group),
        Err(_) => Err(SyncFault::Memory),
    }
}

/// Closes the open group and commits it. An error is that it stands too far ahead of the committed one, and then nothing is
/// closed.
fn try_sync<D: Disk + Send, R: SegTrees + Send, W: Wait>(
    rt: &W,
    cells: &Cells<R>,
    classes: &Classes,
    keeper: &mut LaneKeeper<'_, D, R>,
    passes: &mut LanePasses<R>,
) -> Result<Result<Group, SyncFault>, TooMany>
    requires seated { IsSeated cells.now classes.now passes.old }
    requires serves { Serves keeper.old passes.old.lane cells.now }
    requires few { closings_of passes.old.lane passes.old.cells.gate.seen < MAX_COMMANDS }
    ensures did { Did cells.now (λ g. TryAnswer passes.old.lane g result) passes.old passes.new keeper.old keeper.new }
    ensures settled { IfOk result (λ answer. IfOk answer (λ group. HasSettled cells.now group.0 passes.new.cells)) }
    ensures third { IfErr result (λ many. 3 ≤ many.open_group.0) }
    ensures few { OnErr result (closings_of passes.new.lane passes.new.cells.gate.seen < MAX_COMMANDS) }
{
    match close_open_at(rt, cells, &mut passes.cells, passes.lane) {
        Ok(group) => Ok(sync_closed(rt, cells, classes, keeper, passes, group)),
        Err(CloseFault::Memory) => Ok(Err(SyncFault::Memory)),
        Err(CloseFault::TooMany(many)) => Err(many),
    }
}

/// Commits the groups that earlier syncs left behind, up to the one before the open group, and closes the open group again.
fn sync_behind<D: Disk + Send, R: SegTrees + Send, W: Wait>(
    rt: &W,
    cells: &Cells<R>,
    classes: &Classes,
    keeper: &mut LaneKeeper<'_, D, R>,
    passes: &mut LanePasses<R>,
    many: TooMany,
) -> Result<Group, SyncFault>
    requires seated { IsSeated cells.now classes.now passes.old }
    requires serves { Serves keeper.old passes.old.lane cells.now }
    requires few { closings_of passes.old.lane passes.old.cells.gate.seen < MAX_COMMANDS }
    requires third { 3 ≤ many.open_group.0 }
    ensures did { Did cells.now (λ g. BehindLine passes.old.lane many g result) passes.old passes.new keeper.old keeper.new }
    ensures settled { IfOk result (λ group. HasSettled cells.now group.0 passes.new.cells) }
{
    let last = Group(many.open_group.0 - 1);
    match take_up(rt, cells, keeper, passes, last) {
        Ok(_) => {}
        Err(fault) => return Err(fault),
    }
    match try_sync(rt, cells, classes, keeper, passes) {
        Ok(answer) => answer,
        Err(TooMany { open_group, synced }) => Err(SyncFault::Busy { open_group, synced }),
    }
}

/// Closes the open group and makes it durable, with all groups before it, after `txg_wait_synced`; then the weight of each
/// metaslab whose free space is in memory is posted to its class, after `metaslab_sync_done`. The answer is the closed group:
/// it is settled at each metaslab and at the gate, as the lane knows from then on.
///
/// `Suspended` comes where the keeper has kept a fault or damage, and closes nothing. Where the open group is the third above
/// the committed one, the groups before it are committed first; it is `Busy` if it is so again, and then nothing was closed.
/// `Device` and `Damaged` are what this sync met. After `Memory` a group may be closed, and committed, all the same.
///
/// Waits for the turns of others and for the holds of the groups that it commits.
pub fn sync<D: Disk + Send, R: SegTrees + Send, W: Wait>(
    rt: &W,
    cells: &Cells<R>,
    classes: &Classes,
    keeper: &mut LaneKeeper<'_, D, R>,
    passes: &mut LanePasses<R>,
) -> Result<Group, SyncFault>
    requires seated { IsSeated cells.now classes.now passes.old }
    requires serves { Serves keeper.old passes.old.lane cells.now }
    requires few { closings_of passes.old.lane passes.old.cells.gate.seen < MAX_COMMANDS }
    ensures done { SyncDid cells.now passes.old.lane result passes.old passes.new keeper.old keeper.new }
    ensures serves { Serves keeper.new passes.new.lane cells.now }
    ensures settled { IfOk result (λ group. HasSettled cells.now group.0 passes.new.cells) }
{
    if let Some(first) = keeper.meet(rt, cells, &mut passes.cells, passes.lane) {
        return Err(SyncFault::Suspended { first });
    }
    match try_sync(rt, cells, classes, keeper, passes) {
        Ok(answer) => answer,
        Err(many) => sync_behind(rt, cells, classes, keeper, passes, many),
    }
}
