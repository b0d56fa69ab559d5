//! The command `sync`.
ghost use Rattle.std.specs.Prelude.{◌≡◌, ℕ, ◌<◌, IfOk};
ghost use Rattle.zms_units.specs.Limits.{MAX_COMMANDS};
ghost use Rattle.txg_gate.specs.Closings.{closings_of};
ghost use Rattle.lane_passes.specs.Lanes.{IsSeated};
ghost use Rattle.pool_keeper.specs.Serving.{Serves};
ghost use Rattle.lane_run.specs.Answers.{sync_answer, Tells};
ghost use Rattle.lane_run.specs.Acts.{Anything, LaneDid, IsSpared};
ghost use Rattle.lane_run.specs.Lines.{IsSync};

use crate::Answer;
use class_group::Classes;
use lane_passes::LanePasses;
use ms_cell::Cells;
use pool_keeper::{LaneKeeper, SyncFault, sync};
use seg_trees::SegTrees;
use std::alloc::AllocError;
use std::sync::Wait;
use zms_dev::Disk;
use zms_units::Group;

/// The answer to a sync. Want of memory has none.
fn answer_of(synced: Result<Group, SyncFault>) -> Result<Answer, AllocError>
    ensures { Tells (sync_answer synced) result }
{
    match synced {
        Ok(group) => Ok(Answer::Done { group }),
        Err(SyncFault::Suspended { first }) => Ok(Answer::Suspended { first }),
        Err(SyncFault::Busy { open_group, synced }) => Ok(Answer::Busy { open_group, synced }),
        Err(SyncFault::Device { before, after }) => Ok(Answer::Device { before, after }),
        Err(SyncFault::Damaged { id, damage }) => Ok(Answer::Damaged { id, damage }),
        Err(SyncFault::Memory) => Err(AllocError),
    }
}

/// Makes all groups up to the open one durable, after `txg_wait_synced`.
pub(crate) fn sync_line<D: Disk + Send, R: SegTrees + Send, W: Wait>(
    rt: &W,
    cells: &Cells<R>,
    classes: &Classes,
    keeper: &mut LaneKeeper<'_, D, R>,
    passes: &mut LanePasses<R>,
) -> Result<Answer, AllocError>
    requires seated { IsSeated cells.now classes.now passes.old }
    requires serves { Serves keeper.old passes.old.lane cells.now }
    requires few { closings_of passes.old.lane passes.old.cells.gate.seen < MAX_COMMANDS }
    ensures did { LaneDid cells.now Anything passes.old passes.new keeper.old keeper.new }
    ensures line { IfOk result (λ answer. LaneDid cells.now (IsSync passes.old.lane answer) passes.old passes.new keeper.old keeper.new) }
    ensures spared { IfOk result (λ answer. IsSpared 1 passes.old passes.new keeper.old keeper.new) }
{
    answer_of(sync(rt, cells, classes, keeper, passes))
}
