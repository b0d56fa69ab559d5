//! The command `load`.
ghost use Rattle.std.specs.Prelude.{◌≡◌, ℕ, ◌↔◌, ◌<◌, IsTrue, IfOk};
ghost use Rattle.zms_units.specs.Limits.{MAX_COMMANDS};
ghost use Rattle.vdev_map.specs.Numbers.{IsIn};
ghost use Rattle.lane_passes.specs.Lanes.{IsSeated};
ghost use Rattle.pool_keeper.specs.Serving.{Serves};
ghost use Rattle.lane_run.specs.Answers.{load_answer, Tells};
ghost use Rattle.lane_run.specs.Acts.{Anything, LaneDid, IsSpared};
ghost use Rattle.lane_run.specs.Lines.{IsLoad};

use crate::Answer;
use class_group::Classes;
use lane_passes::LanePasses;
use ms_cell::{Cells, LoadFault, Loader};
use pool_keeper::LaneKeeper;
use seg_trees::SegTrees;
use std::alloc::AllocError;
use std::sync::Wait;
use zms_dev::Disk;
use zms_units::MsId;

/// Whether there is such a metaslab.
fn is_in<R: SegTrees>(cells: &Cells<R>, id: MsId) -> bool
    ensures { IsTrue result ↔ IsIn cells.now.vdevs id }
{
    match cells.layout.vdevs.as_slice().get(id.vdev as usize) {
        Some(row) => id.index < row.metaslabs,
        None => false,
    }
}

/// The answer to a load. Want of memory has none.
fn answer_of(loaded: Result<(), LoadFault>) -> Result<Answer, AllocError>
    ensures { Tells (load_answer loaded) result }
{
    match loaded {
        Ok(()) => Ok(Answer::Loaded),
        Err(LoadFault::Suspended { first }) => Ok(Answer::Suspended { first }),
        Err(LoadFault::Device { before, after }) => Ok(Answer::Device { before, after }),
        Err(LoadFault::Damaged { id, damage }) => Ok(Answer::Damaged { id, damage }),
        Err(LoadFault::Memory) => Err(AllocError),
    }
}

/// Brings a metaslab's free space into memory, after `metaslab_load`.
pub(crate) fn load_line<D: Disk + Send, R: SegTrees + Send, W: Wait>(
    rt: &W,
    cells: &Cells<R>,
    _classes: &Classes,
    keeper: &mut LaneKeeper<'_, D, R>,
    passes: &mut LanePasses<R>,
    id: MsId,
) -> Result<Answer, AllocError>
    requires seated { IsSeated cells.now _classes.now passes.old }
    requires serves { Serves keeper.old passes.old.lane cells.now }
    requires low { keeper.old.refusals < MAX_COMMANDS }
    ensures did { LaneDid cells.now Anything passes.old passes.new keeper.old keeper.new }
    ensures line { IfOk result (λ answer. LaneDid cells.now (λ g es ks. IsLoad passes.old.lane id g answer es ks) passes.old passes.new keeper.old keeper.new) }
    ensures spared { IfOk result (λ answer. IsSpared 1 passes.old passes.new keeper.old keeper.new) }
{
    if !is_in(cells, id) {
        return Ok(Answer::NoSuch);
    }
    answer_of(keeper.load(rt, cells, &mut passes.cells, passes.lane, id))
}
