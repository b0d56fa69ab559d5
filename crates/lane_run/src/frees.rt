//! The commands `free` and `freeseg`.
ghost use Rattle.std.specs.Prelude.{◌≡◌, ℕ, ◌<◌, ◌≤◌, [], ◌∷◌, IfOk};
ghost use Rattle.zms_units.specs.Limits.{MAX_COMMANDS};
ghost use Rattle.lane_passes.specs.Lanes.{IsSeated};
ghost use Rattle.pool_keeper.specs.Serving.{Serves};
ghost use Rattle.lane_run.specs.Answers.{free_answer, Tells};
ghost use Rattle.lane_run.specs.Acts.{Anything, LaneDid, IsSpared};
ghost use Rattle.lane_run.specs.Lines.{IsFree, FreeNamed};
ghost use Rattle.lane_run.specs.Names.{block_named, copies_in, AreSmall};

use crate::Answer;
use crate::blocks::find_block;
use class_group::Classes;
use lane_passes::LanePasses;
use ms_cell::Cells;
use pool_alloc::{FreeFault, free_block, free_seg};
use pool_keeper::LaneKeeper;
use seg_trees::SegTrees;
use std::alloc::AllocError;
use std::collections::HashMap;
use std::sync::Wait;
use zms_dev::Disk;
use zms_units::{Block, Group};

/// The answer to a free. Want of memory has none.
fn answer_of(freed: Result<Group, FreeFault>) -> Result<Answer, AllocError>
    ensures { Tells (free_answer freed) result }
{
    match freed {
        Ok(group) => Ok(Answer::Done { group }),
        Err(FreeFault::NoSuch) => Ok(Answer::NoSuch),
        Err(FreeFault::BadSeg) => Ok(Answer::BadSeg),
        Err(FreeFault::NotLive { vdev, offset, .. }) => Ok(Answer::NotLive { vdev, offset }),
        Err(FreeFault::Late { group, collected }) => Ok(Answer::Late { group, collected }),
        Err(FreeFault::Device { before, after }) => Ok(Answer::Device { before, after }),
        Err(FreeFault::Damaged { id, damage }) => Ok(Answer::Damaged { id, damage }),
        Err(FreeFault::Suspended { first }) => Ok(Answer::Suspended { first }),
        Err(FreeFault::Memory { .. }) => Err(AllocError),
    }
}

/// Gives back the block that the lane was granted under this name, after `metaslab_free`.
pub(crate) fn free_line<D: Disk + Send, R: SegTrees + Send, W: Wait>(
    rt: &W,
    cells: &Cells<R>,
    _classes: &Classes,
    keeper: &mut LaneKeeper<'_, D, R>,
    passes: &mut LanePasses<R>,
    blocks: &HashMap<&str, Block>,
    name: &str,
) -> Result<Answer, AllocError>
    requires seated { IsSeated cells.now _classes.now passes.old }
    requires serves { Serves keeper.old passes.old.lane cells.now }
    requires low { keeper.old.refusals < MAX_COMMANDS }
    requires small { AreSmall blocks.now }
    ensures did { LaneDid cells.now Anything passes.old passes.new keeper.old keeper.new }
    ensures line { IfOk result (λ answer. LaneDid cells.now (FreeNamed passes.old.lane (copies_in (block_named blocks.now name.now)) answer) passes.old passes.new keeper.old keeper.new) }
    ensures spared { IfOk result (λ answer. IsSpared 1 passes.old passes.new keeper.old keeper.new) }
{
    let Some(block) = find_block(blocks, name) else {
        return Ok(Answer::NoName);
    };
    answer_of(free_block(rt, cells, keeper, passes, block))
}

/// Gives back so many bytes of a vdev from an offset on.
pub(crate) fn free_seg_line<D: Disk + Send, R: SegTrees + Send, W: Wait>(
    rt: &W,
    cells: &Cells<R>,
    _classes: &Classes,
    keeper: &mut LaneKeeper<'_, D, R>,
    passes: &mut LanePasses<R>,
    vdev: u8,
    offset: u64,
    size: u64,
) -> Result<Answer, AllocError>
    requires seated { IsSeated cells.now _classes.now passes.old }
    requires serves { Serves keeper.old passes.old.lane cells.now }
    requires low { keeper.old.refusals < MAX_COMMANDS }
    ensures did { LaneDid cells.now Anything passes.old passes.new keeper.old keeper.new }
    ensures line { IfOk result (λ answer. LaneDid cells.now (IsFree passes.old.lane ((record { vdev = vdev; offset = offset; size = size }) ∷ []) answer) passes.old passes.new keeper.old keeper.new) }
    ensures spared { IfOk result (λ answer. IsSpared 1 passes.old passes.new keeper.old keeper.new) }
{
    answer_of(free_seg(rt, cells, keeper, passes, vdev, offset, size))
}
