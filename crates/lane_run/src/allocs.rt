//! The command `alloc`.
ghost use Rattle.std.specs.Prelude.{◌≡◌, ℕ, ◌<◌, IfOk, Err};
ghost use Rattle.zms_units.specs.Limits.{MAX_COMMANDS};
ghost use Rattle.lane_passes.specs.Lanes.{IsSeated};
ghost use Rattle.pool_keeper.specs.Serving.{Serves};
ghost use Rattle.cmd_text.specs.declared.script.What.TheVariants.{Alloc as AllocOf};
ghost use Rattle.lane_run.specs.Answers.{alloc_answer, Tells};
ghost use Rattle.lane_run.specs.Acts.{Anything, LaneDid, IsSpared};
ghost use Rattle.lane_run.specs.Lines.{IsAlloc};
ghost use Rattle.lane_run.specs.Names.{Learns};

use crate::Answer;
use crate::blocks::{add_block, copied};
use class_group::Classes;
use lane_passes::LanePasses;
use ms_cell::Cells;
use pool_alloc::{AllocFault, alloc};
use pool_keeper::LaneKeeper;
use seg_trees::SegTrees;
use std::alloc::{AllocError, Global};
use std::collections::HashMap;
use std::sync::Wait;
use zms_dev::Disk;
use zms_units::{Block, Class};

/// The answer to an alloc that was refused. Want of memory has none.
fn refusal(fault: AllocFault) -> Result<Answer, AllocError>
    ensures { Tells (alloc_answer (Err fault)) result }
{
    match fault {
        AllocFault::BadSize => Ok(Answer::BadSize),
        AllocFault::BadCopies => Ok(Answer::BadCopies),
        AllocFault::NoSpace { looked } => Ok(Answer::NoSpace { looked }),
        AllocFault::Late { group, collected } => Ok(Answer::Late { group, collected }),
        AllocFault::Device { before, after } => Ok(Answer::Device { before, after }),
        AllocFault::Damaged { id, damage } => Ok(Answer::Damaged { id, damage }),
        AllocFault::Suspended { first } => Ok(Answer::Suspended { first }),
        AllocFault::Memory { .. } => Err(AllocError),
    }
}

/// Grants a block, after `metaslab_alloc`, which is known by its name from then on.
pub(crate) fn alloc_line<'a, D: Disk + Send, R: SegTrees + Send, W: Wait>(
    rt: &W,
    alloc_from: Global,
    cells: &Cells<R>,
    classes: &Classes,
    keeper: &mut LaneKeeper<'_, D, R>,
    passes: &mut LanePasses<R>,
    blocks: &mut HashMap<&'a str, Block>,
    name: &'a str,
    size: u64,
    class: Class,
    copies: u8,
) -> Result<Answer, AllocError>
    requires seated { IsSeated cells.now classes.now passes.old }
    requires serves { Serves keeper.old passes.old.lane cells.now }
    requires low { keeper.old.refusals < MAX_COMMANDS }
    ensures did { LaneDid cells.now Anything passes.old passes.new keeper.old keeper.new }
    ensures line { IfOk result (λ answer. LaneDid cells.now (IsAlloc passes.old.lane size class copies answer) passes.old passes.new keeper.old keeper.new) }
    ensures spared { IfOk result (λ answer. IsSpared 1 passes.old passes.new keeper.old keeper.new) }
    ensures learns { IfOk result (λ answer. Learns (AllocOf name.now size class copies) answer blocks.old blocks.new) }
{
    match alloc(
        rt, alloc_from, cells, classes, keeper, passes, size, class, copies,
    ) {
        Ok(block) => {
            let group = block.group;
            let copies = copied(alloc_from, &block.copies);
            add_block(blocks, name, block)?;
            Ok(Answer::Granted { group, copies })
        }
        Err(fault) => refusal(fault),
    }
}
