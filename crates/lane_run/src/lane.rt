//! One lane: its commands in order, each with its reply.
ghost use Rattle.std.specs.Prelude.{◌≡◌, ℕ, ◌+◌, ◌<◌, ◌≤◌, List, [], length, IfOk};
ghost use Rattle.std.specs.List.{All};
ghost use Rattle.zms_units.specs.Limits.{MAX_COMMANDS};
ghost use Rattle.txg_gate.specs.Closings.{closings_of};
ghost use Rattle.lane_passes.specs.Lanes.{IsSeated};
ghost use Rattle.pool_keeper.specs.Serving.{Serves};
ghost use Rattle.lane_run.specs.Answers.{Replied, paired};
ghost use Rattle.lane_run.specs.Acts.{Anything, LaneDid, IsSpared};
ghost use Rattle.lane_run.specs.Lines.{WhatLine};
ghost use Rattle.lane_run.specs.Names.{AreNamed, AreSmall, Learns};
ghost use Rattle.lane_run.specs.Runs.{IsRun, commands_of, LaneRan};

use crate::allocs::alloc_line;
use crate::frees::{free_line, free_seg_line};
use crate::loads::load_line;
use crate::syncs::sync_line;
use crate::{Answer, Reply};
use class_group::Classes;
use cmd_text::{Command, What};
use lane_passes::LanePasses;
use ms_cell::Cells;
use pool_keeper::LaneKeeper;
use seg_trees::SegTrees;
use std::alloc::{AllocError, Global};
use std::collections::HashMap;
use std::sync::Wait;
use zms_dev::{Disk, Meet};
use zms_units::{Block, MsId};

/// Runs one command. The lane's blocks are known by their names.
fn run_command<'a, D: Disk + Send, R: SegTrees + Send, W: Wait>(
    rt: &W,
    alloc: Global,
    cells: &Cells<R>,
    classes: &Classes,
    keeper: &mut LaneKeeper<'_, D, R>,
    passes: &mut LanePasses<R>,
    blocks: &mut HashMap<&'a str, Block>,
    what: &'a What,
) -> Result<Answer, AllocError>
    requires seated { IsSeated cells.now classes.now passes.old }
    requires serves { Serves keeper.old passes.old.lane cells.now }
    requires few { closings_of passes.old.lane passes.old.cells.gate.seen < MAX_COMMANDS }
    requires low { keeper.old.refusals < MAX_COMMANDS }
    requires what { IsRun what.now }
    requires small { AreSmall blocks.old }
    ensures did { LaneDid cells.now Anything passes.old passes.new keeper.old keeper.new }
    ensures line { (done : List Replied) → AreNamed done blocks.old → IfOk result (λ answer. LaneDid cells.now (WhatLine passes.old.lane done what.now answer) passes.old passes.new keeper.old keeper.new) }
    ensures spared { IfOk result (λ answer. IsSpared 1 passes.old passes.new keeper.old keeper.new) }
    ensures learns { IfOk result (λ answer. Learns what.now answer blocks.old blocks.new) }
{
    match what {
        What::Alloc {
            name,
            size,
            class,
            copies,
        } => alloc_line(
            rt,
            alloc,
            cells,
            classes,
            keeper,
            passes,
            blocks,
            name.as_str(),
            *size,
            *class,
            *copies,
        ),
        What::Free { name } => {
            free_line(rt, cells, classes, keeper, passes, blocks, name.as_str())
        }
        What::FreeSeg { vdev, offset, size } => {
            free_seg_line(rt, cells, classes, keeper, passes, *vdev, *offset, *size)
        }
        What::Sync => sync_line(rt, cells, classes, keeper, passes),
        What::Load { vdev, index } => {
            let id = MsId {
                vdev: *vdev,
                index: *index,
            };
            load_line(rt, cells, classes, keeper, passes, id)
        }
        _ => unreachable!(),
    }
}

/// Runs a lane's own commands among those of all lanes, in their order, each behind a meeting, and answers a reply to each.
/// Want of memory ends the lane.
///
/// Its blocks are known by the names under which they were granted. Costs one look at each command of all lanes, and what its
/// own commands cost.
pub fn run_lane<D: Disk + Send, R: SegTrees + Send, M: Meet, W: Wait>(
    rt: &W,
    alloc: Global,
    cells: &Cells<R>,
    classes: &Classes,
    keeper: &mut LaneKeeper<'_, D, R>,
    passes: &mut LanePasses<R>,
    commands: &[Command],
    meet: &M,
) -> Result<Vec<Reply>, AllocError>
    requires seated { IsSeated cells.now classes.now passes.old }
    requires serves { Serves keeper.old passes.old.lane cells.now }
    requires commands { All (λ c. IsRun c.what) commands.now }
    requires few { closings_of passes.old.lane passes.old.cells.gate.seen + length commands.now ≤ MAX_COMMANDS }
    requires unrefused { keeper.old.refusals ≡ 0 }
    ensures each { IfOk result (λ replies. length replies.items ≡ length (commands_of passes.old.lane commands.now)) }
    ensures theirs { IfOk result (λ replies. All (λ r. r.lane ≡ passes.old.lane) replies.items) }
    ensures ran { IfOk result (λ replies. LaneRan cells.now (paired (commands_of passes.old.lane commands.now) replies.items) passes.old passes.new keeper.old keeper.new) }
    // Whatever is answered.
    ensures did { LaneDid cells.now Anything passes.old passes.new keeper.old keeper.new }
    ensures seated { IsSeated cells.now classes.now passes.new }
    ensures serves { Serves keeper.new passes.new.lane cells.now }
{
    let lane = passes.lane;
    let mut replies = Vec::new(alloc);
    let mut blocks = HashMap::new(alloc);
    for command in commands {
        if command.lane != lane {
            continue;
        }
        meet.here(command.lane);
        let answer = run_command(
            rt,
            alloc,
            cells,
            classes,
            keeper,
            passes,
            &mut blocks,
            &command.what,
        )?;
        replies.push(Reply {
            lane: command.lane,
            answer,
        })?;
    }
    Ok(replies)
}
