//! Settling a group that is committed: at each metaslab, and then at the gate.
ghost use Rattle.std.specs.Prelude.{◌≡◌, ℕ, ◌+◌, ◌<◌, length};
ghost use Rattle.zms_units.specs.Limits.{IsLane};
ghost use Rattle.ms_model.specs.Gates.{synced_group};
ghost use Rattle.ms_cell.specs.Passes.{Seated};
ghost use Rattle.ms_cell.specs.GateAnswers.{IsClosedBefore};
ghost use Rattle.pool_keeper.specs.Answers.{IsDue, AreDue, IsSettledAt, AreSettled, IsSettled};

use crate::places::{count_of, id_at};
use ms_cell::{CellPasses, Cells, settle_at, settled_at};
use seg_trees::SegTrees;
use std::sync::Wait;
use zms_units::Group;

/// Settles a group at the metaslab of a number.
fn settle_one<R: SegTrees, W: Wait>(
    rt: &W,
    cells: &Cells<R>,
    passes: &mut CellPasses<R>,
    lane: u8,
    number: usize,
    group: Group,
)
    requires lane { IsLane lane }
    requires number { number < length cells.now.metaslabs }
    requires seated { Seated 0 cells.now passes.old }
    requires due { IsDue group number passes.old }
    ensures { IsSettledAt lane number group passes.old passes.new }
{
    let id = id_at(cells, number);
    settle_at(rt, cells, passes, lane, id, group);
}

/// Settles a group at each metaslab.
fn settle_each<R: SegTrees, W: Wait>(
    rt: &W,
    cells: &Cells<R>,
    passes: &mut CellPasses<R>,
    lane: u8,
    group: Group,
)
    requires lane { IsLane lane }
    requires seated { Seated 0 cells.now passes.old }
    requires due { AreDue cells.now group passes.old }
    ensures { AreSettled (length cells.now.metaslabs) lane group passes.old passes.new }
{
    for number in 0..count_of(cells) {
        settle_one(rt, cells, passes, lane, number, group);
    }
}

/// Settles a group at each metaslab, and then at the gate. Takes no memory.
pub(crate) fn settle<R: SegTrees, W: Wait>(
    rt: &W,
    cells: &Cells<R>,
    passes: &mut CellPasses<R>,
    lane: u8,
    group: Group,
)
    requires lane { IsLane lane }
    requires seated { Seated 0 cells.now passes.old }
    requires due { AreDue cells.now group passes.old }
    requires next { group.0 ≡ synced_group cells.now.opened passes.old.gate.seen + 1 }
    requires closed { IsClosedBefore cells.now.opened group.0 passes.old.gate.seen }
    ensures { IsSettled cells.now lane group passes.old passes.new }
{
    settle_each(rt, cells, passes, lane, group);
    settled_at(rt, cells, passes, group);
}
