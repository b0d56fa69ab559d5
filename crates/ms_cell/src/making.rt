//! The passes of all cells: split, told and joined.
ghost use Rattle.std.specs.Prelude.{◌≡◌, ℕ, ◌+◌, ◌≤◌, [], IfOk, OnOk, OnErr};
ghost use Rattle.turn_cell.specs.Notes.{IsPrefix};
ghost use Rattle.turn_cell.specs.declared.kept.TheConstants.{MAX_RIGHT};
ghost use Rattle.vdev_map.specs.Numbers.{IsIn, number_of};
ghost use Rattle.ms_cell.specs.Passes.{Seated, AreIdle, AreFresh, AreRests, StandAlike, HaveAll, seen_in};
ghost use Rattle.ms_cell.specs.Journey.{Journey};

use crate::cells::{CellPasses, Cells};
use seg_trees::SegTrees;
use std::alloc::{AllocError, Global};
use turn_cell::MAX_RIGHT;
use turn_passes::{join_pass, join_passes, next_pass, next_passes, tell_pass};
use zms_units::MsId;

/// The passes of the lowest right that the rest has. Where there is no memory for them the rest stays as it is.
pub fn next_cells<R: SegTrees>(
    alloc: Global,
    cells: &Cells<R>,
    rest: &mut CellPasses<R>,
    right: u8,
) -> Result<CellPasses<R>, AllocError>
    requires low { right ≤ MAX_RIGHT }
    requires rest { AreRests right cells.now rest.old }
    ensures rest { OnOk result (AreRests (right + 1) cells.now rest.new) }
    ensures fresh { IfOk result (λ passes. AreFresh right cells.now passes) }
    ensures same { OnOk result (StandAlike rest.new rest.old) }
    ensures alike { IfOk result (λ passes. StandAlike passes rest.old) }
    ensures err { OnErr result (rest.new ≡ rest.old) }
{
    let metaslabs = next_passes(alloc, &cells.metaslabs, &mut rest.metaslabs, right)?;
    let gate = next_pass(&cells.gate, &mut rest.gate, right);
    Ok(CellPasses { gate, metaslabs })
}

/// Spends the second passes: the first have what both had.
pub fn join_cells<R: SegTrees>(cells: &Cells<R>, first: &mut CellPasses<R>, second: CellPasses<R>)
    requires first { AreIdle cells.now first.old }
    requires second { AreIdle cells.now second }
    ensures idle { AreIdle cells.now first.new }
    ensures alike { StandAlike first.new first.old }
    ensures first { HaveAll first.new first.old }
    ensures second { HaveAll first.new second }
{
    let CellPasses { gate, metaslabs } = second;
    join_pass(&cells.gate, &mut first.gate, gate);
    join_passes(&cells.metaslabs, &mut first.metaslabs, metaslabs);
}

/// Lets the second holder know all that the first has seen of the metaslab of an id. It takes no turn, and no right moves.
pub fn tell_at<R: SegTrees>(
    cells: &Cells<R>,
    from: &mut CellPasses<R>,
    to: &mut CellPasses<R>,
    id: MsId,
)
    requires id { IsIn cells.now.vdevs id }
    requires from { (right : ℕ) × Seated right cells.now from.old }
    requires to { (right : ℕ) × Seated right cells.now to.old }
    ensures from { from.new ≡ from.old }
    ensures knows { IsPrefix (seen_in from.old (number_of cells.now.vdevs id)) (seen_in to.new (number_of cells.now.vdevs id)) }
    ensures to { (right : ℕ) → Seated right cells.now to.old → Journey right [] to.old to.new }
{
    let at = cells.place_of(id);
    tell_pass(
        &cells.metaslabs[at],
        &mut from.metaslabs[at],
        &mut to.metaslabs[at],
    );
}

/// The same, of the gate.
pub fn tell_gate<R: SegTrees>(cells: &Cells<R>, from: &mut CellPasses<R>, to: &mut CellPasses<R>)
    requires from { (right : ℕ) × Seated right cells.now from.old }
    requires to { (right : ℕ) × Seated right cells.now to.old }
    ensures from { from.new ≡ from.old }
    ensures knows { IsPrefix from.old.gate.seen to.new.gate.seen }
    ensures to { (right : ℕ) → Seated right cells.now to.old → Journey right [] to.old to.new }
{
    tell_pass(&cells.gate, &mut from.gate, &mut to.gate);
}
