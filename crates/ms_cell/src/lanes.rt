//! What a lane does at the metaslab of an id, in one turn.
ghost use Rattle.std.specs.Prelude.{◌≡◌, ℕ, ◌+◌, ◌≤◌};
ghost use Rattle.zms_units.specs.Limits.{IsLane, MAX_UNITS};
ghost use Rattle.vdev_map.specs.Numbers.{IsIn, number_of, row_at};
ghost use Rattle.ms_model.specs.Legal.{IsWithin};
ghost use Rattle.ms_model.specs.Units.{settled_group};
ghost use Rattle.ms_cell.specs.Passes.{Seated, origin_in, seen_in};
ghost use Rattle.ms_cell.specs.Journey.{Turned, Tried};
ghost use Rattle.ms_cell.specs.Answers.{GrantAnswer, FreeAnswer, UnallocAnswer, IsSight};

use crate::answers::{CellFault, Look};
use crate::cells::{CellPasses, Cells};
use crate::turns;
use ms_core::Counts;
use seg_trees::SegTrees;
use std::sync::Wait;
use txg_gate::Hold;
use zms_units::{Group, MsId, Seg};

/// Hands out `count` units in a row, as `Metaslab::grant`, in the group of the lane's hold. A turn that finds the group
/// above the third after the settled one is given back, and taken again.
pub fn grant_at<R: SegTrees, W: Wait>(
    rt: &W,
    cells: &Cells<R>,
    passes: &mut CellPasses<R>,
    lane: u8,
    id: MsId,
    group: Group,
    count: u32,
) -> Result<Look, CellFault>
    requires lane { IsLane lane }
    requires id { IsIn cells.now.vdevs id }
    requires count { (1 ≤ count) × (count ≤ MAX_UNITS) }
    requires seated { Seated lane cells.now passes.old }
    ensures { Turned lane (number_of cells.now.vdevs id) (GrantAnswer lane group count result) passes.old passes.new }
{
    let at = cells.place_of(id);
    let cell = &cells.metaslabs[at];
    turns::grant(rt, cell, &mut passes.metaslabs[at], lane, group, count)
}

/// The same, but waits for nobody: `Busy` comes exactly where the lock word was 1.
pub fn try_grant_at<R: SegTrees>(
    cells: &Cells<R>,
    passes: &mut CellPasses<R>,
    lane: u8,
    id: MsId,
    group: Group,
    count: u32,
) -> Result<Look, CellFault>
    requires lane { IsLane lane }
    requires id { IsIn cells.now.vdevs id }
    requires near { group.0 ≤ settled_group (origin_in passes.old (number_of cells.now.vdevs id)) (seen_in passes.old (number_of cells.now.vdevs id)) + 3 }
    requires count { (1 ≤ count) × (count ≤ MAX_UNITS) }
    requires seated { Seated lane cells.now passes.old }
    ensures { Tried lane (number_of cells.now.vdevs id) result (GrantAnswer lane group count result) passes.old passes.new }
{
    let at = cells.place_of(id);
    let cell = &cells.metaslabs[at];
    turns::try_grant(cell, &mut passes.metaslabs[at], lane, group, count)
}

/// Frees a segment, as `Metaslab::free`, in the group of the hold. Takes the turn as `grant_at` does.
pub fn free_at<R: SegTrees, W: Wait>(
    rt: &W,
    cells: &Cells<R>,
    passes: &mut CellPasses<R>,
    lane: u8,
    id: MsId,
    hold: &Hold,
    seg: Seg,
) -> Result<(), CellFault>
    requires lane { IsLane lane }
    requires id { IsIn cells.now.vdevs id }
    requires segment { IsWithin (row_at cells.now.vdevs id.vdev).units seg }
    requires seated { Seated lane cells.now passes.old }
    ensures { Turned lane (number_of cells.now.vdevs id) (FreeAnswer lane hold.now.group seg result) passes.old passes.new }
{
    let at = cells.place_of(id);
    let cell = &cells.metaslabs[at];
    turns::free(rt, cell, &mut passes.metaslabs[at], lane, hold.group, seg)
}

/// The same, but waits for nobody: `Busy` comes exactly where the lock word was 1.
pub fn try_free_at<R: SegTrees>(
    cells: &Cells<R>,
    passes: &mut CellPasses<R>,
    lane: u8,
    id: MsId,
    hold: &Hold,
    seg: Seg,
) -> Result<(), CellFault>
    requires lane { IsLane lane }
    requires id { IsIn cells.now.vdevs id }
    requires near { hold.now.group.0 ≤ settled_group (origin_in passes.old (number_of cells.now.vdevs id)) (seen_in passes.old (number_of cells.now.vdevs id)) + 3 }
    requires segment { IsWithin (row_at cells.now.vdevs id.vdev).units seg }
    requires seated { Seated lane cells.now passes.old }
    ensures { Tried lane (number_of cells.now.vdevs id) result (FreeAnswer lane hold.now.group seg result) passes.old passes.new }
{
    let at = cells.place_of(id);
    let cell = &cells.metaslabs[at];
    turns::try_free(cell, &mut passes.metaslabs[at], lane, hold.group, seg)
}

/// Takes back what this lane was granted in this group, as `Metaslab::unalloc`. Takes the turn as `grant_at` does.
pub fn unalloc_at<R: SegTrees, W: Wait>(
    rt: &W,
    cells: &Cells<R>,
    passes: &mut CellPasses<R>,
    lane: u8,
    id: MsId,
    group: Group,
    seg: Seg,
) -> Result<(), CellFault>
    requires lane { IsLane lane }
    requires id { IsIn cells.now.vdevs id }
    requires segment { IsWithin (row_at cells.now.vdevs id.vdev).units seg }
    requires seated { Seated lane cells.now passes.old }
    ensures { Turned lane (number_of cells.now.vdevs id) (UnallocAnswer lane group seg result) passes.old passes.new }
{
    let at = cells.place_of(id);
    let cell = &cells.metaslabs[at];
    turns::unalloc(rt, cell, &mut passes.metaslabs[at], lane, group, seg)
}

/// How many units are live, deferred and vacant, the weight, and whether free space is in memory. Notes nothing, so any
/// holder may look.
pub fn look_at<R: SegTrees, W: Wait>(
    rt: &W,
    cells: &Cells<R>,
    passes: &mut CellPasses<R>,
    id: MsId,
) -> (Counts, u64, bool)
    requires id { IsIn cells.now.vdevs id }
    requires seated { (right : ℕ) × Seated right cells.now passes.old }
    ensures { (right : ℕ) → Seated right cells.now passes.old → Turned right (number_of cells.now.vdevs id) (IsSight result.0 result.1 result.2) passes.old passes.new }
{
    let at = cells.place_of(id);
    let cell = &cells.metaslabs[at];
    turns::look(rt, cell, &mut passes.metaslabs[at])
}
