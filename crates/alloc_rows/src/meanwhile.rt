//! What others do while the lane allocates: another lane frees, or the keeper collects the group that is open.
ghost use Rattle.std.specs.Prelude.{◌≡◌, ℕ, ◌<◌, true, length};
ghost use Rattle.zms_units.specs.Limits.{IsLane};
ghost use Rattle.vdev_map.specs.Numbers.{IsIn, row_at};
ghost use Rattle.ms_model.specs.Legal.{IsWithin};
ghost use Rattle.ms_cell.specs.Turns.{Turns};
ghost use Rattle.ms_cell.specs.Passes.{Seated};
ghost use Rattle.alloc_rows.specs.Serving.{AreUncollected};

use ms_cell::{CellPasses, Cells, collect_at, free_at, hold_at, release_at};
use ms_core::RunBuf;
use range_tree::RangeTrees;
use std::alloc::Global;
use std::sync::Wait;
use zms_units::{Group, MsId, Seg};

/// The other lane.
pub const OTHER: u8 = 2;

/// One act of another.
#[derive(Clone, Copy)]
pub enum Meanwhile {
    /// The other lane frees a metaslab's segment.
    Free { id: MsId, seg: Seg },
    /// The group behind the opened one is collected at a metaslab, which happens once.
    Collect { id: MsId },
}

/// Whether there is such a metaslab.
pub fn has(cells: &Cells<RangeTrees>, id: MsId) -> bool
    ensures { result ≡ true → IsIn cells.now.vdevs id }
{
    let rows = cells.layout.vdevs.as_slice();
    (id.vdev as usize) < rows.len() && id.index < rows[id.vdev as usize].metaslabs
}

/// Whether a segment lies in a metaslab.
fn is_within(cells: &Cells<RangeTrees>, id: MsId, seg: Seg) -> bool
    requires { IsIn cells.now.vdevs id }
    ensures { result ≡ true → IsWithin (row_at cells.now.vdevs id.vdev).units seg }
{
    let units = cells.layout.vdevs.as_slice()[id.vdev as usize].units;
    seg.count > 0 && seg.count <= units && seg.start <= units - seg.count
}

/// Frees a segment with the other lane's passes, if it lies in the metaslab.
pub fn free_other<W: Wait>(
    rt: &W,
    cells: &Cells<RangeTrees>,
    other: &mut CellPasses<RangeTrees>,
    id: MsId,
    seg: Seg,
)
    requires id { IsIn cells.now.vdevs id }
    requires seated { Seated 2 cells.now other.old }
    ensures { (t : Turns) → Seated 2 t other.old → Seated 2 t other.new }
{
    if !is_within(cells, id, seg) {
        return;
    }
    let hold = hold_at(rt, cells, other);
    let _ = free_at(rt, cells, other, OTHER, id, &hold, seg);
    release_at(rt, cells, other, hold);
}

/// Collects the first group at a metaslab of which nothing was collected.
pub fn collect_first<W: Wait>(
    rt: &W,
    memory: Global,
    cells: &Cells<RangeTrees>,
    keeper: &mut CellPasses<RangeTrees>,
    lane: u8,
    id: MsId,
)
    requires lane { IsLane lane }
    requires id { IsIn cells.now.vdevs id }
    requires seated { Seated 0 cells.now keeper.old }
    requires uncollected { AreUncollected cells.now keeper.old }
    ensures { (t : Turns) → Seated 0 t keeper.old → Seated 0 t keeper.new }
{
    // It is one of the cells.
    let _ = cells.place_of(id);
    let opened = cells.opened.0;
    let mut runs = RunBuf::new(memory);
    if opened > 1_000_000 || runs.reserve(16).is_err() {
        return;
    }
    let _ = collect_at(rt, cells, keeper, lane, id, Group(opened + 1), &mut runs);
}
