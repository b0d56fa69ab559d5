//! What the keeper does at the metaslab of an id, in one turn. The notes carry the lane that asked for it.
ghost use Rattle.std.specs.Prelude.{◌≡◌, ◌+◌, ◌≤◌, []};
ghost use Rattle.zms_units.specs.Limits.{IsLane};
ghost use Rattle.zms_units.specs.Segments.{AreSegs};
ghost use Rattle.vdev_map.specs.Numbers.{IsIn, number_of, row_at};
ghost use Rattle.ms_model.specs.Units.{settled_group, collected_group};
ghost use Rattle.ms_core.specs.Buffers.{run_room};
ghost use Rattle.ms_cell.specs.Passes.{Seated, origin_in, seen_in};
ghost use Rattle.ms_cell.specs.Journey.{Turned};
ghost use Rattle.ms_cell.specs.Answers.{CollectAnswer, SettleAnswer, LoadAnswer};

use crate::answers::CellFault;
use crate::cells::{CellPasses, Cells};
use crate::turns;
use ms_core::RunBuf;
use seg_trees::SegTrees;
use std::alloc::AllocError;
use std::sync::Wait;
use zms_units::{Group, MsId, Seg};

/// Gathers what the next group changed into an empty buffer, as `Metaslab::collect`. The keeper has every collect among its
/// own notes, so it knows which group is next.
pub fn collect_at<R: SegTrees, W: Wait>(
    rt: &W,
    cells: &Cells<R>,
    passes: &mut CellPasses<R>,
    lane: u8,
    id: MsId,
    group: Group,
    buf: &mut RunBuf,
) -> Result<(), CellFault>
    requires lane { IsLane lane }
    requires id { IsIn cells.now.vdevs id }
    requires group { group.0 ≡ collected_group (origin_in passes.old (number_of cells.now.vdevs id)) (seen_in passes.old (number_of cells.now.vdevs id)) + 1 }
    requires empty { (buf.old.allocs.items ≡ []) × (buf.old.frees.items ≡ []) }
    requires seated { Seated 0 cells.now passes.old }
    ensures { Turned 0 (number_of cells.now.vdevs id) (CollectAnswer lane group (run_room buf.old) buf.new.allocs.items buf.new.frees.items result) passes.old passes.new }
{
    let at = cells.place_of(id);
    let cell = &cells.metaslabs[at];
    turns::collect(rt, cell, &mut passes.metaslabs[at], lane, group, buf)
}

/// Settles the next collected group, as `Metaslab::settle`. Takes no memory.
pub fn settle_at<R: SegTrees, W: Wait>(
    rt: &W,
    cells: &Cells<R>,
    passes: &mut CellPasses<R>,
    lane: u8,
    id: MsId,
    group: Group,
)
    requires lane { IsLane lane }
    requires id { IsIn cells.now.vdevs id }
    requires next { group.0 ≡ settled_group (origin_in passes.old (number_of cells.now.vdevs id)) (seen_in passes.old (number_of cells.now.vdevs id)) + 1 }
    requires collected { group.0 ≤ collected_group (origin_in passes.old (number_of cells.now.vdevs id)) (seen_in passes.old (number_of cells.now.vdevs id)) }
    requires seated { Seated 0 cells.now passes.old }
    ensures { Turned 0 (number_of cells.now.vdevs id) (SettleAnswer lane group) passes.old passes.new }
{
    let at = cells.place_of(id);
    let cell = &cells.metaslabs[at];
    turns::settle(rt, cell, &mut passes.metaslabs[at], lane, group);
}

/// Brings free space into memory, as `Metaslab::load`, where the segments are what the settled groups hold. Else the answer
/// is the lowest unit at which they differ, and the metaslab is as it was.
pub fn load_at<R: SegTrees, W: Wait>(
    rt: &W,
    cells: &Cells<R>,
    passes: &mut CellPasses<R>,
    lane: u8,
    id: MsId,
    held: &[Seg],
) -> Result<Option<u32>, AllocError>
    requires lane { IsLane lane }
    requires id { IsIn cells.now.vdevs id }
    requires segs { AreSegs (row_at cells.now.vdevs id.vdev).units held.now }
    requires seated { Seated 0 cells.now passes.old }
    ensures { Turned 0 (number_of cells.now.vdevs id) (LoadAnswer lane held.now result) passes.old passes.new }
{
    let at = cells.place_of(id);
    let cell = &cells.metaslabs[at];
    turns::load(rt, cell, &mut passes.metaslabs[at], lane, held)
}
