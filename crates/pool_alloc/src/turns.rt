//! The turns of an allocation, each a fact of what the lane did.
ghost use Rattle.std.specs.Prelude.{◌≡◌, ℕ, ◌*◌, ◌^◌, ◌<◌, ◌≤◌, Some, None, IfOk, IfSome, length};
ghost use Rattle.zms_units.specs.Limits.{MAX_UNITS};
ghost use Rattle.vdev_map.specs.Numbers.{IsIn, number_of, row_at};
ghost use Rattle.ms_model.specs.Gates.{open_group};
ghost use Rattle.ms_model.specs.Legal.{IsWithin};
ghost use Rattle.ms_cell.specs.Answers.{GrantAnswer, FreeAnswer, UnallocAnswer};
ghost use Rattle.class_core.specs.Classes.{HasClass};
ghost use Rattle.class_group.specs.Turns.{ClassTurns, place_for};
ghost use Rattle.class_group.specs.Answers.{PickAnswer};
ghost use Rattle.lane_passes.specs.Lanes.{IsSeated, Acted};
ghost use Rattle.lane_passes.specs.Turns.{AtGate, AtMetaslab, AtClass};
ghost use Rattle.pool_alloc.specs.Looks.{IsBegun};
ghost use Rattle.pool_alloc.specs.Posts.{IsPost};

use class_core::Picked;
use class_group::{Classes, begin as begin_class, granted, missed, pick as pick_class, weigh};
use lane_passes::LanePasses;
use ms_cell::{
    CellFault, Cells, Look, free_at, grant_at, hold_at, look_at, release_at, unalloc_at,
};
use ms_model::{Kind, Start};
use seg_trees::SegTrees;
use std::alloc::AllocError;
use std::sync::Wait;
use txg_gate::Hold;
use zms_units::{Class, Group, MsId, Seg};

/// Holds the open group.
pub(crate) fn hold<R: SegTrees, W: Wait>(
    rt: &W,
    cells: &Cells<R>,
    passes: &mut LanePasses<R>,
) -> Hold
    requires { (c : ClassTurns) × IsSeated cells.now c passes.old }
    ensures { Acted cells.now (λ g. AtGate (λ h note. (note ≡ None) × (result.group.0 ≡ open_group g.opened h)) g) passes.old passes.new }
{
    hold_at(rt, cells, &mut passes.cells)
}

/// Gives a hold up.
pub(crate) fn release<R: SegTrees, W: Wait>(
    rt: &W,
    cells: &Cells<R>,
    passes: &mut LanePasses<R>,
    hold: Hold,
)
    requires { (c : ClassTurns) × IsSeated cells.now c passes.old }
    ensures { Acted cells.now (AtGate (λ h note. note ≡ None)) passes.old passes.new }
{
    release_at(rt, cells, &mut passes.cells, hold)
}

/// Asks a metaslab for units, in the group of the hold.
pub(crate) fn grant<R: SegTrees, W: Wait>(
    rt: &W,
    cells: &Cells<R>,
    passes: &mut LanePasses<R>,
    id: MsId,
    group: Group,
    count: u32,
) -> Result<Look, CellFault>
    requires id { IsIn cells.now.vdevs id }
    requires count { (1 ≤ count) × (count ≤ MAX_UNITS) }
    requires seated { (c : ClassTurns) × IsSeated cells.now c passes.old }
    ensures { Acted cells.now (λ g. AtMetaslab (number_of g.vdevs id) (GrantAnswer passes.old.lane group count result) g) passes.old passes.new }
{
    grant_at(rt, cells, &mut passes.cells, passes.lane, id, group, count)
}

/// Frees a metaslab's segment, in the group of the hold.
pub(crate) fn free<R: SegTrees, W: Wait>(
    rt: &W,
    cells: &Cells<R>,
    passes: &mut LanePasses<R>,
    id: MsId,
    hold: &Hold,
    seg: Seg,
) -> Result<(), CellFault>
    requires id { IsIn cells.now.vdevs id }
    requires segment { IsWithin (row_at cells.now.vdevs id.vdev).units seg }
    requires seated { (c : ClassTurns) × IsSeated cells.now c passes.old }
    ensures { Acted cells.now (λ g. AtMetaslab (number_of g.vdevs id) (FreeAnswer passes.old.lane hold.now.group seg result) g) passes.old passes.new }
{
    free_at(rt, cells, &mut passes.cells, passes.lane, id, hold, seg)
}

/// Takes back a segment that the lane was granted in this group.
pub(crate) fn take_back<R: SegTrees, W: Wait>(
    rt: &W,
    cells: &Cells<R>,
    passes: &mut LanePasses<R>,
    id: MsId,
    group: Group,
    seg: Seg,
) -> Result<(), CellFault>
    requires id { IsIn cells.now.vdevs id }
    requires segment { IsWithin (row_at cells.now.vdevs id.vdev).units seg }
    requires seated { (c : ClassTurns) × IsSeated cells.now c passes.old }
    ensures { Acted cells.now (λ g. AtMetaslab (number_of g.vdevs id) (UnallocAnswer passes.old.lane group seg result) g) passes.old passes.new }
{
    unalloc_at(rt, cells, &mut passes.cells, passes.lane, id, group, seg)
}

/// The vdev of a class's rotor; none where the class has no vdev.
pub(crate) fn begin<R: SegTrees, W: Wait>(
    rt: &W,
    cells: &Cells<R>,
    classes: &Classes,
    passes: &mut LanePasses<R>,
    class: Class,
) -> Option<u8>
    requires { IsSeated cells.now classes.now passes.old }
    ensures acted { Acted cells.now (IsBegun class result) passes.old passes.new }
    ensures some { IfSome result (HasClass cells.now.vdevs class) }
{
    begin_class(rt, classes, &mut passes.classes, class)
}

/// Picks a metaslab of a vdev for so many bytes.
pub(crate) fn pick<R: SegTrees, W: Wait>(
    rt: &W,
    cells: &Cells<R>,
    classes: &Classes,
    passes: &mut LanePasses<R>,
    kind: Kind,
    vdev: u8,
    bytes: u64,
    start: Start,
) -> Result<Option<Picked>, AllocError>
    requires vdev { vdev < length cells.now.vdevs }
    requires seated { IsSeated cells.now classes.now passes.old }
    ensures acted { Acted cells.now (λ g. AtClass (place_for g.vdevs vdev) (PickAnswer passes.old.lane kind vdev bytes start result) g) passes.old passes.new }
    ensures within { IfOk result (λ picked. IfSome picked (λ p. IsIn cells.now.vdevs (record { vdev = vdev; index = p.index }))) }
{
    pick_class(
        rt,
        classes,
        &mut passes.classes,
        passes.lane,
        kind,
        vdev,
        bytes,
        start,
    )
}

/// What is posted to a class with a metaslab's weight.
#[derive(Clone, Copy, Debug, PartialEq, Eq)]
pub(crate) enum Post {
    /// So many bytes were granted in it.
    Granted { bytes: u64 },
    /// It had no run long enough.
    Missed,
    /// The weight alone.
    Weigh,
}

/// Looks at the weight of a metaslab and posts it to its class. The only error is want of memory, and posts nothing.
pub(crate) fn post_weight<R: SegTrees, W: Wait>(
    rt: &W,
    cells: &Cells<R>,
    classes: &Classes,
    passes: &mut LanePasses<R>,
    id: MsId,
    post: Post,
) -> Result<(), AllocError>
    requires id { IsIn cells.now.vdevs id }
    requires seated { IsSeated cells.now classes.now passes.old }
    ensures { Acted cells.now (IsPost passes.old.lane id post result) passes.old passes.new }
{
    let (_, weight, _) = look_at(rt, cells, &mut passes.cells, id);
    let lane = passes.lane;
    let passes = &mut passes.classes;
    match post {
        Post::Granted { bytes } => granted(rt, classes, passes, lane, id, bytes, weight),
        Post::Missed => missed(rt, classes, passes, lane, id, weight),
        Post::Weigh => weigh(rt, classes, passes, lane, id, weight),
    }
}
