//! How the copies of a block that gets no further are taken back.
ghost use Rattle.std.specs.Prelude.{◌≡◌, ℕ, ◌+◌, ◌<◌, ◌≤◌, ◌++◌, length};
ghost use Rattle.std.specs.Option.{option_or};
ghost use Rattle.vdev_map.specs.Numbers.{IsIn, row_at};
ghost use Rattle.ms_model.specs.Legal.{IsWithin};
ghost use Rattle.class_group.specs.Turns.{ClassTurns};
ghost use Rattle.lane_passes.specs.Lanes.{IsSeated, Acted};
ghost use Rattle.pool_alloc.specs.Allocs.{answer_after};
ghost use Rattle.pool_alloc.specs.declared.answers.AllocFault.TheVariants.{Memory};
ghost use Rattle.pool_alloc.specs.Cuts.{AllLaid};
ghost use Rattle.pool_alloc.specs.Undone.{TakenLine, CopyUndone, CopiesUndone, HadMemory, late_of, left_with};

use crate::answers::AllocFault;
use crate::places::seg_at;
use crate::turns::{self, Post};
use class_group::Classes;
use lane_passes::LanePasses;
use ms_cell::{CellFault, Cells};
use ms_core::MsFault;
use seg_trees::SegTrees;
use std::alloc::{AllocError, Global};
use std::sync::Wait;
use zms_units::{Copies, Dva, Group, MsId, Seg};

/// The group of the hold was collected already.
#[derive(Clone, Copy, Debug, PartialEq, Eq)]
pub(crate) struct Late {
    pub group: Group,
    pub collected: Group,
}

/// Takes a segment back, run by run: units that another lane freed meanwhile are passed over.
///
/// Free space of a metaslab that granted in a group which is not settled stays in memory, so that it were not there is told as
/// want of memory.
fn take_seg_back<R: SegTrees, W: Wait>(
    rt: &W,
    cells: &Cells<R>,
    passes: &mut LanePasses<R>,
    group: Group,
    id: MsId,
    seg: Seg,
) -> Result<Option<Late>, AllocError>
    requires id { IsIn cells.now.vdevs id }
    requires segment { IsWithin (row_at cells.now.vdevs id.vdev).units seg }
    requires seated { (c : ClassTurns) × IsSeated cells.now c passes.old }
    ensures { Acted cells.now (TakenLine passes.old.lane group id seg result) passes.old passes.new }
{
    let end = end_on(cells, id, seg);
    let mut start = seg.start;
    let mut stop = end;
    for _ in rt.forever() {
        if start == end {
            return Ok(None);
        }
        let run = Seg {
            start,
            count: stop - start,
        };
        match turns::take_back(rt, cells, passes, id, group, run) {
            Ok(()) => {
                start = stop;
                stop = end;
            }
            Err(CellFault::Ms(MsFault::NotLive { unit })) if unit == start => {
                start += 1;
                stop = end;
            }
            Err(CellFault::Ms(MsFault::NotLive { unit })) => stop = unit,
            Err(CellFault::Ms(MsFault::Late { group, collected })) => {
                return Ok(Some(Late { group, collected }));
            }
            Err(_) => return Err(AllocError),
        }
    }
    unreachable!()
}

/// The unit just past a metaslab's segment.
fn end_on<R: SegTrees>(cells: &Cells<R>, id: MsId, seg: Seg) -> u32
    requires id { IsIn cells.now.vdevs id }
    requires segment { IsWithin (row_at cells.now.vdevs id.vdev).units seg }
    ensures { result ≡ seg.start + seg.count }
{
    // The layout's limits keep the sum small.
    let _rows = cells.layout.vdevs.as_slice();
    seg.start + seg.count
}

/// Takes one copy back and posts the weight of its metaslab, after `metaslab_unalloc_dva`.
fn take_copy_back<R: SegTrees, W: Wait>(
    rt: &W,
    cells: &Cells<R>,
    classes: &Classes,
    passes: &mut LanePasses<R>,
    group: Group,
    id: MsId,
    seg: Seg,
) -> Result<Option<Late>, AllocError>
    requires id { IsIn cells.now.vdevs id }
    requires segment { IsWithin (row_at cells.now.vdevs id.vdev).units seg }
    requires seated { IsSeated cells.now classes.now passes.old }
    ensures { Acted cells.now (CopyUndone passes.old.lane group id seg result) passes.old passes.new }
{
    let late = take_seg_back(rt, cells, passes, group, id, seg)?;
    turns::post_weight(rt, cells, classes, passes, id, Post::Weigh)?;
    Ok(late)
}

/// Takes copies back, in their order. Where a group was collected already its copy stays and the others are taken back all
/// the same; where no space was found the first such is the answer then, and else the refusal is.
pub(crate) fn take_copies_back<R: SegTrees, W: Wait>(
    rt: &W,
    alloc: Global,
    cells: &Cells<R>,
    classes: &Classes,
    passes: &mut LanePasses<R>,
    group: Group,
    copies: &Copies,
    refusal: AllocFault,
) -> AllocFault
    requires few { length copies.now ≤ 3 }
    requires laid { AllLaid cells.now.vdevs copies.now }
    requires refusal { HadMemory refusal }
    requires seated { IsSeated cells.now classes.now passes.old }
    ensures { Acted cells.now (CopiesUndone passes.old.lane group copies.now refusal result) passes.old passes.new }
{
    let mut left = Copies::new(alloc);
    let mut first = None;
    for (place, dva) in copies.as_slice().iter().enumerate() {
        let Ok((id, seg)) = seg_at(cells, dva.vdev, dva.offset, dva.size) else {
            unreachable!()
        };
        let late = match take_copy_back(rt, cells, classes, passes, group, id, seg) {
            Ok(late) => late,
            Err(_) => return ran_out(left, &copies.as_slice()[place..]),
        };
        first = note_left(&mut left, first, *dva, late);
    }
    answer_after(refusal, first)
}

/// Keeps a copy that was left, and what stood in the way of the first.
fn note_left(left: &mut Copies, first: Option<Late>, dva: Dva, late: Option<Late>) -> Option<Late>
    requires { length left.old < 3 }
    ensures left { left.new ≡ left_with late dva left.old }
    ensures first { result ≡ option_or first late }
{
    if late.is_some() {
        left.push(dva);
    }
    first.or(late)
}

/// Memory ran out: the copies that were left, and those from the one at hand on, stay granted.
fn ran_out(mut left: Copies, rest: &[Dva]) -> AllocFault
    requires { length left + length rest.now ≤ 3 }
    ensures { result ≡ Memory (left ++ rest.now) }
{
    for dva in rest {
        left.push(*dva);
    }
    AllocFault::Memory { kept: left }
}

/// Where no space was found, and then a copy could not be taken back, the latter is told.
fn answer_after(refusal: AllocFault, first: Option<Late>) -> AllocFault
    ensures { result ≡ answer_after refusal (late_of first) }
{
    match (refusal, first) {
        (AllocFault::NoSpace { .. }, Some(Late { group, collected })) => {
            AllocFault::Late { group, collected }
        }
        (refusal, _) => refusal,
    }
}
