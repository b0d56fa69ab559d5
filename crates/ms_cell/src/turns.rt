//! One turn at one metaslab, over its turn and one pass.
ghost use Rattle.std.specs.Prelude.{◌≡◌, ℕ, ◌+◌, ◌≤◌, true, []};
ghost use Rattle.zms_units.specs.Limits.{IsLane, MAX_UNITS};
ghost use Rattle.zms_units.specs.Segments.{AreSegs};
ghost use Rattle.turn_cell.specs.Notes.{IsPrefix, Owns, StandsFor};
ghost use Rattle.turn_cell.specs.Lanes.{Ready};
ghost use Rattle.turn_passes.specs.Parts.{IsIdle};
ghost use Rattle.ms_model.specs.Legal.{IsWithin};
ghost use Rattle.ms_model.specs.Units.{settled_group, collected_group};
ghost use Rattle.ms_model.specs.Parts.{right_of};
ghost use Rattle.ms_core.specs.State.{settled_of};
ghost use Rattle.ms_core.specs.Standing.{standing_of};
ghost use Rattle.ms_core.specs.Buffers.{run_room};
ghost use Rattle.ms_cell.specs.Turns.{origin_from};
ghost use Rattle.ms_cell.specs.Journey.{TurnedOne, TriedOne};
ghost use Rattle.ms_cell.specs.Answers.{GrantAnswer, FreeAnswer, UnallocAnswer, CollectAnswer, SettleAnswer, LoadAnswer, IsSight};

use crate::acts;
use crate::answers::{CellFault, Look};
use crate::cells::MsCell;
use ms_core::{Counts, Metaslab, RunBuf};
use ms_model::{Act, Noted};
use seg_trees::SegTrees;
use std::alloc::AllocError;
use std::sync::Wait;
use turn_cell::{Held, Pass};
use zms_units::{Group, Seg};

/// Takes the turn once the group is at most three above the settled one. A turn that comes too early is given back as it
/// was, and taken again.
fn take_near<R: SegTrees, W: Wait>(
    rt: &W,
    cell: &MsCell<R>,
    pass: &mut Pass<Metaslab<R>>,
    group: Group,
) -> Held<Metaslab<R>>
    requires { IsIdle cell.now pass.old }
    ensures near { group.0 ≤ settled_of result + 3 }
    ensures pass { pass.new ≡ record pass.old { seen = result.notes; out = true; tries = pass.new.tries } }
    ensures seen { IsPrefix pass.old.seen result.notes }
    ensures stands { StandsFor (λ f m. standing_of m ≡ f) pass.old.fixed result }
    ensures whole { Owns right_of pass.new.own pass.new.seen }
{
    for _ in rt.forever() {
        let held = cell.take(rt, pass);
        if group.0.saturating_sub(3) <= held.value().settled().0 {
            return held;
        }
        cell.give(held, pass, None);
    }
    unreachable!()
}

pub(crate) fn grant<R: SegTrees, W: Wait>(
    rt: &W,
    cell: &MsCell<R>,
    pass: &mut Pass<Metaslab<R>>,
    lane: u8,
    group: Group,
    count: u32,
) -> Result<Look, CellFault>
    requires lane { IsLane lane }
    requires count { (1 ≤ count) × (count ≤ MAX_UNITS) }
    requires ready { Ready right_of lane cell.now pass.old }
    ensures { TurnedOne lane (GrantAnswer lane group count result) pass.old pass.new }
{
    let mut held = take_near(rt, cell, pass, group);
    let (answer, note) = acts::grant(held.value_mut(), lane, group, count);
    cell.give(held, pass, note);
    answer
}

pub(crate) fn try_grant<R: SegTrees>(
    cell: &MsCell<R>,
    pass: &mut Pass<Metaslab<R>>,
    lane: u8,
    group: Group,
    count: u32,
) -> Result<Look, CellFault>
    requires lane { IsLane lane }
    requires near { group.0 ≤ settled_group (origin_from pass.old.fixed) pass.old.seen + 3 }
    requires count { (1 ≤ count) × (count ≤ MAX_UNITS) }
    requires ready { Ready right_of lane cell.now pass.old }
    ensures { TriedOne lane result (GrantAnswer lane group count result) pass.old pass.new }
{
    let Some(mut held) = cell.try_take(pass) else {
        return Err(CellFault::Busy);
    };
    prove!(group.0.saturating_sub(3) <= held.value().settled().0);
    let (answer, note) = acts::grant(held.value_mut(), lane, group, count);
    cell.give(held, pass, note);
    answer
}

pub(crate) fn free<R: SegTrees, W: Wait>(
    rt: &W,
    cell: &MsCell<R>,
    pass: &mut Pass<Metaslab<R>>,
    lane: u8,
    group: Group,
    seg: Seg,
) -> Result<(), CellFault>
    requires lane { IsLane lane }
    requires segment { IsWithin (origin_from pass.old.fixed).units seg }
    requires ready { Ready right_of lane cell.now pass.old }
    ensures { TurnedOne lane (FreeAnswer lane group seg result) pass.old pass.new }
{
    let mut held = take_near(rt, cell, pass, group);
    let (answer, note) = acts::free(held.value_mut(), lane, group, seg);
    cell.give(held, pass, note);
    answer
}

pub(crate) fn try_free<R: SegTrees>(
    cell: &MsCell<R>,
    pass: &mut Pass<Metaslab<R>>,
    lane: u8,
    group: Group,
    seg: Seg,
) -> Result<(), CellFault>
    requires lane { IsLane lane }
    requires near { group.0 ≤ settled_group (origin_from pass.old.fixed) pass.old.seen + 3 }
    requires segment { IsWithin (origin_from pass.old.fixed).units seg }
    requires ready { Ready right_of lane cell.now pass.old }
    ensures { TriedOne lane result (FreeAnswer lane group seg result) pass.old pass.new }
{
    let Some(mut held) = cell.try_take(pass) else {
        return Err(CellFault::Busy);
    };
    prove!(group.0.saturating_sub(3) <= held.value().settled().0);
    let (answer, note) = acts::free(held.value_mut(), lane, group, seg);
    cell.give(held, pass, note);
    answer
}

pub(crate) fn unalloc<R: SegTrees, W: Wait>(
    rt: &W,
    cell: &MsCell<R>,
    pass: &mut Pass<Metaslab<R>>,
    lane: u8,
    group: Group,
    seg: Seg,
) -> Result<(), CellFault>
    requires lane { IsLane lane }
    requires segment { IsWithin (origin_from pass.old.fixed).units seg }
    requires ready { Ready right_of lane cell.now pass.old }
    ensures { TurnedOne lane (UnallocAnswer lane group seg result) pass.old pass.new }
{
    let mut held = take_near(rt, cell, pass, group);
    let (answer, note) = acts::unalloc(held.value_mut(), lane, group, seg);
    cell.give(held, pass, note);
    answer
}

pub(crate) fn look<R: SegTrees, W: Wait>(
    rt: &W,
    cell: &MsCell<R>,
    pass: &mut Pass<Metaslab<R>>,
) -> (Counts, u64, bool)
    requires { IsIdle cell.now pass.old }
    ensures { (right : ℕ) → Ready right_of right cell.now pass.old → TurnedOne right (IsSight result.0 result.1 result.2) pass.old pass.new }
{
    let held = cell.take(rt, pass);
    let metaslab = held.value();
    let sight = (metaslab.counts(), metaslab.weight(), metaslab.loaded());
    cell.give(held, pass, None);
    sight
}

pub(crate) fn collect<R: SegTrees, W: Wait>(
    rt: &W,
    cell: &MsCell<R>,
    pass: &mut Pass<Metaslab<R>>,
    lane: u8,
    group: Group,
    buf: &mut RunBuf,
) -> Result<(), CellFault>
    requires lane { IsLane lane }
    requires group { group.0 ≡ collected_group (origin_from pass.old.fixed) pass.old.seen + 1 }
    requires empty { (buf.old.allocs.items ≡ []) × (buf.old.frees.items ≡ []) }
    requires ready { Ready right_of 0 cell.now pass.old }
    ensures { TurnedOne 0 (CollectAnswer lane group (run_room buf.old) buf.new.allocs.items buf.new.frees.items result) pass.old pass.new }
{
    let mut held = cell.take(rt, pass);
    let (answer, note) = acts::collect(held.value_mut(), lane, group, buf);
    cell.give(held, pass, note);
    answer
}

pub(crate) fn settle<R: SegTrees, W: Wait>(
    rt: &W,
    cell: &MsCell<R>,
    pass: &mut Pass<Metaslab<R>>,
    lane: u8,
    group: Group,
)
    requires lane { IsLane lane }
    requires next { group.0 ≡ settled_group (origin_from pass.old.fixed) pass.old.seen + 1 }
    requires collected { group.0 ≤ collected_group (origin_from pass.old.fixed) pass.old.seen }
    requires ready { Ready right_of 0 cell.now pass.old }
    ensures { TurnedOne 0 (SettleAnswer lane group) pass.old pass.new }
{
    let mut held = cell.take(rt, pass);
    held.value_mut().settle(lane, group);
    let act = Act::Settle { group };
    cell.give(held, pass, Some(Noted { lane, act }));
}

pub(crate) fn load<R: SegTrees, W: Wait>(
    rt: &W,
    cell: &MsCell<R>,
    pass: &mut Pass<Metaslab<R>>,
    lane: u8,
    segs: &[Seg],
) -> Result<Option<u32>, AllocError>
    requires lane { IsLane lane }
    requires segs { AreSegs (origin_from pass.old.fixed).units segs.now }
    requires ready { Ready right_of 0 cell.now pass.old }
    ensures { TurnedOne 0 (LoadAnswer lane segs.now result) pass.old pass.new }
{
    let mut held = cell.take(rt, pass);
    let (answer, note) = acts::load(held.value_mut(), lane, segs);
    cell.give(held, pass, note);
    answer
}
