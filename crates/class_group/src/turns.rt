//! One turn at one class, over its turn and one pass.
ghost use Rattle.std.specs.Prelude.{◌≡◌, ℕ};
ghost use Rattle.zms_units.specs.Limits.{IsLane};
ghost use Rattle.turn_cell.specs.Lanes.{Ready};
ghost use Rattle.turn_passes.specs.Parts.{IsIdle};
ghost use Rattle.ms_model.specs.declared.notes.ClassNote.TheVariants.{Granted, Missed, Weigh};
ghost use Rattle.class_model.specs.Replay.{IsVdevOf, IsIn};
ghost use Rattle.class_group.specs.Turns.{origin_from};
ghost use Rattle.class_group.specs.Passes.{right_of};
ghost use Rattle.class_group.specs.Journey.{TurnedOne};
ghost use Rattle.class_group.specs.Answers.{BeginAnswer, PickAnswer, PostAnswer};

use crate::acts;
use class_core::{ClassCell, Picked};
use ms_model::{Kind, Start};
use std::alloc::AllocError;
use std::sync::Wait;
use turn_cell::{Pass, Turn};
use zms_units::MsId;

pub(crate) fn begin<W: Wait>(
    rt: &W,
    cell: &Turn<ClassCell>,
    pass: &mut Pass<ClassCell>,
) -> Option<u8>
    requires { IsIdle cell.now pass.old }
    ensures { (right : ℕ) → Ready right_of right cell.now pass.old → TurnedOne right (BeginAnswer result) pass.old pass.new }
{
    let held = cell.take(rt, pass);
    let vdev = held.value().begin();
    cell.give(held, pass, None);
    vdev
}

pub(crate) fn pick<W: Wait>(
    rt: &W,
    cell: &Turn<ClassCell>,
    pass: &mut Pass<ClassCell>,
    lane: u8,
    kind: Kind,
    vdev: u8,
    bytes: u64,
    start: Start,
) -> Result<Option<Picked>, AllocError>
    requires lane { IsLane lane }
    requires vdev { IsVdevOf (origin_from pass.old.fixed) vdev }
    requires ready { Ready right_of lane cell.now pass.old }
    ensures { TurnedOne lane (PickAnswer lane kind vdev bytes start result) pass.old pass.new }
{
    let mut held = cell.take(rt, pass);
    let (answer, note) = acts::pick(held.value_mut(), lane, kind, vdev, bytes, start);
    cell.give(held, pass, note);
    answer
}

pub(crate) fn granted<W: Wait>(
    rt: &W,
    cell: &Turn<ClassCell>,
    pass: &mut Pass<ClassCell>,
    lane: u8,
    id: MsId,
    bytes: u64,
    weight: u64,
) -> Result<(), AllocError>
    requires lane { IsLane lane }
    requires id { IsIn (origin_from pass.old.fixed) id }
    requires ready { Ready right_of lane cell.now pass.old }
    ensures { TurnedOne lane (PostAnswer lane (Granted id bytes weight) result) pass.old pass.new }
{
    let mut held = cell.take(rt, pass);
    let (answer, note) = acts::granted(held.value_mut(), lane, id, bytes, weight);
    cell.give(held, pass, note);
    answer
}

pub(crate) fn missed<W: Wait>(
    rt: &W,
    cell: &Turn<ClassCell>,
    pass: &mut Pass<ClassCell>,
    lane: u8,
    id: MsId,
    weight: u64,
) -> Result<(), AllocError>
    requires lane { IsLane lane }
    requires id { IsIn (origin_from pass.old.fixed) id }
    requires ready { Ready right_of lane cell.now pass.old }
    ensures { TurnedOne lane (PostAnswer lane (Missed id weight) result) pass.old pass.new }
{
    let mut held = cell.take(rt, pass);
    let (answer, note) = acts::missed(held.value_mut(), lane, id, weight);
    cell.give(held, pass, note);
    answer
}

pub(crate) fn weigh<W: Wait>(
    rt: &W,
    cell: &Turn<ClassCell>,
    pass: &mut Pass<ClassCell>,
    lane: u8,
    id: MsId,
    weight: u64,
) -> Result<(), AllocError>
    requires lane { IsLane lane }
    requires id { IsIn (origin_from pass.old.fixed) id }
    requires ready { Ready right_of lane cell.now pass.old }
    ensures { TurnedOne lane (PostAnswer lane (Weigh id weight) result) pass.old pass.new }
{
    let mut held = cell.take(rt, pass);
    let (answer, note) = acts::weigh(held.value_mut(), lane, id, weight);
    cell.give(held, pass, note);
    answer
}
