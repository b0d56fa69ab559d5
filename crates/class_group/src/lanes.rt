//! What a lane does at a class, in one turn.
ghost use Rattle.std.specs.Prelude.{◌≡◌, ℕ, ◌<◌, length, IfOk, IfSome, IfNone};
ghost use Rattle.zms_units.specs.Limits.{IsLane};
ghost use Rattle.vdev_map.specs.Numbers.{IsIn};
ghost use Rattle.ms_model.specs.declared.notes.ClassNote.TheVariants.{Granted, Missed, Weigh};
ghost use Rattle.class_core.specs.Classes.{HasClass};
ghost use Rattle.class_group.specs.Turns.{place_of, place_for};
ghost use Rattle.class_group.specs.Passes.{Seated};
ghost use Rattle.class_group.specs.Journey.{Turned};
ghost use Rattle.class_group.specs.Answers.{BeginAnswer, PickAnswer, PostAnswer};

use crate::classes::{ClassPasses, Classes};
use crate::turns;
use class_core::Picked;
use ms_model::{Kind, Start};
use std::alloc::AllocError;
use std::sync::Wait;
use zms_units::{Class, MsId};

/// The vdev from which allocations of a class begin, the rotor's, after `mc_rotor`: None exactly where the class has no
/// vdev. Notes nothing and takes no memory, so any holder may ask. Constant.
pub fn begin<W: Wait>(
    rt: &W,
    classes: &Classes,
    passes: &mut ClassPasses,
    class: Class,
) -> Option<u8>
    requires seated { (right : ℕ) × Seated right classes.now passes.old }
    ensures turned { (right : ℕ) → Seated right classes.now passes.old → Turned right (place_of class) (BeginAnswer result) passes.old passes.new }
    ensures some { IfSome result (HasClass classes.now.vdevs class) }
    ensures none { IfNone result ((vdev : ℕ) → HasClass classes.now.vdevs class vdev → ⊥) }
{
    let at = classes.place_of(class);
    let cell = &classes.cells[at];
    turns::begin(rt, cell, &mut passes.cells[at])
}

/// The metaslab of a vdev that the lane looks at next, as `ClassCell::pick`, after `metaslab_activate`: it is the active
/// one of the lane's allocator and the kind from now on. `bytes` are those of the copy, in whole units of the vdev.
///
/// The only error is want of memory, and changes nothing. Costs the logarithm of the vdev's metaslabs.
pub fn pick<W: Wait>(
    rt: &W,
    classes: &Classes,
    passes: &mut ClassPasses,
    lane: u8,
    kind: Kind,
    vdev: u8,
    bytes: u64,
    start: Start,
) -> Result<Option<Picked>, AllocError>
    requires lane { IsLane lane }
    requires vdev { vdev < length classes.now.vdevs }
    requires seated { Seated lane classes.now passes.old }
    ensures turned { Turned lane (place_for classes.now.vdevs vdev) (PickAnswer lane kind vdev bytes start result) passes.old passes.new }
    ensures within { IfOk result (λ picked. IfSome picked (λ p. IsIn classes.now.vdevs (record { vdev = vdev; index = p.index }))) }
{
    let at = classes.place_for(vdev);
    let cell = &classes.cells[at];
    turns::pick(
        rt,
        cell,
        &mut passes.cells[at],
        lane,
        kind,
        vdev,
        bytes,
        start,
    )
}

/// So many bytes were granted in a metaslab, which weighs so much now, as `ClassCell::granted`: they count for the rotor
/// of its class.
///
/// The only error is want of memory, and changes nothing. Costs the logarithm of the vdev's metaslabs.
pub fn granted<W: Wait>(
    rt: &W,
    classes: &Classes,
    passes: &mut ClassPasses,
    lane: u8,
    id: MsId,
    bytes: u64,
    weight: u64,
) -> Result<(), AllocError>
    requires lane { IsLane lane }
    requires id { IsIn classes.now.vdevs id }
    requires seated { Seated lane classes.now passes.old }
    ensures { Turned lane (place_for classes.now.vdevs id.vdev) (PostAnswer lane (Granted id bytes weight) result) passes.old passes.new }
{
    let at = classes.place_for(id.vdev);
    let cell = &classes.cells[at];
    turns::granted(rt, cell, &mut passes.cells[at], lane, id, bytes, weight)
}

/// A metaslab that was looked at had no run long enough, and weighs so much, as `ClassCell::missed`, after
/// `metaslab_passivate`: it is inactive from now on.
///
/// The only error is want of memory, and changes nothing. Costs the logarithm of the vdev's metaslabs.
pub fn missed<W: Wait>(
    rt: &W,
    classes: &Classes,
    passes: &mut ClassPasses,
    lane: u8,
    id: MsId,
    weight: u64,
) -> Result<(), AllocError>
    requires lane { IsLane lane }
    requires id { IsIn classes.now.vdevs id }
    requires seated { Seated lane classes.now passes.old }
    ensures { Turned lane (place_for classes.now.vdevs id.vdev) (PostAnswer lane (Missed id weight) result) passes.old passes.new }
{
    let at = classes.place_for(id.vdev);
    let cell = &classes.cells[at];
    turns::missed(rt, cell, &mut passes.cells[at], lane, id, weight)
}

/// Posts the weight of a metaslab, as `ClassCell::weigh`, after `metaslab_group_sort`.
///
/// The only error is want of memory, and changes nothing. Costs the logarithm of the vdev's metaslabs.
pub fn weigh<W: Wait>(
    rt: &W,
    classes: &Classes,
    passes: &mut ClassPasses,
    lane: u8,
    id: MsId,
    weight: u64,
) -> Result<(), AllocError>
    requires lane { IsLane lane }
    requires id { IsIn classes.now.vdevs id }
    requires seated { Seated lane classes.now passes.old }
    ensures { Turned lane (place_for classes.now.vdevs id.vdev) (PostAnswer lane (Weigh id weight) result) passes.old passes.new }
{
    let at = classes.place_for(id.vdev);
    let cell = &classes.cells[at];
    turns::weigh(rt, cell, &mut passes.cells[at], lane, id, weight)
}
