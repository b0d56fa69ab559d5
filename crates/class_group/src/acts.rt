//! What is done at a class in one turn: the call, and the note that it left.
ghost use Rattle.std.specs.Prelude.{◌≡◌, ◌++◌, IfSome};
ghost use Rattle.std.specs.Option.{option_to_list};
ghost use Rattle.zms_units.specs.Limits.{IsLane};
ghost use Rattle.ms_model.specs.declared.notes.ClassNote.TheVariants.{Granted, Missed, Weigh};
ghost use Rattle.class_model.specs.Replay.{IsVdevOf, IsIn};
ghost use Rattle.class_core.specs.Classes.{got_of};
ghost use Rattle.class_group.specs.Passes.{right_of};
ghost use Rattle.class_group.specs.Answers.{PickAnswer, PostAnswer};

use class_core::{ClassCell, Picked, allocator};
use ms_model::{ClassNote, Got, Kind, Start};
use std::alloc::AllocError;
use zms_units::MsId;

/// What a pick gave, as a note has it.
fn got_of(picked: Option<Picked>) -> Option<Got>
    ensures { result ≡ got_of picked }
{
    let picked = picked?;
    Some(Got {
        index: picked.index,
        weight: picked.weight,
    })
}

/// Picks a metaslab, as `ClassCell::pick`.
pub(crate) fn pick(
    cell: &mut ClassCell,
    lane: u8,
    kind: Kind,
    vdev: u8,
    bytes: u64,
    start: Start,
) -> (Result<Option<Picked>, AllocError>, Option<(u8, ClassNote)>)
    requires lane { IsLane lane }
    requires vdev { IsVdevOf cell.old.origin vdev }
    ensures answer { PickAnswer lane kind vdev bytes start result.0 cell.old result.1 }
    ensures notes { cell.new.notes ≡ cell.old.notes ++ option_to_list result.1 }
    ensures origin { cell.new.origin ≡ cell.old.origin }
    ensures own { IfSome result.1 (λ n. right_of n ≡ lane) }
{
    match cell.pick(lane, kind, vdev, bytes, start) {
        Ok(picked) => {
            let note = ClassNote::Pick {
                allocator: allocator(lane),
                kind,
                vdev,
                bytes,
                start,
                got: got_of(picked),
            };
            (Ok(picked), Some((lane, note)))
        }
        Err(error) => (Err(error), None),
    }
}

/// Posts what was granted, as `ClassCell::granted`.
pub(crate) fn granted(
    cell: &mut ClassCell,
    lane: u8,
    id: MsId,
    bytes: u64,
    weight: u64,
) -> (Result<(), AllocError>, Option<(u8, ClassNote)>)
    requires lane { IsLane lane }
    requires id { IsIn cell.old.origin id }
    ensures answer { PostAnswer lane (Granted id bytes weight) result.0 cell.old result.1 }
    ensures notes { cell.new.notes ≡ cell.old.notes ++ option_to_list result.1 }
    ensures origin { cell.new.origin ≡ cell.old.origin }
    ensures own { IfSome result.1 (λ n. right_of n ≡ lane) }
{
    match cell.granted(lane, id, bytes, weight) {
        Ok(()) => (
            Ok(()),
            Some((lane, ClassNote::Granted { id, bytes, weight })),
        ),
        Err(error) => (Err(error), None),
    }
}

/// Posts a miss, as `ClassCell::missed`.
pub(crate) fn missed(
    cell: &mut ClassCell,
    lane: u8,
    id: MsId,
    weight: u64,
) -> (Result<(), AllocError>, Option<(u8, ClassNote)>)
    requires lane { IsLane lane }
    requires id { IsIn cell.old.origin id }
    ensures answer { PostAnswer lane (Missed id weight) result.0 cell.old result.1 }
    ensures notes { cell.new.notes ≡ cell.old.notes ++ option_to_list result.1 }
    ensures origin { cell.new.origin ≡ cell.old.origin }
    ensures own { IfSome result.1 (λ n. right_of n ≡ lane) }
{
    match cell.missed(lane, id, weight) {
        Ok(()) => (Ok(()), Some((lane, ClassNote::Missed { id, weight }))),
        Err(error) => (Err(error), None),
    }
}

/// Posts a weight, as `ClassCell::weigh`.
pub(crate) fn weigh(
    cell: &mut ClassCell,
    lane: u8,
    id: MsId,
    weight: u64,
) -> (Result<(), AllocError>, Option<(u8, ClassNote)>)
    requires lane { IsLane lane }
    requires id { IsIn cell.old.origin id }
    ensures answer { PostAnswer lane (Weigh id weight) result.0 cell.old result.1 }
    ensures notes { cell.new.notes ≡ cell.old.notes ++ option_to_list result.1 }
    ensures origin { cell.new.origin ≡ cell.old.origin }
    ensures own { IfSome result.1 (λ n. right_of n ≡ lane) }
{
    match cell.weigh(lane, id, weight) {
        Ok(()) => (Ok(()), Some((lane, ClassNote::Weigh { id, weight }))),
        Err(error) => (Err(error), None),
    }
}
