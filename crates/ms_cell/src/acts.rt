//! What is done at a metaslab in one turn: memory for the action, the action, and the note that it left.
ghost use Rattle.std.specs.Prelude.{◌≡◌, ◌+◌, ◌≤◌, ◌++◌, Some, None, [], IfSome};
ghost use Rattle.std.specs.Option.{option_to_list};
ghost use Rattle.zms_units.specs.Limits.{IsLane, MAX_UNITS};
ghost use Rattle.ms_model.specs.Legal.{IsWithin};
ghost use Rattle.ms_model.specs.Parts.{right_of};
ghost use Rattle.ms_core.specs.State.{origin_of, settled_of, collected_of};
ghost use Rattle.ms_core.specs.Standing.{standing_of};
ghost use Rattle.ms_core.specs.Buffers.{run_room};
ghost use Rattle.zms_units.specs.Segments.{AreSegs};
ghost use Rattle.ms_cell.specs.Answers.{GrantAnswer, FreeAnswer, UnallocAnswer, CollectAnswer, LoadAnswer};

use crate::answers::{CellFault, Look};
use ms_core::{Metaslab, MsFault, RunBuf};
use ms_model::{Act, Noted};
use seg_trees::SegTrees;
use std::alloc::AllocError;
use zms_units::{Group, Seg};

/// Hands out units, as `Metaslab::grant`.
pub(crate) fn grant<R: SegTrees>(
    metaslab: &mut Metaslab<R>,
    lane: u8,
    group: Group,
    count: u32,
) -> (Result<Look, CellFault>, Option<Noted>)
    requires lane { IsLane lane }
    requires group { group.0 ≤ settled_of metaslab.old + 3 }
    requires count { (1 ≤ count) × (count ≤ MAX_UNITS) }
    ensures answer { GrantAnswer lane group count result.0 (origin_of metaslab.old) metaslab.old.notes result.1 }
    ensures notes { metaslab.new.notes ≡ metaslab.old.notes ++ option_to_list result.1 }
    ensures stands { standing_of metaslab.new ≡ standing_of metaslab.old }
    ensures own { IfSome result.1 (λ n. right_of n ≡ lane) }
{
    if metaslab.ready().is_err() {
        return (Err(CellFault::Memory), None);
    }
    let noted = |act| Some(Noted { lane, act });
    match metaslab.grant(lane, group, count) {
        Ok(Some(seg)) => (Ok(Look::Granted(seg)), noted(Act::Grant { group, seg })),
        Ok(None) => (Ok(Look::Miss), noted(Act::Miss { count })),
        Err(MsFault::NotLoaded) => (Ok(Look::NotLoaded), None),
        Err(fault) => (Err(CellFault::Ms(fault)), None),
    }
}

/// Frees units, as `Metaslab::free`.
pub(crate) fn free<R: SegTrees>(
    metaslab: &mut Metaslab<R>,
    lane: u8,
    group: Group,
    seg: Seg,
) -> (Result<(), CellFault>, Option<Noted>)
    requires lane { IsLane lane }
    requires group { group.0 ≤ settled_of metaslab.old + 3 }
    requires segment { IsWithin metaslab.old.units seg }
    ensures answer { FreeAnswer lane group seg result.0 (origin_of metaslab.old) metaslab.old.notes result.1 }
    ensures notes { metaslab.new.notes ≡ metaslab.old.notes ++ option_to_list result.1 }
    ensures stands { standing_of metaslab.new ≡ standing_of metaslab.old }
    ensures own { IfSome result.1 (λ n. right_of n ≡ lane) }
{
    if metaslab.ready().is_err() {
        return (Err(CellFault::Memory), None);
    }
    match metaslab.free(lane, group, seg) {
        Ok(()) => {
            let act = Act::Free { group, seg };
            (Ok(()), Some(Noted { lane, act }))
        }
        Err(fault) => (Err(CellFault::Ms(fault)), None),
    }
}

/// Takes units back, as `Metaslab::unalloc`.
pub(crate) fn unalloc<R: SegTrees>(
    metaslab: &mut Metaslab<R>,
    lane: u8,
    group: Group,
    seg: Seg,
) -> (Result<(), CellFault>, Option<Noted>)
    requires lane { IsLane lane }
    requires group { group.0 ≤ settled_of metaslab.old + 3 }
    requires segment { IsWithin metaslab.old.units seg }
    ensures answer { UnallocAnswer lane group seg result.0 (origin_of metaslab.old) metaslab.old.notes result.1 }
    ensures notes { metaslab.new.notes ≡ metaslab.old.notes ++ option_to_list result.1 }
    ensures stands { standing_of metaslab.new ≡ standing_of metaslab.old }
    ensures own { IfSome result.1 (λ n. right_of n ≡ lane) }
{
    if metaslab.ready().is_err() {
        return (Err(CellFault::Memory), None);
    }
    match metaslab.unalloc(lane, group, seg) {
        Ok(()) => {
            let act = Act::Unalloc { group, seg };
            (Ok(()), Some(Noted { lane, act }))
        }
        Err(fault) => (Err(CellFault::Ms(fault)), None),
    }
}

/// Gathers what the next group changed, as `Metaslab::collect`.
pub(crate) fn collect<R: SegTrees>(
    metaslab: &mut Metaslab<R>,
    lane: u8,
    group: Group,
    buf: &mut RunBuf,
) -> (Result<(), CellFault>, Option<Noted>)
    requires lane { IsLane lane }
    requires group { group.0 ≡ collected_of metaslab.old + 1 }
    requires empty { (buf.old.allocs.items ≡ []) × (buf.old.frees.items ≡ []) }
    ensures answer { CollectAnswer lane group (run_room buf.old) buf.new.allocs.items buf.new.frees.items result.0 (origin_of metaslab.old) metaslab.old.notes result.1 }
    ensures notes { metaslab.new.notes ≡ metaslab.old.notes ++ option_to_list result.1 }
    ensures stands { standing_of metaslab.new ≡ standing_of metaslab.old }
    ensures own { IfSome result.1 (λ n. right_of n ≡ 0) }
{
    if metaslab.ready().is_err() {
        return (Err(CellFault::Memory), None);
    }
    // The journal so far is legal, so what the group holds follows from its runs.
    let _ = metaslab.settled();
    match metaslab.collect(lane, group, buf) {
        Ok(()) => {
            let act = Act::Collect { group };
            (Ok(()), Some(Noted { lane, act }))
        }
        Err(fault) => (Err(CellFault::Ms(fault)), None),
    }
}

/// Brings free space into memory, as `Metaslab::load`, unless the segments differ from what the settled groups hold.
pub(crate) fn load<R: SegTrees>(
    metaslab: &mut Metaslab<R>,
    lane: u8,
    held: &[Seg],
) -> (Result<Option<u32>, AllocError>, Option<Noted>)
    requires lane { IsLane lane }
    requires segs { AreSegs metaslab.old.units held.now }
    ensures answer { LoadAnswer lane held.now result.0 (origin_of metaslab.old) metaslab.old.notes result.1 }
    ensures notes { metaslab.new.notes ≡ metaslab.old.notes ++ option_to_list result.1 }
    ensures stands { standing_of metaslab.new ≡ standing_of metaslab.old }
    ensures own { IfSome result.1 (λ n. right_of n ≡ 0) }
{
    // The journal so far is legal.
    let _ = metaslab.settled();
    match metaslab.differs(held) {
        Ok(None) => {}
        other => return (other, None),
    }
    match metaslab.load(lane, held) {
        Ok(true) => {
            let act = Act::Load;
            (Ok(None), Some(Noted { lane, act }))
        }
        Ok(false) => (Ok(None), None),
        Err(error) => (Err(error), None),
    }
}
