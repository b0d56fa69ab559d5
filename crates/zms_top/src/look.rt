//! One look at the metaslab for an alloc.

ghost use Rattle.std.specs.Prelude.{◌≡◌, ℕ, ◌+◌, ◌<◌, ◌≤◌, Bool, true, false, IfOk, OnOk, OnErr};
ghost use Rattle.zms_units.specs.Limits.{IsLane};
ghost use Rattle.zms_units.specs.Segments.{covered, AreSegs};
ghost use Rattle.ms_model.specs.Units.{held, is_loaded};
ghost use Rattle.ms_core.specs.State.{origin_of, settled_of, collected_of, StaysButNotes};
ghost use Rattle.zms_top.specs.Looks.{IsLook};
ghost use Rattle.zms_top.specs.Sound.{Loads, MayLoad};

use ms_core::Metaslab;
use seg_trees::PlainTrees;
use std::alloc::AllocError;
use txg_gate::Hold;
use zms_units::{MAX_UNITS, Seg};

/// Brings free space into memory where it is not there, from the runs that the settled groups hold.
pub(crate) fn load_first(
    metaslab: &mut Metaslab<PlainTrees>,
    base: &[Seg],
    lane: u8,
) -> Result<(), AllocError>
    requires lane { IsLane lane }
    requires segs { AreSegs metaslab.old.units base.now }
    requires held { is_loaded metaslab.old.notes ≡ false → (u : ℕ) → u < metaslab.old.units → covered base.now u ≡ held (origin_of metaslab.old) metaslab.old.notes (settled_of metaslab.old) u }
    ensures loads { OnOk result (Loads lane metaslab.old.notes metaslab.new.notes) }
    ensures err { OnErr result (metaslab.new.notes ≡ metaslab.old.notes) }
    ensures stays { StaysButNotes metaslab.old metaslab.new }
{
    if metaslab.loaded() {
        return Ok(());
    }
    metaslab.load(lane, base)?;
    Ok(())
}

/// Looks for `count` units in a row, in the group of a hold that is in hand, bringing free space into memory first where it is not there. After an error the
/// metaslab may be loaded.
pub(crate) fn look(
    metaslab: &mut Metaslab<PlainTrees>,
    base: &[Seg],
    lane: u8,
    hold: &Hold,
    count: u32,
) -> Result<Option<Seg>, AllocError>
    requires lane { IsLane lane }
    requires above { collected_of metaslab.old < hold.now.group.0 }
    requires near { hold.now.group.0 ≤ settled_of metaslab.old + 3 }
    requires count { (1 ≤ count) × (count ≤ MAX_UNITS) }
    requires segs { AreSegs metaslab.old.units base.now }
    requires held { is_loaded metaslab.old.notes ≡ false → (u : ℕ) → u < metaslab.old.units → covered base.now u ≡ held (origin_of metaslab.old) metaslab.old.notes (settled_of metaslab.old) u }
    ensures look { IfOk result (λ found. IsLook (origin_of metaslab.old) lane hold.now.group count metaslab.old.notes metaslab.new.notes found) }
    ensures err { OnErr result (MayLoad lane metaslab.old.notes metaslab.new.notes) }
    ensures stays { StaysButNotes metaslab.old metaslab.new }
{
    load_first(metaslab, base, lane)?;
    metaslab.ready()?;
    match metaslab.grant(lane, hold.group, count) {
        Ok(found) => Ok(found),
        Err(_) => unreachable!(),
    }
}
