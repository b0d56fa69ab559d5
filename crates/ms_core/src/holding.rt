//! What the groups up to one hold, unit by unit, by the base and the journal.
ghost use Rattle.std.specs.Prelude.{◌≡◌, ℕ, ◌<◌, false, if◌then◌else◌, length, slice_index_or, IfOk};
ghost use Rattle.zms_units.specs.Segments.{covers, covered};
ghost use Rattle.ms_model.specs.Origin.{Origin};
ghost use Rattle.ms_model.specs.Units.{held, act_within, act_on, is_grant, LastAct};
ghost use Rattle.ms_core.specs.Differences.{DiffersFirst};

use ms_model::{Act, Noted};
use std::alloc::{AllocError, Global};
use zms_units::{Group, Seg};

/// Sets the units of a segment, as far as the table has them.
fn mark(table: &mut [bool], seg: Seg, held: bool)
    ensures { (u : ℕ) → u < length table.old → slice_index_or table.new u false ≡ (if covers seg u then held else slice_index_or table.old u false) }
{
    let end = (seg.start as usize + seg.count as usize).min(table.len());
    for unit in seg.start as usize..end {
        table[unit] = held;
    }
}

/// Does to the table what a note does to what the groups up to this one hold.
fn take_in(table: &mut [bool], note: Noted, group: Group)
    ensures { (u : ℕ) (so_far : LastAct) → u < length table.old → slice_index_or table.old u false ≡ is_grant so_far → slice_index_or table.new u false ≡ is_grant (if act_within group.0 note.act then act_on u so_far note.lane note.act else so_far) }
{
    match note.act {
        Act::Grant { group: in_, seg } if in_.0 <= group.0 => mark(table, seg, true),
        Act::Free { group: in_, seg } | Act::Unalloc { group: in_, seg } if in_.0 <= group.0 => {
            mark(table, seg, false)
        }
        _ => {}
    }
}

/// From what the base holds to what the groups up to this one hold.
fn replay(table: &mut [bool], notes: &[Noted], group: Group)
    ensures { (o : Origin) → ((u : ℕ) → u < length table.old → slice_index_or table.old u false ≡ o.base u) → (u : ℕ) → u < length table.old → slice_index_or table.new u false ≡ held o notes.now group.0 u }
{
    for note in notes {
        take_in(table, *note, group);
    }
}

/// Which of so many units the segments cover.
fn table_of(alloc: Global, segs: &[Seg], units: u32) -> Result<Vec<bool>, AllocError>
    ensures len { IfOk result (λ table. length table.items ≡ units) }
    ensures covered { IfOk result (λ table. (u : ℕ) → u < units → slice_index_or table.items u false ≡ covered segs.now u) }
{
    let mut table = vec![in alloc; false; units as usize]?;
    for seg in segs {
        mark(&mut table, *seg, true);
    }
    Ok(table)
}

/// The first place at which two tables differ.
fn first_difference(one: &[bool], other: &[bool], units: u32) -> Option<u32>
    requires { (length one.now ≡ units) × (length other.now ≡ units) }
    ensures { DiffersFirst (λ u. slice_index_or one.now u false) (λ u. slice_index_or other.now u false) units result }
{
    for unit in 0..units {
        if one[unit as usize] != other[unit as usize] {
            return Some(unit);
        }
    }
    None
}

/// The lowest of so many units at which the segments and what the groups up to this one hold differ. Costs the units, and
/// those of each segment of the notes.
pub(crate) fn differs_at(
    alloc: Global,
    base: &[Seg],
    notes: &[Noted],
    group: Group,
    units: u32,
    segs: &[Seg],
) -> Result<Option<u32>, AllocError>
    ensures { IfOk result (λ found. (o : Origin) → o.base ≡ covered base.now → DiffersFirst (covered segs.now) (held o notes.now group.0) units found) }
{
    let mut table = table_of(alloc, base, units)?;
    replay(&mut table, notes, group);
    let other = table_of(alloc, segs, units)?;
    Ok(first_difference(&other, &table, units))
}
