// The held units of a metaslab, from its words.
ghost use Rattle.std.specs.Prelude.{◌≡◌, ℕ, ◌+◌, ◌<◌, ◌≤◌, ◌&&◌, nat_le, nat_lt, if◌then◌else◌, false, length, slice_index_or, IfOk, IfErr};
ghost use Rattle.zms_units.specs.Runs.{AreMaximalRuns, units_in};
ghost use Rattle.zms_units.specs.Segments.{total_of};
ghost use Rattle.space_map.specs.Reading.{Decodes};
ghost use Rattle.space_map.specs.Replay.{is_alloc, is_held, run_covers};
ghost use Rattle.space_map.specs.declared.places.MapKind.TheVariants.{Side};
ghost use Rattle.meta_store.specs.Finding.{AreWithin, IsWordsFault};
ghost use Rattle.meta_store.specs.Words.{AreHeldRuns};

use crate::FoundFault;
use sm_entry::SmType;
use space_map::{DecodeFault, Found, MapKind, decode};
use std::alloc::{AllocError, Global};
use zms_units::{Damage, MsId, Seg, unit_count};

/// Writes whether the units from `start` to `end - 1` are held.
pub(crate) fn put_range(held: &mut [bool], start: usize, end: usize, value: bool)
    requires rising { start ≤ end }
    requires within { end ≤ length held.old }
    ensures { (u : ℕ) → slice_index_or held.new u false ≡ (if nat_le start u && nat_lt u end then value else slice_index_or held.old u false) }
{
    for unit in start..end {
        held[unit] = value;
    }
}

fn is_alloc(kind: SmType) -> bool
    ensures { result ≡ is_alloc kind }
{
    match kind {
        SmType::Alloc => true,
        SmType::Free => false,
    }
}

/// Writes what one run says of the units that it covers.
fn put_run(held: &mut [bool], found: &Found)
    requires { found.now.run.offset + found.now.run.run ≤ length held.old }
    ensures { (u : ℕ) → slice_index_or held.new u false ≡ (if run_covers u found.now then is_alloc found.now.run.kind else slice_index_or held.old u false) }
{
    let start = found.run.offset as usize;
    let end = (found.run.offset + found.run.run) as usize;
    put_range(held, start, end, is_alloc(found.run.kind));
}

/// Which of so many units are held: of each unit the last run that covers it says so.
fn held_units(alloc: Global, found: &[Found], units: u32) -> Result<Vec<bool>, AllocError>
    requires { AreWithin units found.now }
    ensures len { IfOk result (λ held. length held.items ≡ units) }
    ensures held { IfOk result (λ held. (u : ℕ) → slice_index_or held.items u false ≡ is_held found.now u) }
{
    let mut held = Vec::new(alloc);
    held.resize(units as usize, false)?;
    for run in found {
        put_run(&mut held, run);
    }
    Ok(held)
}

/// The maximal runs of the units that are held. Linear in the units.
pub(crate) fn maximal_runs(alloc: Global, held: &[bool]) -> Result<Vec<Seg>, AllocError>
    requires { length held.now ≤ 131072 }
    ensures { IfOk result (λ runs. AreMaximalRuns (λ u. slice_index_or held.now u false) (length held.now) runs.items) }
{
    let mut runs = Vec::new(alloc);
    let mut start = 0;
    for unit in 0..held.len() {
        if !held[unit] {
            if start < unit {
                runs.push(Seg {
                    start: start as u32,
                    count: (unit - start) as u32,
                })?;
            }
            start = unit + 1;
        }
    }
    if start < held.len() {
        runs.push(Seg {
            start: start as u32,
            count: (held.len() - start) as u32,
        })?;
    }
    Ok(runs)
}

/// The runs that the words of a side hold, as they stand in the words.
fn decode_side(alloc: Global, words: &[u64], id: MsId, units: u32) -> Result<Vec<Found>, FoundFault>
    ensures ok { IfOk result (λ found. Decodes (Side units) words.now found.items) }
    ensures fault { (held : ℕ) → IfErr result (IsWordsFault id words.now units held) }
{
    match decode(alloc, words, MapKind::Side { units }) {
        Ok(found) => Ok(found),
        Err(DecodeFault::Memory) => Err(FoundFault::Memory),
        Err(DecodeFault::Map(fault)) => Err(FoundFault::Damaged {
            id,
            damage: Damage::Word(fault),
        }),
    }
}

/// The maximal runs of the units that runs of a map hold.
fn gathered(alloc: Global, found: &[Found], units: u32) -> Result<Vec<Seg>, AllocError>
    requires most { units ≤ 131072 }
    requires within { AreWithin units found.now }
    ensures { IfOk result (λ runs. AreMaximalRuns (is_held found.now) units runs.items) }
{
    let held = held_units(alloc, found, units)?;
    maximal_runs(alloc, &held)
}

/// The units that the words of a side hold, as maximal runs, if they are as many as they should be. Linear in the units
/// and in what the words' runs cover.
pub(crate) fn runs_of(
    alloc: Global,
    words: &[u64],
    id: MsId,
    units: u32,
    held: u64,
) -> Result<Vec<Seg>, FoundFault>
    requires { units ≤ 131072 }
    ensures runs { IfOk result (λ runs. AreHeldRuns words.now units runs.items) }
    ensures count { IfOk result (λ runs. total_of runs.items ≡ held) }
    ensures fault { IfErr result (IsWordsFault id words.now units held) }
{
    let found = decode_side(alloc, words, id, units)?;
    let runs = gathered(alloc, &found, units)?;
    let count = u64::from(unit_count(&runs));
    if count != held {
        return Err(FoundFault::Damaged {
            id,
            damage: Damage::Counts {
                kept: held,
                found: count,
            },
        });
    }
    Ok(runs)
}
