ghost use Rattle.std.specs.Prelude.{◌≡◌, ◌<◌, ◌≤◌, ◌+◌, ◌^◌, ℕ, List, length, drop, IfOk, IfErr, IsErr, MatchResult, ◌⊎◌};
ghost use Rattle.sm_entry.specs.Grammar.{IsFitting, size_of};
ghost use Rattle.space_map.specs.Layout.{is_block_end};
ghost use Rattle.space_map.specs.Reading.{Decodes, IsFirstFault, IsRefusal, IsRefusalAt, IsFault, IsSoundAt, TakesEntry, fault_of, found_in, long_fault, range_fault};
ghost use Rattle.space_map.specs.declared.places.Found.{Found};
ghost use Rattle.zms_units.specs.declared.faults.MapFault.{MapFault};

use crate::{DecodeFault, Found, MapKind, Run};
use sm_entry::{Entry, EntryFault, read};
use std::alloc::Global;
use zms_units::{MapCause, MapFault};

/// The longest run, in units, that a side says in one word.
pub(crate) const LONGEST_IN_ONE: u64 = 32_768;

/// Is a word, by its number, the last of a block of 512?
pub(crate) fn ends_block(at: u64) -> bool
    ensures { result ≡ is_block_end at }
{
    at % 512 == 511
}

fn check_range(units: u32, offset: u64, run: u64) -> Option<MapCause>
    requires { offset + run < 2 ^ 64 }
    ensures { result ≡ range_fault units offset run }
{
    if offset + run <= u64::from(units) {
        None
    } else {
        Some(MapCause::Range)
    }
}

fn check_long(kind: MapKind, vdev: u32, offset: u64, run: u64) -> Option<MapCause>
    requires { offset + run < 2 ^ 64 }
    ensures { result ≡ long_fault kind vdev offset run }
{
    match kind {
        MapKind::Log => None,
        MapKind::Side { units } => {
            if run <= LONGEST_IN_ONE {
                Some(MapCause::Spelling)
            } else if vdev == 0 {
                check_range(units, offset, run)
            } else {
                Some(MapCause::Vdev)
            }
        }
    }
}

/// Why the map refuses an entry that begins at a word.
fn check(kind: MapKind, at: u64, entry: Entry) -> Option<MapCause>
    requires { IsFitting entry }
    ensures { result ≡ fault_of kind at entry }
{
    match entry {
        Entry::Debug { .. } => None,
        Entry::One { offset, run, .. } => match kind {
            MapKind::Side { units } => check_range(units, offset, run),
            MapKind::Log => Some(MapCause::Spelling),
        },
        Entry::Two {
            vdev,
            offset,
            run,
            ..
        } => {
            if ends_block(at) {
                Some(MapCause::Straddle)
            } else {
                check_long(kind, vdev, offset, run)
            }
        }
    }
}

/// The run that an entry gives.
fn run_of(entry: Entry) -> Option<Found>
    ensures { result ≡ found_in entry }
{
    match entry {
        Entry::One { offset, run, kind } => Some(Found {
            vdev: 0,
            run: Run { offset, run, kind },
        }),
        Entry::Two {
            vdev,
            offset,
            run,
            kind,
        } => Some(Found {
            vdev,
            run: Run { offset, run, kind },
        }),
        Entry::Debug { .. } => None,
    }
}

/// Reads the entry that begins at a word, with the number of its words.
fn entry_at(words: &[u64], at: usize, kind: MapKind) -> Result<(Entry, usize), MapCause>
    requires { at < length words.now }
    ensures ok { IfOk result (λ (entry, size). IsSoundAt kind words.now at entry × (size ≡ size_of entry)) }
    ensures fault { IfErr result (IsFault kind at (drop at words.now)) }
{
    match read(&words[at..]) {
        Ok((entry, size)) => match check(kind, at as u64, entry) {
            None => Ok((entry, size)),
            Some(cause) => Err(cause),
        },
        Err(EntryFault::BadPad) => Err(MapCause::BadPad),
        Err(EntryFault::Short) => {
            if ends_block(at as u64) {
                Err(MapCause::Straddle)
            } else {
                Err(MapCause::Short)
            }
        }
    }
}

/// Takes the entry that begins at a word: adds its run to those found, and answers the number of the word after it.
fn take_entry(
    words: &[u64],
    at: usize,
    kind: MapKind,
    found: &mut Vec<Found>,
) -> Result<usize, DecodeFault>
    requires { at < length words.now }
    ensures ok { IfOk result (λ next. TakesEntry kind words.now at next found.old.items found.new.items) }
    ensures fault { IfErr result (IsRefusalAt kind words.now at) }
{
    match entry_at(words, at, kind) {
        Ok((entry, size)) => {
            if let Some(run) = run_of(entry) {
                if found.push(run).is_err() {
                    return Err(DecodeFault::Memory);
                }
            }
            Ok(at + size)
        }
        Err(cause) => Err(DecodeFault::Map(MapFault {
            word: at as u64,
            cause,
        })),
    }
}

/// The runs that the words of a map hold, in order; the words are whole, from the map's start. After
/// `space_map_iterate`, which reads a map block by block. One pass over the words; memory grows with the runs.
///
/// `Map` names the first entry at fault, with its first cause in the order `BadPad`, `Straddle`, `Short`, `Spelling`,
/// `Vdev` (a side's entry names a vdev other than 0) and `Range` (a side's run reaches past its units). A log is read
/// without the pool's layout: the last two are not looked for.
pub fn decode(alloc: Global, words: &[u64], kind: MapKind) -> Result<Vec<Found>, DecodeFault>
    ensures ok { IfOk result (λ found. Decodes kind words.now found.items) }
    ensures fault { IfErr result (IsRefusal kind words.now) }

    // Runs come where the words give runs, and a fault where they are at fault, if memory allows.
    ensures gives { (runs : List Found) → Decodes kind words.now runs → MatchResult result (λ found. found.items ≡ runs) (λ fault. fault ≡ DecodeFault.Memory) }
    ensures refuses { (fault : MapFault) → IsFirstFault kind words.now fault → IfErr result (λ other. (other ≡ DecodeFault.Map fault) ⊎ (other ≡ DecodeFault.Memory)) }
    ensures never { (fault : MapFault) → IsFirstFault kind words.now fault → IsErr result }
{
    let mut found = Vec::new(alloc);
    let mut at = 0;
    while at < words.len() {
        at = take_entry(words, at, kind, &mut found)?;
    }
    Ok(found)
}
