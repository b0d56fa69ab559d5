//! Maps of words: batches that are appended, and words that are decoded.

ghost use Rattle.std.specs.Prelude.{◌≡◌, ◌≤◌, true, map, IfSome};
ghost use Rattle.std.specs.List.{All};
ghost use Rattle.sm_entry.specs.Grammar.{IsFitting};
ghost use Rattle.space_map.specs.Batches.{HasShift, sectors, batch, entry_of};
ghost use Rattle.space_map.specs.declared.places.Place.TheVariants.{Log};

use crate::entries::{kind_name, kind_of, read_words, words_text};
use crate::space::bad;
use row_tables::{Calls, Words, are_segs, read_segs};
use sm_entry::SmType;
use space_map::{AppendFault, DecodeFault, Found, MapKind, Place, append, best_size, decode};
use std::alloc::{AllocError, Global};
use std::fmt::Write;
use zms_units::{Group, MapCause, MapFault, Seg};

/// The words that the rows `append` wrote since the last row `new`.
#[derive(Drop)]
pub struct MapCalls {
    words: Vec<u64>,
}

impl MapCalls {
    pub fn new(alloc: Global) -> Self {
        MapCalls {
            words: Vec::new(alloc),
        }
    }

    /// `side BEFORE GROUP KIND START:COUNT ..` or `log VDEV SECTOR ASHIFT GROUP KIND START:COUNT ..`; the answer is what
    /// was added.
    fn append(&mut self, alloc: Global, words: &mut Words<'_>) -> Result<String, AllocError> {
        let (Some(place), Some(group)) = (place_of(words), words.number()) else {
            return bad(alloc);
        };
        let (Some(kind), Some(runs)) = (kind_of(words.word()), read_segs(alloc, words)?) else {
            return bad(alloc);
        };
        self.add(alloc, &place, Group(group), kind, &runs)
    }

    fn add(
        &mut self,
        alloc: Global,
        place: &Place,
        group: Group,
        kind: SmType,
        runs: &[Seg],
    ) -> Result<String, AllocError> {
        if !are_segs(1_000_000, runs)
            || !has_shift(place)
            || !batch_fits(place, group, kind, runs)
        {
            return bad(alloc);
        }
        let before = self.words.len();
        match append(&mut self.words, group, kind, runs, place) {
            Ok(()) => words_text(alloc, &self.words[before.min(self.words.len())..]),
            Err(AppendFault::Memory) => Err(AllocError),
        }
    }
}

impl Calls for MapCalls {
    fn answer(&mut self, alloc: Global, words: &mut Words<'_>) -> Result<String, AllocError> {
        match words.word() {
            "new" => {
                self.words.clear();
                String::from_str(alloc, "empty")
            }
            "append" => self.append(alloc, words),
            "decode" => match map_kind_of(words) {
                Some(kind) => decoded(alloc, words, kind),
                None => bad(alloc),
            },
            "best" => match (words.small(), read_segs(alloc, words)?) {
                (Some(units), Some(free)) if units > 0 && are_segs(units, &free) => {
                    format!(in alloc; "{}", best_size(&free, units))
                }
                _ => bad(alloc),
            },
            _ => bad(alloc),
        }
    }
}

fn place_of(words: &mut Words<'_>) -> Option<Place> {
    match words.word() {
        "side" => Some(Place::Side {
            before: words.number()?,
        }),
        "log" => Some(Place::Log {
            vdev: words.small()?,
            start_sector: words.number()?,
            ashift: words.byte()?,
        }),
        _ => None,
    }
}

fn map_kind_of(words: &mut Words<'_>) -> Option<MapKind> {
    match words.word() {
        "side" => Some(MapKind::Side {
            units: words.small()?,
        }),
        "log" => Some(MapKind::Log),
        _ => None,
    }
}

fn has_shift(place: &Place) -> bool
    ensures { result ≡ true → HasShift place.now }
{
    match *place {
        Place::Side { .. } => true,
        Place::Log { ashift, .. } => 9 <= ashift && ashift <= 12,
    }
}

/// How many sectors of 512 bytes a unit has.
fn sectors_of(ashift: u8) -> Option<u64>
    ensures { IfSome result (λ count. (count ≡ sectors ashift) × (count ≤ 8)) }
{
    match ashift {
        9 => Some(1),
        10 => Some(2),
        11 => Some(4),
        12 => Some(8),
        _ => None,
    }
}

/// Whether the entry of a run in a log fits its words.
fn log_run_fits(vdev: u32, start_sector: u64, ashift: u8, kind: SmType, run: Seg) -> bool
    ensures { result ≡ true → IsFitting (entry_of (Log vdev start_sector ashift) kind run) }
{
    match sectors_of(ashift) {
        Some(_) => run.count >= 1 && vdev < 1 << 24 && start_sector < 1 << 40,
        None => false,
    }
}

/// Whether the entry of a run fits its words.
fn run_fits(place: &Place, kind: SmType, run: Seg) -> bool
    ensures { result ≡ true → IsFitting (entry_of place.now kind run) }
{
    match *place {
        Place::Side { .. } => run.count >= 1,
        Place::Log {
            vdev,
            start_sector,
            ashift,
        } => log_run_fits(vdev, start_sector, ashift, kind, run),
    }
}

/// Whether the entries of all runs fit.
fn runs_fit(place: &Place, kind: SmType, runs: &[Seg]) -> bool
    ensures { result ≡ true → All IsFitting (map (entry_of place.now kind) runs.now) }
{
    match runs {
        [] => true,
        [run, rest @ ..] => run_fits(place, kind, *run) && runs_fit(place, kind, rest),
    }
}

/// Whether the entries of a batch fit.
fn batch_fits(place: &Place, group: Group, kind: SmType, runs: &[Seg]) -> bool
    ensures { result ≡ true → All IsFitting (batch place.now group.0 kind runs.now) }
{
    group.0 < 1 << 50 && runs_fit(place, kind, runs)
}

/// The runs of the words that are left, each `VDEV OFFSET RUN KIND`; or the word of their first fault, with its cause.
fn decoded(alloc: Global, words: &mut Words<'_>, kind: MapKind) -> Result<String, AllocError> {
    let Some(given) = read_words(alloc, words)? else {
        return bad(alloc);
    };
    match decode(alloc, &given, kind) {
        Ok(found) => found_text(alloc, &found),
        Err(DecodeFault::Map(fault)) => fault_text(alloc, fault),
        Err(DecodeFault::Memory) => Err(AllocError),
    }
}

fn found_text(alloc: Global, found: &[Found]) -> Result<String, AllocError> {
    let mut text = String::from_str(alloc, "runs")?;
    for Found { vdev, run } in found {
        let kind = kind_name(run.kind);
        write!(text, " {vdev} {} {} {kind}", run.offset, run.run)?;
    }
    Ok(text)
}

fn fault_text(alloc: Global, fault: MapFault) -> Result<String, AllocError> {
    let cause = match fault.cause {
        MapCause::BadPad => "badpad",
        MapCause::Short => "short",
        MapCause::Straddle => "straddle",
        MapCause::Spelling => "spelling",
        MapCause::Vdev => "vdev",
        MapCause::Range => "range",
    };
    format!(in alloc; "word {} {cause}", fault.word)
}
