ghost use Rattle.std.specs.Prelude.{◌≡◌, ◌<◌, ◌≤◌, ◌+◌, ◌*◌, ◌++◌, ℕ, List, [], map, length, vec_len, vec_capacity, IsOk, OnOk, OnErr};
ghost use Rattle.std.specs.List.{All};
ghost use Rattle.sm_entry.specs.Grammar.{IsFitting, type_bit};
ghost use Rattle.space_map.specs.Layout.{placed, laid_out, words_of};
ghost use Rattle.space_map.specs.Batches.{AreRising, HasShift, ReadsAt, batch, entry_of, found_as, words_before};
ghost use Rattle.space_map.specs.Reading.{Decodes};
ghost use Rattle.space_map.specs.declared.places.Found.{Found};
ghost use Rattle.space_map.specs.declared.places.MapKind.{MapKind};

use crate::reading::{LONGEST_IN_ONE, ends_block};
use crate::{AppendFault, Place};
use sm_entry::{Entry, SmType, write};
use zms_units::{Group, Seg};

/// The word that fills a block up before an entry of two words, as `space_map_write_seg` pads it: a debug word that
/// names nothing.
const FILLER: u64 = 0x8000_0000_0000_0000;

/// The entry of a run at a place.
pub(crate) fn run_entry(place: &Place, kind: SmType, run: Seg) -> Entry
    requires shift { HasShift place.now }
    requires fits { IsFitting (entry_of place.now kind run) }
    ensures { result ≡ entry_of place.now kind run }
{
    let offset = u64::from(run.start);
    let count = u64::from(run.count);
    match *place {
        Place::Side { .. } => {
            if count <= LONGEST_IN_ONE {
                Entry::One {
                    offset,
                    run: count,
                    kind,
                }
            } else {
                Entry::Two {
                    vdev: 0,
                    offset,
                    run: count,
                    kind,
                }
            }
        }
        Place::Log {
            vdev,
            start_sector,
            ashift,
        } => {
            let sectors = 1u64 << (ashift - 9);
            Entry::Two {
                vdev,
                offset: start_sector + offset * sectors,
                run: count * sectors,
                kind,
            }
        }
    }
}

fn type_number(kind: SmType) -> u8
    ensures { result ≡ type_bit kind }
{
    match kind {
        SmType::Alloc => 0,
        SmType::Free => 1,
    }
}

/// Adds an entry at the end, before which so many words of the map stand that are not among `words`.
fn put(words: &mut Vec<u64>, before: u64, entry: &Entry)
    requires fits { IsFitting entry.now }
    requires room { vec_len words.old + 3 ≤ vec_capacity words.old }
    ensures items { words.new.items ≡ words.old.items ++ words_of (placed (before + vec_len words.old) entry.now) }
    ensures len { vec_len words.new ≤ vec_len words.old + 3 }
    ensures capacity { vec_capacity words.new ≡ vec_capacity words.old }
{
    let mut pair = [0; 2];
    let size = write(entry, &mut pair);
    if size == 2 && ends_block(before % 512 + words.len() as u64 % 512) {
        words.push_reserved(FILLER);
    }
    words.push_reserved(pair[0]);
    if size == 2 {
        words.push_reserved(pair[1]);
    }
}

fn words_ahead(place: &Place) -> u64
    ensures { result ≡ words_before place.now }
{
    match *place {
        Place::Side { before } => before,
        Place::Log { .. } => 0,
    }
}

/// Writes a batch of one type after the words that are there: a debug entry of the type, pass 1 and the group, and then
/// the runs; nothing without runs. After `space_map_write`.
///
/// Counts of words, and so the ends of blocks of 512, begin at the place's start. One pass over the runs, with memory
/// for three words a run taken ahead; after `Memory` the words are as before.
pub fn append(
    words: &mut Vec<u64>,
    group: Group,
    kind: SmType,
    runs: &[Seg],
    place: &Place,
) -> Result<(), AppendFault>
    requires rising { AreRising runs.now }
    requires shift { HasShift place.now }
    requires fits { All IsFitting (batch place.now group.0 kind runs.now) }
    ensures ok { OnOk result (words.new.items ≡ words.old.items ++ words_of (laid_out (words_before place.now + vec_len words.old) (batch place.now group.0 kind runs.now))) }
    ensures err { OnErr result (words.new.items ≡ words.old.items) }

    // It fails for want of memory only.
    ensures nothing { runs.now ≡ [] → IsOk result }
    ensures room { vec_len words.old + 3 * (length runs.now + 1) ≤ vec_capacity words.old → IsOk result }

    // The words of the whole map give what they gave before, followed by the runs.
    ensures again { OnOk result ((map_kind : MapKind) (front : List ℕ) (found : List Found)
        → length front ≡ words_before place.now → ReadsAt place.now runs.now map_kind
        → Decodes map_kind (front ++ words.old.items) found
        → Decodes map_kind (front ++ words.new.items) (found ++ map (found_as place.now kind) runs.now)) }
{
    if runs.is_empty() {
        return Ok(());
    }
    if words.try_reserve(3 * (runs.len() + 1)).is_err() {
        return Err(AppendFault::Memory);
    }
    let before = words_ahead(place);
    let heading = Entry::Debug {
        action: type_number(kind),
        pass: 1,
        group: group.0,
    };
    put(words, before, &heading);
    for run in runs {
        put(words, before, &run_entry(place, kind, *run));
    }
    Ok(())
}
