//! One entry of a space map, in OpenZFS's words of 64 bits.
//!
//! `specs/Layout.antt` has the bits of each field once, and `specs/Grammar.antt` says which words are which entry. To
//! the layer above, `write` gives exactly an entry's words, in one word or two, and leaves the rest of the buffer as
//! it was (`words`, `size`, `stays`); these words say the entry whatever follows them, and no others say it (`again`,
//! `only`). `read` answers exactly the entry that words begin with and its number of words (`says`, `only`), which
//! fits its bits and has these words (`fits`, `words`), and else `BadPad` or `Short`, each exactly where it is
//! defined (`bad_pad`, `short`). No call takes memory.
//!
//! That the bits are those of OpenZFS is not for a contract to say: worked words show it.
#![tactic(auto)]

ghost use Rattle.std.specs.Prelude.{◌≡◌, ℕ, ◌<◌, ◌≤◌, ◌↔◌, List, ◌++◌, length, slice_index, take, drop, IfOk};
ghost use Rattle.sm_entry.specs.Grammar.{Says, HasBadPad, IsCutShort, IsFitting, size_of, entry_words};

mod bits;
mod words;

use bits::decode;
use words::{decode_debug, decode_one, decode_two, encode_debug, encode_one, encode_two};

/// What an entry says of its units: that they were allocated, or freed. After OpenZFS's `maptype_t`.
#[derive(Clone, Copy, Debug, PartialEq, Eq)]
pub enum SmType {
    Alloc,
    Free,
}

impl SmType {
    ghost use Rattle.sm_entry.specs.Grammar.{type_bit};

    /// Its bit in a word.
    pub(crate) fn bit(self) -> u64
        ensures { result ≡ type_bit self }
    {
        match self {
            SmType::Alloc => 0,
            SmType::Free => 1,
        }
    }

    /// The type whose bit this is.
    pub(crate) fn of_bit(bit: u64) -> Self
        requires { bit < 2 }
        ensures { type_bit result ≡ bit }
    {
        if bit == 0 {
            SmType::Alloc
        } else {
            SmType::Free
        }
    }
}

/// An entry of a space map. Offsets and runs count units of `2^sm_shift` bytes from the map's start.
///
/// After OpenZFS's `sys/space_map.h`: the single-word form (`SM_*`), the two-word form (`SM2_*`) and the debug form
/// (`SM_DEBUG_*`).
#[derive(Clone, Copy, Debug, PartialEq, Eq)]
pub enum Entry {
    /// `run` units, at most `2^15`, from `offset` on, which is below `2^47`.
    One {
        offset: u64,
        run: u64,
        kind: SmType,
    },
    /// `run` units, at most `2^36`, of a vdev, which is below `2^24`, from `offset` on, which is below `2^63`.
    Two {
        vdev: u32,
        offset: u64,
        run: u64,
        kind: SmType,
    },
    /// A note of when the entries after it were written: an action below 4, a pass of sync below `2^10`, and the low 50
    /// bits of a transaction group.
    Debug {
        action: u8,
        pass: u16,
        group: u64,
    },
}

/// Why words don't begin with an entry.
#[derive(Clone, Copy, Debug, PartialEq, Eq)]
pub enum EntryFault {
    /// The pad bits of a two-word entry are not 0.
    BadPad,
    /// A two-word entry has no second word.
    Short,
}

/// Writes an entry at the front of `out`, which has room for two words, and answers how many it took. Each field has to
/// fit its bits. After `space_map_write_seg`.
#[tactic(auto, using(crate::proofs::Writing::writing))]
pub fn write(entry: &Entry, out: &mut [u64]) -> usize
    requires fits { IsFitting entry.now }
    requires room { 2 ≤ length out.old }
    ensures size { result ≡ size_of entry.now }
    ensures words { take result out.new ≡ entry_words entry.now }
    ensures stays { drop result out.new ≡ drop result out.old }

    // What was written says this entry, whatever follows, and nothing else says it.
    ensures again { (rest : List ℕ) → Says (take result out.new ++ rest) entry.now }
    ensures only { (words : List ℕ) → Says words entry.now → take result words ≡ take result out.new }
{
    match *entry {
        Entry::One { offset, run, kind } => {
            out[0] = encode_one(offset, run, kind);
            1
        }
        Entry::Two {
            vdev,
            offset,
            run,
            kind,
        } => {
            let (first, second) = encode_two(vdev, offset, run, kind);
            out[0] = first;
            out[1] = second;
            2
        }
        Entry::Debug {
            action,
            pass,
            group,
        } => {
            out[0] = encode_debug(action, pass, group);
            1
        }
    }
}

/// Reads the entry that `words` begins with, and answers it with the number of its words. After `space_map_iterate`.
///
/// `BadPad` comes exactly where the first word has the form of a two-word entry and its pad bits are not 0, `Short`
/// exactly where it has that form, its pad bits are 0 and there is no second word.
pub fn read(words: &[u64]) -> Result<(Entry, usize), EntryFault>
    requires { 0 < length words.now }
    ensures says { IfOk result (λ (entry, size). Says words.now entry × (size ≡ size_of entry)) }
    ensures only { (entry : Entry) → Says words.now entry → result ≡ Ok (entry, size_of entry) }
    ensures bad_pad { (result ≡ Err EntryFault.BadPad) ↔ HasBadPad (slice_index words.now 0) }
    ensures short { (result ≡ Err EntryFault.Short) ↔ IsCutShort words.now }

    // What was read can be written, as these words.
    ensures fits { IfOk result (λ (entry, size). IsFitting entry) }
    ensures words { IfOk result (λ (entry, size). words.now ≡ entry_words entry ++ drop size words.now) }
{
    let first = words[0];
    if decode(first, 63, 1) == 0 {
        return Ok((decode_one(first), 1));
    }
    if decode(first, 62, 2) == 2 {
        return Ok((decode_debug(first), 1));
    }
    if decode(first, 60, 2) != 0 {
        return Err(EntryFault::BadPad);
    }
    let second = words.get(1).ok_or(EntryFault::Short)?;
    Ok((decode_two(first, *second), 2))
}
