ghost use Rattle.std.specs.Prelude.{◌≡◌, [], ◌∷◌, ◌<◌};
ghost use Rattle.sm_entry.specs.Layout.{one_form, form, held};
ghost use Rattle.sm_entry.specs.Grammar.{Says, BeginsTwo, IsFitting, entry_words};

use crate::bits::{decode, encode};
use crate::{Entry, SmType};

/// The word of a one-word entry.
pub(crate) fn encode_one(offset: u64, run: u64, kind: SmType) -> u64
    requires { IsFitting (Entry.One offset run kind) }
    ensures { result ∷ [] ≡ entry_words (Entry.One offset run kind) }
{
    encode(offset, 16, 47) | encode(kind.bit(), 15, 1) | encode(run - 1, 0, 15)
}

/// The two words of a two-word entry.
pub(crate) fn encode_two(vdev: u32, offset: u64, run: u64, kind: SmType) -> (u64, u64)
    requires { IsFitting (Entry.Two vdev offset run kind) }
    ensures { result.0 ∷ result.1 ∷ [] ≡ entry_words (Entry.Two vdev offset run kind) }
{
    let first = encode(3, 62, 2) | encode(run - 1, 24, 36) | encode(u64::from(vdev), 0, 24);
    let second = encode(kind.bit(), 63, 1) | encode(offset, 0, 63);
    (first, second)
}

/// The word of a debug entry.
pub(crate) fn encode_debug(action: u8, pass: u16, group: u64) -> u64
    requires { IsFitting (Entry.Debug action pass group) }
    ensures { result ∷ [] ≡ entry_words (Entry.Debug action pass group) }
{
    encode(2, 62, 2)
        | encode(u64::from(action), 60, 2)
        | encode(u64::from(pass), 50, 10)
        | encode(group, 0, 50)
}

/// The entry that one word is.
pub(crate) fn decode_one(word: u64) -> Entry
    requires { held one_form word ≡ 0 }
    ensures { Says (word ∷ []) result }
{
    Entry::One {
        offset: decode(word, 16, 47),
        run: decode(word, 0, 15) + 1,
        kind: SmType::of_bit(decode(word, 15, 1)),
    }
}

/// The entry that two words are.
pub(crate) fn decode_two(first: u64, second: u64) -> Entry
    requires { BeginsTwo first }
    ensures { Says (first ∷ second ∷ []) result }
{
    Entry::Two {
        vdev: decode(first, 0, 24) as u32,
        offset: decode(second, 0, 63),
        run: decode(first, 24, 36) + 1,
        kind: SmType::of_bit(decode(second, 63, 1)),
    }
}

/// The entry that a debug word is.
pub(crate) fn decode_debug(word: u64) -> Entry
    requires { held form word ≡ 2 }
    ensures { Says (word ∷ []) result }
{
    Entry::Debug {
        action: decode(word, 60, 2) as u8,
        pass: decode(word, 50, 10) as u16,
        group: decode(word, 0, 50),
    }
}
