//! One line of a command file.

ghost use Rattle.std.specs.Prelude.{◌≡◌, ℕ, ◌≤◌, decimal, codes, IsTrue, IfSome, IfNone, ◌↔◌};
ghost use Rattle.cmd_text.specs.declared.script.What.{What};
ghost use Rattle.cmd_text.specs.declared.lines.Word.{Word};
ghost use Rattle.cmd_text.specs.Grammar.{Reading, IsPassedOver, IsWhat, Says};
ghost use Rattle.cmd_text.specs.Reading.{AreNumbers, word_text, what_text, what_of, reading_of, IsBehind, IsNameless, HasNameInText, HasNamesInText};

use crate::fields::{MAX_NUMBER, class_of, field, name_of, number_within, two_numbers};
use crate::script::What;
use zms_units::{Class, MAX_COMMANDS};

/// The word of a command that has fields behind it.
#[derive(Clone, Copy, Debug, PartialEq, Eq)]
pub enum Word {
    AllocWord,
    FreeWord,
    FreeSegWord,
    LoadWord,
    UnloadWord,
    InitWord,
    TrimWord,
    AutoTrimWord,
}

/// What a lane asks for. The names lie in the text.
#[derive(Debug, Drop)]
pub enum Asks<'a> {
    AllocAs {
        name: &'a str,
        size: u64,
        class: Class,
        copies: u8,
    },
    FreeAs {
        name: &'a str,
    },
    Nameless(What),
}

/// A line as it was read.
#[derive(Debug, Drop)]
pub enum Line<'a> {
    PassedLine,
    LaneLine { lane: u8, asks: Asks<'a> },
    MakeLine { number: u32, count: u32 },
}

/// Is this line passed over?
fn is_passed_over(line: &[u8]) -> bool
    ensures { IsTrue result ↔ IsPassedOver line.now }
{
    line.is_empty() || line[0] == b'#'
}

/// The command of a word.
fn word_of(word: &[u8]) -> Option<Word>
    ensures some { IfSome result (λ w. word_text w ≡ word.now) }
    ensures none { IfNone result ((w : Word) → word_text w ≡ word.now → ⊥) }
{
    if word == b"alloc".as_slice() {
        Some(Word::AllocWord)
    } else if word == b"free".as_slice() {
        Some(Word::FreeWord)
    } else if word == b"freeseg".as_slice() {
        Some(Word::FreeSegWord)
    } else if word == b"load".as_slice() {
        Some(Word::LoadWord)
    } else if word == b"unload".as_slice() {
        Some(Word::UnloadWord)
    } else if word == b"init".as_slice() {
        Some(Word::InitWord)
    } else if word == b"trim".as_slice() {
        Some(Word::TrimWord)
    } else if word == b"autotrim".as_slice() {
        Some(Word::AutoTrimWord)
    } else {
        None
    }
}

/// The number of a vdev.
fn vdev_of(text: &[u8]) -> Option<u8>
    ensures some { IfSome result (λ v. (decimal v ≡ text.now) × (v ≤ 255)) }
    ensures none { IfNone result ((v : ℕ) → v ≤ 255 → decimal v ≡ text.now → ⊥) }
{
    let vdev = number_within(text, 255)?;
    Some(vdev as u8)
}

/// The vdev and the index of a metaslab.
fn place_of(text: &[u8]) -> Option<(u8, u16)>
    ensures some { IfSome result (λ p. AreNumbers text.now 255 65535 p.0 p.1) }
    ensures none { IfNone result ((v i : ℕ) → AreNumbers text.now 255 65535 v i → ⊥) }
{
    let (vdev, index) = two_numbers(text, 255, 65_535)?;
    Some((vdev as u8, index as u16))
}

/// The fields of an alloc.
fn read_alloc(text: &[u8]) -> Option<Asks<'_>>
    ensures some { IfSome result (λ a. IsBehind (codes "alloc") text.now (what_of a)) }
    ensures none { IfNone result ((w : What) → IsBehind (codes "alloc") text.now w → ⊥) }
    ensures name { IfSome result HasNameInText }
{
    let (name, rest) = field(text)?;
    let (size, rest) = field(rest)?;
    let (class, copies) = field(rest)?;
    let name = name_of(name)?;
    let size = number_within(size, MAX_NUMBER)?;
    let class = class_of(class)?;
    let copies = number_within(copies, 255)? as u8;
    Some(Asks::AllocAs {
        name,
        size,
        class,
        copies,
    })
}

/// The fields of a freeseg.
fn read_seg(text: &[u8]) -> Option<What>
    ensures some { IfSome result (λ w. IsBehind (codes "freeseg") text.now w) }
    ensures none { IfNone result ((w : What) → IsBehind (codes "freeseg") text.now w → ⊥) }
    ensures name { IfSome result IsNameless }
{
    let (vdev, rest) = field(text)?;
    let vdev = vdev_of(vdev)?;
    let (offset, size) = two_numbers(rest, MAX_NUMBER, MAX_NUMBER)?;
    Some(What::FreeSeg { vdev, offset, size })
}

/// What the fields behind a word ask for.
fn read_fields(word: Word, text: &[u8]) -> Option<Asks<'_>>
    ensures some { IfSome result (λ a. IsBehind (word_text word) text.now (what_of a)) }
    ensures none { IfNone result ((w : What) → IsBehind (word_text word) text.now w → ⊥) }
    ensures name { IfSome result HasNameInText }
{
    match word {
        Word::AllocWord => read_alloc(text),
        Word::FreeWord => {
            let name = name_of(text)?;
            Some(Asks::FreeAs { name })
        }
        Word::FreeSegWord => {
            let what = read_seg(text)?;
            Some(Asks::Nameless(what))
        }
        Word::LoadWord => {
            let (vdev, index) = place_of(text)?;
            Some(Asks::Nameless(What::Load { vdev, index }))
        }
        Word::UnloadWord => {
            let (vdev, index) = place_of(text)?;
            Some(Asks::Nameless(What::Unload { vdev, index }))
        }
        Word::InitWord => {
            let vdev = vdev_of(text)?;
            Some(Asks::Nameless(What::Init { vdev }))
        }
        Word::TrimWord => {
            let vdev = vdev_of(text)?;
            Some(Asks::Nameless(What::Trim { vdev }))
        }
        Word::AutoTrimWord => {
            let vdev = vdev_of(text)?;
            Some(Asks::Nameless(What::AutoTrim { vdev }))
        }
    }
}

/// What a line asks for behind its lane.
fn read_what(text: &[u8]) -> Option<Asks<'_>>
    ensures some { IfSome result (λ a. IsWhat (what_of a) × (what_text (what_of a) ≡ text.now)) }
    ensures none { IfNone result ((w : What) → IsWhat w → what_text w ≡ text.now → ⊥) }
    ensures name { IfSome result HasNameInText }
{
    if text == b"sync".as_slice() {
        return Some(Asks::Nameless(What::Sync));
    }
    let (word, rest) = field(text)?;
    let word = word_of(word)?;
    read_fields(word, rest)
}

/// What a line says; none where it is not in the grammar. How long it is is not looked at.
pub fn read_line(line: &[u8]) -> Option<Line<'_>>
    ensures some { (n : ℕ) → IfSome result (λ l. Says n line.now (reading_of n l)) }
    ensures none { IfNone result ((n : ℕ) (r : Reading) → Says n line.now r → ⊥) }
    ensures name { IfSome result HasNamesInText }
{
    if is_passed_over(line) {
        return Some(Line::PassedLine);
    }
    let (first, rest) = field(line)?;
    if first == b"make".as_slice() {
        let (number, count) = two_numbers(rest, 4_294_967_295, MAX_COMMANDS as u64)?;
        if count == 0 {
            return None;
        }
        return Some(Line::MakeLine {
            number: number as u32,
            count: count as u32,
        });
    }
    let lane = number_within(first, 16)?;
    if lane == 0 {
        return None;
    }
    let asks = read_what(rest)?;
    Some(Line::LaneLine {
        lane: lane as u8,
        asks,
    })
}
