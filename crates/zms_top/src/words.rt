//! The words of the command line, read by hand: each form is what its words are (`specs/Words.antt`).

ghost use Rattle.std.specs.Prelude.{◌≡◌, ℕ, ◌^◌, ◌<◌, List, [], ◌∷◌, ◌++◌, ◌↔◌, map, string_bytes, Some, IsTrue, IsSome, IfSome, IfNone};
ghost use Rattle.std.specs.List.{list_all};
ghost use Rattle.zms_top.specs.Words.{is_pool_byte, Asks, AsksNothing, IsPoolName, AreOfPool, ArePoolAndGroup, group_word};
ghost use Rattle.zms_top.specs.declared.words.Asked.{Asked};

use cmd_text::fields::{is_digit, is_lowercase, numeral};
use meta_store::At;
use vdev_text::{Vdevs, read_spec};
use zms_units::Group;

/// What the words of the command line ask for.
#[derive(Debug, Drop)]
pub enum Asked {
    /// A new pool of these vdevs.
    Create { vdevs: Vdevs },
    /// A run of a command file over the pool as it is at this group.
    Run { at: At },
    /// The report of the pool as it is at this group.
    Report { at: At },
}

/// What stands behind `head`, where the text begins with it.
fn after<'a>(text: &'a [u8], head: &[u8]) -> Option<&'a [u8]>
    ensures some { IfSome result (λ rest. head.now ++ rest.now ≡ text.now) }
    ensures none { IfNone result ((rest : List ℕ) → head.now ++ rest ≡ text.now → ⊥) }
{
    text.strip_prefix(head)
}

/// Is each byte one of a pool's name?
fn are_pool_bytes(bytes: &[u8]) -> bool
    ensures { result ≡ list_all is_pool_byte bytes.now }
{
    bytes.iter().all(|b| is_lowercase(*b) || is_digit(*b) || *b == b'_' || *b == b'.' || *b == b'/')
}

/// Is this a pool's name: 1 to 64 bytes of a to z, 0 to 9, `_`, `.` and `/`?
fn is_pool_name(name: &[u8]) -> bool
    ensures { IsTrue result ↔ IsPoolName name.now }
{
    !name.is_empty() && name.len() <= 64 && are_pool_bytes(name)
}

/// The end of the numbers of the command line, which have at most 19 digits.
const NUMBERS_END: u64 = 10_000_000_000_000_000_000;

/// The group of an option `--group=G`.
fn group_of_word(word: &[u8]) -> Option<u64>
    ensures some { IfSome result (λ group. (group_word group ≡ word.now) × (group < 10 ^ 19)) }
    ensures none { IfNone result ((group : ℕ) → group < 10 ^ 19 → group_word group ≡ word.now → ⊥) }
{
    let group = numeral(after(word, b"--group=")?)?;
    if group < NUMBERS_END {
        Some(group)
    } else {
        None
    }
}

/// The group of two words of which one is a pool's name and the other the option.
fn group_among(one: &[u8], two: &[u8]) -> Option<u64>
    ensures some { IfSome result (λ group. (name : List ℕ) × (IsPoolName name × ArePoolAndGroup one.now two.now name group)) }
    ensures none { IfNone result ((name : List ℕ) (group : ℕ) → IsPoolName name → ArePoolAndGroup one.now two.now name group → ⊥) }
{
    if is_pool_name(one) {
        return group_of_word(two);
    }
    if is_pool_name(two) {
        return group_of_word(one);
    }
    None
}

/// What a command and two words behind it ask for.
fn read_three(command: &str, one: &[u8], two: &[u8]) -> Option<Asked>
    ensures asks { IfSome result (λ asked. Asks (command.now ∷ one.now ∷ two.now ∷ []) asked) }
    ensures nothing { IfNone result (AsksNothing (command.now ∷ one.now ∷ two.now ∷ [])) }
{
    if command == "run" {
        let group = group_among(one, two)?;
        return Some(Asked::Run {
            at: At::Group(Group(group)),
        });
    }
    if command == "report" {
        let group = group_among(one, two)?;
        return Some(Asked::Report {
            at: At::Group(Group(group)),
        });
    }
    if command != "create" || !is_pool_name(one) {
        return None;
    }
    let vdevs = read_spec(two)?;
    Some(Asked::Create { vdevs })
}

/// What a command and one word behind it ask for.
fn read_two(command: &str, pool: &[u8]) -> Option<Asked>
    ensures asks { IfSome result (λ asked. Asks (command.now ∷ pool.now ∷ []) asked) }
    ensures nothing { IfNone result (AsksNothing (command.now ∷ pool.now ∷ [])) }
{
    if !is_pool_name(pool) {
        return None;
    }
    if command == "run" {
        return Some(Asked::Run { at: At::Newest });
    }
    if command == "report" {
        return Some(Asked::Report { at: At::Newest });
    }
    None
}

/// What the words of the command line ask for; none exactly where they are outside the grammar: `create POOL SPEC`, or `run
/// POOL` or `report POOL`, which may have one option `--group=G` in front of the pool or behind it.
pub fn read_words(words: &[String]) -> Option<Asked>
    ensures asks { IfSome result (λ asked. Asks (map string_bytes words.now) asked) }
    ensures nothing { IfNone result (AsksNothing (map string_bytes words.now)) }
    ensures only { (asked : Asked) → Asks (map string_bytes words.now) asked → result ≡ Some asked }
{
    match words {
        [command, pool] => read_two(command.as_str(), pool.as_bytes()),
        [command, one, two] => read_three(command.as_str(), one.as_bytes(), two.as_bytes()),
        _ => None,
    }
}

/// The pool's name, where the words are in the grammar: the first word behind the command that is one.
pub fn pool_name(words: &[String]) -> Option<&str>
    ensures some { IfSome result (λ name. IsPoolName name.now × AreOfPool (map string_bytes words.now) name.now) }
    ensures asked { IsSome result ↔ ((asked : Asked) × Asks (map string_bytes words.now) asked) }
{
    read_words(words)?;
    let second = words[1].as_str();
    if is_pool_name(second.as_bytes()) {
        return Some(second);
    }
    Some(words[2].as_str())
}
