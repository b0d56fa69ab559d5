//! The pieces of a line: what stands before a space or a line feed, numbers, names and classes.

ghost use Rattle.std.specs.Prelude.{◌≡◌, ℕ, ◌+◌, ◌^◌, ◌<◌, ◌≤◌, List, ◌∷◌, ◌++◌, length, take, slice_index, decimal, IsTrue, ◌↔◌, IfSome, IfNone};
ghost use Rattle.std.specs.List.{list_all};
ghost use Rattle.zms_units.specs.declared.places.Class.{Class};
ghost use Rattle.cmd_text.specs.Words.{is_lowercase, is_digit, is_name_byte, IsName, IsPlain};
ghost use Rattle.zms_units.specs.Classes.{class_word};
ghost use Rattle.cmd_text.specs.Reading.{Lacks, IsFirstLine, AreNumbers};

use zms_units::Class;

/// The greatest number that is read.
pub const MAX_NUMBER: u64 = 9_223_372_036_854_775_807;

/// The index of the first such byte, or the text's length.
fn position_of(text: &[u8], byte: u8) -> usize
    ensures within { result ≤ length text.now }
    ensures before { Lacks byte (take result text.now) }
    ensures found { result < length text.now → slice_index text.now result ≡ byte }
{
    for (i, b) in text.iter().enumerate() {
        if *b == byte {
            return i;
        }
    }
    text.len()
}

/// The field up to the first space, and what stands behind the space.
pub fn field(text: &[u8]) -> Option<(&[u8], &[u8])>
    ensures some { IfSome result (λ p. (p.0.now ++ (32 ∷ p.1.now) ≡ text.now) × Lacks 32 p.0.now) }
    ensures none { IfNone result (Lacks 32 text.now) }
{
    let at = position_of(text, b' ');
    if at == text.len() {
        return None;
    }
    Some((&text[..at], &text[at + 1..]))
}

/// The first line without its line feed, and what stands behind it.
pub fn first_line(text: &[u8]) -> (&[u8], &[u8])
    ensures { IsFirstLine text.now result.0.now result.1.now }
{
    let at = position_of(text, b'\n');
    if at == text.len() {
        return (text, &text[at..]);
    }
    (&text[..at], &text[at + 1..])
}

/// Is this byte `a` to `z`?
pub fn is_lowercase(byte: u8) -> bool
    ensures { result ≡ is_lowercase byte }
{
    b'a' <= byte && byte <= b'z'
}

/// Is this byte `0` to `9`?
pub fn is_digit(byte: u8) -> bool
    ensures { result ≡ is_digit byte }
{
    b'0' <= byte && byte <= b'9'
}

/// Is each byte a digit?
fn are_digits(bytes: &[u8]) -> bool
    ensures { result ≡ list_all is_digit bytes.now }
{
    bytes.iter().all(|b| is_digit(*b))
}

/// Is each byte one of a block's name?
fn are_name_bytes(bytes: &[u8]) -> bool
    ensures { result ≡ list_all is_name_byte bytes.now }
{
    bytes.iter().all(|b| is_lowercase(*b) || is_digit(*b))
}

/// Is this a block's name: 1 to 16 bytes of a to z and 0 to 9?
fn is_name(name: &[u8]) -> bool
    ensures { IsTrue result ↔ IsName name.now }
{
    !name.is_empty() && name.len() <= 16 && are_name_bytes(name)
}

/// These bytes as a block's name, where they are one.
pub fn name_of(bytes: &[u8]) -> Option<&str>
    ensures some { IfSome result (λ name. (name.now ≡ bytes.now) × IsName name.now) }
    ensures none { IfNone result (IsName bytes.now → ⊥) }
{
    if !is_name(bytes) {
        return None;
    }
    let Ok(name) = str::from_utf8(bytes) else {
        return None;
    };
    Some(name)
}

/// Are these digits alone, and no `0` before another?
fn is_plain(digits: &[u8]) -> bool
    ensures { IsTrue result ↔ IsPlain digits.now }
{
    are_digits(digits) && !digits.is_empty() && (digits.len() == 1 || digits[0] != b'0')
}

/// A number as it is printed: no sign, no leading zero, below 2^64.
pub fn numeral(digits: &[u8]) -> Option<u64>
    ensures some { IfSome result (λ n. decimal n ≡ digits.now) }
    ensures none { IfNone result ((n : ℕ) → n < 2 ^ 64 → decimal n ≡ digits.now → ⊥) }
{
    if !is_plain(digits) {
        return None;
    }
    let Ok(text) = str::from_utf8(digits) else {
        return None;
    };
    let Ok(number) = text.parse::<u64>() else {
        return None;
    };
    Some(number)
}

/// The same below 2^63.
pub fn number(digits: &[u8]) -> Option<u64>
    ensures some { IfSome result (λ n. (decimal n ≡ digits.now) × (n < 2 ^ 63)) }
    ensures none { IfNone result ((n : ℕ) → n < 2 ^ 63 → decimal n ≡ digits.now → ⊥) }
{
    let number = numeral(digits)?;
    if number < 1 << 63 { Some(number) } else { None }
}

/// A number of at most `max`, which is below 2^63.
pub fn number_within(digits: &[u8], max: u64) -> Option<u64>
    requires { max < 2 ^ 63 }
    ensures some { IfSome result (λ n. (decimal n ≡ digits.now) × (n ≤ max)) }
    ensures none { IfNone result ((n : ℕ) → n ≤ max → decimal n ≡ digits.now → ⊥) }
{
    let number = number(digits)?;
    if number <= max { Some(number) } else { None }
}

/// Two numbers with a space between them, each of at most its limit, which is below 2^63.
pub fn two_numbers(text: &[u8], first_max: u64, second_max: u64) -> Option<(u64, u64)>
    requires first { first_max < 2 ^ 63 }
    requires second { second_max < 2 ^ 63 }
    ensures some { IfSome result (λ p. AreNumbers text.now first_max second_max p.0 p.1) }
    ensures none { IfNone result ((a b : ℕ) → AreNumbers text.now first_max second_max a b → ⊥) }
{
    let (first, second) = field(text)?;
    let first = number_within(first, first_max)?;
    let second = number_within(second, second_max)?;
    Some((first, second))
}

/// The class of a word.
pub fn class_of(word: &[u8]) -> Option<Class>
    ensures some { IfSome result (λ class. class_word class ≡ word.now) }
    ensures none { IfNone result ((class : Class) → class_word class ≡ word.now → ⊥) }
{
    if word == b"normal".as_slice() {
        Some(Class::Normal)
    } else if word == b"log".as_slice() {
        Some(Class::Log)
    } else if word == b"special".as_slice() {
        Some(Class::Special)
    } else if word == b"dedup".as_slice() {
        Some(Class::Dedup)
    } else {
        None
    }
}
