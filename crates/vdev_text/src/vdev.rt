//! One vdev of a text.
ghost use Rattle.std.specs.Prelude.{◌≡◌, ℕ, ◌<◌, ◌≤◌, ◌^◌, ◌∷◌, ◌++◌, length, take, slice_index, decimal, IfSome, IfNone};
ghost use Rattle.cmd_text.specs.Reading.{Lacks};
ghost use Rattle.zms_units.specs.declared.places.VdevRow.{VdevRow};
ghost use Rattle.vdev_text.specs.Specs.{vdev_text, IsBetween, IsVdev};

use cmd_text::fields::{class_of, number_within};
use zms_units::{MAX_ASHIFT, MAX_UNITS, MIN_ASHIFT, MIN_UNITS, VdevRow};

/// How many metaslabs a pool may have.
pub(crate) const MAX_METASLABS: u64 = 1024;

/// The index of the first such byte, or the text's length.
fn position_of(text: &[u8], byte: u8) -> usize
    ensures within { result ≤ length text.now }
    ensures before { Lacks byte (take result text.now) }
    ensures found { result < length text.now → slice_index text.now result ≡ byte }
{
    for (i, b) in text.iter().enumerate() {
        if *b == byte {
            return i;
        }
    }
    text.len()
}

/// What stands before the first such byte, and what stands behind it.
pub(crate) fn cut(text: &[u8], byte: u8) -> Option<(&[u8], &[u8])>
    ensures some { IfSome result (λ p. (p.0.now ++ (byte ∷ p.1.now) ≡ text.now) × Lacks byte p.0.now) }
    ensures none { IfNone result (Lacks byte text.now) }
{
    let at = position_of(text, byte);
    if at == text.len() {
        return None;
    }
    Some((&text[..at], &text[at + 1..]))
}

/// A number between two limits, of which the greater is below 2^63.
fn number_between(digits: &[u8], least: u64, most: u64) -> Option<u64>
    requires { most < 2 ^ 63 }
    ensures some { IfSome result (λ n. IsBetween least most n × (decimal n ≡ digits.now)) }
    ensures none { IfNone result ((n : ℕ) → IsBetween least most n → decimal n ≡ digits.now → ⊥) }
{
    let number = number_within(digits, most)?;
    if least <= number { Some(number) } else { None }
}

/// The vdev of a text `CLASS:ASHIFT:UNITS:METASLABS`.
pub(crate) fn read_vdev(text: &[u8]) -> Option<VdevRow>
    ensures some { IfSome result (λ row. IsVdev row × (vdev_text row ≡ text.now)) }
    ensures none { IfNone result ((row : VdevRow) → IsVdev row → vdev_text row ≡ text.now → ⊥) }
{
    let (class, rest) = cut(text, b':')?;
    let (ashift, rest) = cut(rest, b':')?;
    let (units, metaslabs) = cut(rest, b':')?;
    let class = class_of(class)?;
    let ashift = number_between(ashift, MIN_ASHIFT as u64, MAX_ASHIFT as u64)?;
    let units = number_between(units, MIN_UNITS as u64, MAX_UNITS as u64)?;
    let metaslabs = number_between(metaslabs, 1, MAX_METASLABS)?;
    Some(VdevRow {
        class,
        ashift: ashift as u8,
        units: units as u32,
        metaslabs: metaslabs as u16,
    })
}
