//! The texts of causes why a pool does not open.

ghost use Rattle.std.specs.Prelude.{◌≡◌, Some};
ghost use Rattle.trace_text.specs.Numbers.{hex_digits};
ghost use Rattle.zms_top.specs.Statuses.{map_cause_word, part_word as word_of_part, digest_text, damage_text, open_cause_text};

use meta_store::OpenCause;
use std::fmt;
use vdev_map::Part;
use zms_units::{Damage, MapCause};

/// The word for a fault of a space map.
fn map_word(cause: MapCause) -> &'static str
    ensures { result.now ≡ map_cause_word cause }
{
    match cause {
        MapCause::BadPad => "badpad",
        MapCause::Short => "short",
        MapCause::Straddle => "straddle",
        MapCause::Spelling => "spelling",
        MapCause::Vdev => "vdev",
        MapCause::Range => "range",
    }
}

/// The name of a part of the device.
fn part_word(part: Part) -> &'static str
    ensures { result.now ≡ word_of_part part }
{
    match part {
        Part::Head => "head",
        Part::Table => "table",
    }
}

/// A byte, in two hexadecimal digits.
#[derive(Clone, Copy)]
struct Octet(u8);

impl fmt::Display for Octet {
    ghost output = { λ octet. Some (hex_digits 2 octet.0) };

    fn fmt<W: fmt::Write>(&self, f: &mut fmt::Formatter<W>) -> fmt::Result {
        let byte = self.0;
        write!(f, "{byte:02x}")
    }
}

/// A digest, in 64 hexadecimal digits.
#[derive(Clone, Copy)]
struct Digest([u8; 32]);

impl fmt::Display for Digest {
    ghost output = { λ digest. Some (digest_text digest.0) };

    fn fmt<W: fmt::Write>(&self, f: &mut fmt::Formatter<W>) -> fmt::Result {
        let bytes = &self.0[..];
        for byte in bytes {
            let octet = Octet(*byte);
            write!(f, "{octet}")?;
        }
        Ok(())
    }
}

/// What is wrong with the words of a metaslab.
#[derive(Clone, Copy)]
struct Wrong(Damage);

impl fmt::Display for Wrong {
    ghost output = { λ wrong. Some (damage_text wrong.0) };

    fn fmt<W: fmt::Write>(&self, f: &mut fmt::Formatter<W>) -> fmt::Result {
        match self.0 {
            Damage::Word(fault) => {
                let word = fault.word;
                let cause = map_word(fault.cause);
                write!(f, "word {word} {cause}")
            }
            Damage::Counts { kept, found } => write!(f, "held {kept} found {found}"),
            Damage::Unit { unit } => write!(f, "unit {unit} differs"),
        }
    }
}

/// Why a pool does not open, as its cause's text says it.
#[derive(Clone, Copy)]
pub(crate) struct Refusal(pub(crate) OpenCause);

impl fmt::Display for Refusal {
    ghost output = { λ refusal. Some (open_cause_text refusal.0) };

    fn fmt<W: fmt::Write>(&self, f: &mut fmt::Formatter<W>) -> fmt::Result {
        match self.0 {
            OpenCause::NoSlot => write!(f, "no slot"),
            OpenCause::NotRetained { asked, newest } => {
                write!(f, "group {asked} not retained, newest {newest}")
            }
            OpenCause::Spent { group } => write!(f, "group {group} spent"),
            OpenCause::HeadDamaged { kept, found } => {
                let kept = Digest(kept);
                let found = Digest(found);
                write!(f, "head damaged {kept} {found}")
            }
            OpenCause::TableDamaged { group, kept, found } => {
                let kept = Digest(kept);
                let found = Digest(found);
                write!(f, "table {group} damaged {kept} {found}")
            }
            OpenCause::Malformed { part, at } => {
                let part = part_word(part);
                write!(f, "{part} malformed at {at}")
            }
            OpenCause::MapDamaged { id, damage } => {
                let vdev = id.vdev;
                let index = id.index;
                let wrong = Wrong(damage);
                write!(f, "metaslab {vdev} {index} {wrong}")
            }
        }
    }
}
