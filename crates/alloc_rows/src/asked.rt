//! What the words of a row ask for.
use crate::meanwhile::Meanwhile;
use ms_cell::LoadFault;
use row_tables::Words;
use zms_units::{Class, Damage, First, MsId, Seg, VdevRow};

pub fn class_of(word: &str) -> Option<Class> {
    match word {
        "normal" => Some(Class::Normal),
        "log" => Some(Class::Log),
        "special" => Some(Class::Special),
        "dedup" => Some(Class::Dedup),
        _ => None,
    }
}

/// `CLASS ASHIFT UNITS METASLABS WEIGHT`: a vdev, and what each of its metaslabs is posted with.
pub fn vdev_of(words: &mut Words<'_>) -> Option<(VdevRow, u64)> {
    let row = VdevRow {
        class: class_of(words.word())?,
        ashift: words.byte()?,
        units: words.small()?,
        metaslabs: words.word().parse::<u16>().ok()?,
    };
    Some((row, words.hex()?))
}

/// `VDEV INDEX`
fn id_of(words: &mut Words<'_>) -> Option<MsId> {
    let vdev = words.byte()?;
    let index = words.word().parse::<u16>().ok()?;
    Some(MsId { vdev, index })
}

/// `free VDEV INDEX START:COUNT`, or `collect VDEV INDEX`
pub fn meanwhile_of(words: &mut Words<'_>) -> Option<Meanwhile> {
    match words.word() {
        "free" => {
            let id = id_of(words)?;
            let (start, count) = words.pair()?;
            let seg = Seg { start, count };
            Some(Meanwhile::Free { id, seg })
        }
        "collect" => Some(Meanwhile::Collect { id: id_of(words)? }),
        _ => None,
    }
}

/// `device BEFORE AFTER`, or `damaged VDEV INDEX UNIT`
fn first_of(word: &str, words: &mut Words<'_>) -> Option<First> {
    match word {
        "device" => Some(First::Device {
            before: words.number()?,
            after: words.number()?,
        }),
        "damaged" => Some(First::Damaged {
            id: id_of(words)?,
            damage: Damage::Unit {
                unit: words.small()?,
            },
        }),
        _ => None,
    }
}

/// `memory`, `suspended FIRST`, or one of these alone
pub fn refusal_of(words: &mut Words<'_>) -> Option<LoadFault> {
    match words.word() {
        "memory" => Some(LoadFault::Memory),
        "suspended" => {
            let word = words.word();
            let first = first_of(word, words)?;
            Some(LoadFault::Suspended { first })
        }
        word => match first_of(word, words)? {
            First::Device { before, after } => Some(LoadFault::Device { before, after }),
            First::Damaged { id, damage } => Some(LoadFault::Damaged { id, damage }),
        },
    }
}
