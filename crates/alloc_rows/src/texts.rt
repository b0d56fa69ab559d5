//! The answers, as the rows have them.
use ms_cell::LoadFault;
use pool_alloc::{AllocFault, FreeFault};
use std::alloc::{AllocError, Global};
use std::fmt::Write;
use zms_units::{Block, Damage, Dva, First, Group, MsId};

pub fn text(alloc: Global, word: &str) -> Result<String, AllocError> {
    String::from_str(alloc, word)
}

/// A word, and then each copy as `CLASS VDEV:OFFSET:SIZE`.
fn copies_text(alloc: Global, word: &str, copies: &[Dva]) -> Result<String, AllocError> {
    let mut text = String::from_str(alloc, word)?;
    for dva in copies {
        let class = dva.class.word();
        write!(text, " {class} {}:{}:{}", dva.vdev, dva.offset, dva.size)?;
    }
    Ok(text)
}

/// `granted GROUP COPY ..`
pub fn granted_text(alloc: Global, block: &Block) -> Result<String, AllocError> {
    let word = format!(in alloc; "granted {}", block.group.0)?;
    copies_text(alloc, word.as_str(), block.copies.as_slice())
}

fn damage_text(alloc: Global, id: MsId, damage: Damage) -> Result<String, AllocError> {
    match damage {
        Damage::Unit { unit } => format!(in alloc; "damaged {} {} {unit}", id.vdev, id.index),
        _ => format!(in alloc; "damaged {} {}", id.vdev, id.index),
    }
}

fn device_text(alloc: Global, before: u64, after: u64) -> Result<String, AllocError> {
    format!(in alloc; "device {before} {after}")
}

fn suspended_text(alloc: Global, first: First) -> Result<String, AllocError> {
    let cause = match first {
        First::Device { before, after } => device_text(alloc, before, after)?,
        First::Damaged { id, damage } => damage_text(alloc, id, damage)?,
    };
    format!(in alloc; "suspended {cause}")
}

fn late_text(alloc: Global, group: Group, collected: Group) -> Result<String, AllocError> {
    format!(in alloc; "late {} {}", group.0, collected.0)
}

pub fn alloc_text(alloc: Global, fault: AllocFault) -> Result<String, AllocError> {
    match fault {
        AllocFault::BadSize => text(alloc, "badsize"),
        AllocFault::BadCopies => text(alloc, "badcopies"),
        AllocFault::NoSpace { looked } => format!(in alloc; "nospace {looked}"),
        AllocFault::Late { group, collected } => late_text(alloc, group, collected),
        AllocFault::Device { before, after } => device_text(alloc, before, after),
        AllocFault::Damaged { id, damage } => damage_text(alloc, id, damage),
        AllocFault::Suspended { first } => suspended_text(alloc, first),
        AllocFault::Memory { kept } => copies_text(alloc, "memory", kept.as_slice()),
    }
}

/// `done GROUP`, or why it was refused; `notlive FREED VDEV:OFFSET` and `memory FREED` with the copies that were freed before.
pub fn freed_text(alloc: Global, freed: Result<Group, FreeFault>) -> Result<String, AllocError> {
    match freed {
        Ok(group) => format!(in alloc; "done {}", group.0),
        Err(FreeFault::NoSuch) => text(alloc, "nosuch"),
        Err(FreeFault::BadSeg) => text(alloc, "badseg"),
        Err(
            FreeFault::NotLive {
                freed,
                vdev,
                offset,
            },
        ) => format!(in alloc; "notlive {freed} {vdev}:{offset}"),
        Err(FreeFault::Late { group, collected }) => late_text(alloc, group, collected),
        Err(FreeFault::Device { before, after }) => device_text(alloc, before, after),
        Err(FreeFault::Damaged { id, damage }) => damage_text(alloc, id, damage),
        Err(FreeFault::Suspended { first }) => suspended_text(alloc, first),
        Err(FreeFault::Memory { freed }) => format!(in alloc; "memory {freed}"),
    }
}
