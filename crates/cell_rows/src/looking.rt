//! What the closed journals have: whether each is legal, the notes of each kind, and how often a note is of another lane
//! than the one before it.
ghost use Rattle.std.specs.Prelude.{◌≡◌, true};
ghost use Rattle.zms_units.specs.Limits.{IsShift, IsUnitCount};

use crate::pool::OPENED;
use ms_core::Metaslab;
use ms_model::{Act, GateNote, MsJournal, Noted, legal};
use range_tree::RangeTrees;
use std::alloc::{AllocError, Global};

/// The notes of each kind in all journals.
#[derive(Clone, Copy, Debug, PartialEq, Eq)]
pub struct Counts {
    pub grants: u64,
    pub frees: u64,
    pub misses: u64,
    pub loads: u64,
    pub collects: u64,
    pub settles: u64,
    pub others: u64,
    /// Notes of a lane's command after one of another lane in the same journal.
    pub changes: u64,
    pub closings: u64,
    pub settlings: u64,
}

fn add_one(count: &mut u64) {
    *count = count.saturating_add(1);
}

impl Counts {
    pub fn new() -> Self {
        Counts {
            grants: 0,
            frees: 0,
            misses: 0,
            loads: 0,
            collects: 0,
            settles: 0,
            others: 0,
            changes: 0,
            closings: 0,
            settlings: 0,
        }
    }

    fn add_act(&mut self, act: Act) {
        match act {
            Act::Grant { .. } => add_one(&mut self.grants),
            Act::Free { .. } => add_one(&mut self.frees),
            Act::Miss { .. } => add_one(&mut self.misses),
            Act::Load => add_one(&mut self.loads),
            Act::Collect { .. } => add_one(&mut self.collects),
            Act::Settle { .. } => add_one(&mut self.settles),
            _ => add_one(&mut self.others),
        }
    }

    /// Adds the notes of a metaslab's journal.
    pub fn add_metaslab(&mut self, notes: &[Noted]) {
        let mut last = 0u8;
        for note in notes {
            self.add_act(note.act);
            if is_command(note.act) {
                if last != 0 && last != note.lane {
                    add_one(&mut self.changes);
                }
                last = note.lane;
            }
        }
    }

    /// Adds the notes of the gate's journal.
    pub fn add_gate(&mut self, notes: &[GateNote]) {
        for note in notes {
            match *note {
                GateNote::Closed { .. } => add_one(&mut self.closings),
                GateNote::Settled { .. } => add_one(&mut self.settlings),
            }
        }
    }
}

/// Whether a lane's own command did it, and not the keeper.
fn is_command(act: Act) -> bool {
    matches!(act, Act::Grant { .. } | Act::Free { .. } | Act::Miss { .. })
}

fn are_limits(units: u32, ashift: u8) -> bool
    ensures units { result ≡ true → IsUnitCount units }
    ensures shift { result ≡ true → IsShift ashift }
{
    64 <= units && units <= 131_072 && 9 <= ashift && ashift <= 12
}

/// Whether the journal of a metaslab that held nothing is legal.
pub fn is_legal(alloc: Global, journal: &MsJournal) -> Result<bool, AllocError> {
    let units = journal.units;
    let ashift = journal.ashift;
    if !are_limits(units, ashift) {
        return Ok(false);
    }
    let found = legal(alloc, &[], units, ashift, OPENED, journal.notes.as_slice())?;
    Ok(found.is_none())
}

/// The journals of closed metaslabs.
pub fn journals_of(
    alloc: Global,
    metaslabs: Vec<Metaslab<RangeTrees>>,
) -> Result<Vec<MsJournal>, AllocError> {
    let mut journals = Vec::with_capacity(alloc, metaslabs.len())?;
    for metaslab in metaslabs {
        journals.push(metaslab.into_journal())?;
    }
    Ok(journals)
}
