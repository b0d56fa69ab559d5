//! The gate and its calls.
ghost use Rattle.std.specs.Prelude.{◌≡◌, ◌≢◌, ◌↔◌, ℕ, ◌+◌, ◌-◌, ◌^◌, ◌<◌, ◌≤◌, min, [], ◌∷◌, ◌++◌, vec_len, vec_capacity, IsTrue, IsErr, IfOk, IfErr, OnOk};
ghost use Rattle.zms_units.specs.Limits.{IsLane, IsPoolGroup, MAX_COMMANDS};
ghost use Rattle.ms_model.specs.Gates.{IsGateLegal};
ghost use Rattle.ms_model.specs.declared.notes.GateNote.TheVariants.{Closed, Settled};
ghost use Rattle.std.specs.List.{All};
ghost use Rattle.ms_model.specs.Parts.{IsByLane};
ghost use Rattle.txg_gate.specs.Closings.{closings_of};
ghost use Rattle.txg_gate.specs.GateState.{open_of, synced_of, holds_of, IsQuiesced};

use ms_model::GateNote;
use std::alloc::{AllocError, Global};
use std::marker::Model;
use zms_units::Group;

/// That its holder works in this group, so that the group isn't quiesced. `hold` makes it, and `release` alone spends it.
#[must_use]
#[derive(Debug)]
pub struct Hold {
    pub group: Group,
    seal: (),
}

/// Three groups above the settled one are closed or open, so the open one can't be closed yet.
#[derive(Clone, Copy, Debug, PartialEq, Eq)]
pub struct TooMany {
    pub open_group: Group,
    pub synced: Group,
}

/// The open group and the settled one, the holds of the groups between, and a journal of closings and settlings.
#[derive(Drop)]
pub struct Gate {
    opened: Group,
    open: Group,
    synced: Group,
    // The holds of the groups `synced + 1`, `synced + 2` and `synced + 3`.
    counts: [u64; 3],
    notes: Vec<GateNote>,
}

impl Model for Gate {
    ghost use Rattle.txg_gate.specs.GateState.{GateState};

    ghost Value = { GateState };

    ghost use Rattle.txg_gate.specs.GateInside.{gate_state, IsGate};

    ghost view = { gate_state };

    ghost invariant = { IsGate };
}

impl Gate {
    /// A gate of a pool that was opened at this group: the next one is open, and nothing is held.
    pub fn new(alloc: Global, opened: Group) -> Self
        requires { IsPoolGroup opened.0 }
        ensures opened { result.opened ≡ opened.0 }
        ensures notes { result.notes ≡ [] }
        ensures holds { (group : ℕ) → holds_of result group ≡ 0 }
    {
        Gate {
            opened,
            open: Group(opened.0 + 1),
            synced: opened,
            counts: [0; 3],
            notes: Vec::new(alloc),
        }
    }

    /// Holds the open group. A count at the greatest `u64` stays there.
    pub fn hold(&mut self) -> Hold
        ensures group { result.group.0 ≡ open_of self.old }
        ensures stays { self.new ≡ record self.old { counts = self.new.counts } }
        ensures count { holds_of self.new result.group.0 ≡ min (holds_of self.old result.group.0 + 1) (2 ^ 64 - 1) }
        ensures others { (group : ℕ) → group ≢ result.group.0 → holds_of self.new group ≡ holds_of self.old group }
    {
        let count = &mut self.counts[(self.open.0 - self.synced.0 - 1) as usize];
        *count = count.saturating_add(1);
        Hold {
            group: self.open,
            seal: (),
        }
    }

    /// Gives a hold up: takes 1 from its group's count, if that is above 0.
    pub fn release(&mut self, hold: Hold)
        ensures stays { self.new ≡ record self.old { counts = self.new.counts } }
        ensures count { holds_of self.new hold.group.0 ≡ holds_of self.old hold.group.0 - 1 }
        ensures others { (group : ℕ) → group ≢ hold.group.0 → holds_of self.new group ≡ holds_of self.old group }
    {
        let Hold { group, seal: () } = hold;
        if group > self.synced && group <= self.open {
            let count = &mut self.counts[(group.0 - self.synced.0 - 1) as usize];
            *count = count.saturating_sub(1);
        }
    }

    /// Takes the memory for one closing, and for its settling later.
    pub fn ready(&mut self) -> Result<(), AllocError>
        ensures stays { self.new ≡ record self.old { room = self.new.room } }
        ensures room { OnOk result (0 < self.new.room) }
        ensures keeps { self.old.room ≤ self.new.room }
    {
        let owed = (self.open.0 - 1 - self.synced.0) as usize;
        self.notes.reserve(owed + 2)?;
        Ok(())
    }

    /// Closes the open group and answers it; the next group is open from now on, with no holds.
    /// `TooMany` comes exactly where the open group is the third above the settled one, and changes nothing. Takes no memory:
    /// what `ready` took lasts for one closing fewer.
    pub fn close_open(&mut self, lane: u8) -> Result<Group, TooMany>
        requires room { 0 < self.old.room }
        requires lane { IsLane lane }
        requires few { closings_of lane self.old.notes < MAX_COMMANDS }
        ensures group { IfOk result (λ group. group.0 ≡ open_of self.old) }
        ensures noted { IfOk result (λ group. self.new ≡ record self.old { notes = self.old.notes ++ (Closed lane group ∷ []); room = self.new.room }) }
        ensures room { IfOk result (λ _. self.new.room + 1 ≡ self.old.room) }
        ensures holds { IfOk result (λ _. (group : ℕ) → holds_of self.new group ≡ holds_of self.old group) }
        ensures many { IsErr result ↔ (open_of self.old ≡ synced_of self.old + 3) }
        ensures told { IfErr result (λ e. (e.open_group.0 ≡ open_of self.old) × (e.synced.0 ≡ synced_of self.old)) }
        ensures err { IfErr result (λ _. self.new ≡ self.old) }
    {
        let group = self.open;
        if group.0 - self.synced.0 == 3 {
            return Err(TooMany {
                open_group: group,
                synced: self.synced,
            });
        }
        append(&mut self.notes, GateNote::Closed { lane, group });
        self.open = Group(group.0 + 1);
        Ok(group)
    }

    /// Whether the group is closed, and neither it nor an earlier one is held.
    pub fn quiesced(&self, group: Group) -> bool
        ensures { IsTrue result ↔ IsQuiesced self.now group.0 }
    {
        if group.0 >= self.open.0 {
            return false;
        }
        if group.0 <= self.synced.0 {
            return true;
        }
        if self.counts[0] != 0 {
            return false;
        }
        group.0 == self.synced.0 + 1 || self.counts[1] == 0
    }

    /// Settles the next closed group. Its holds are gone, and those of the later groups stay. Takes no memory, and none of
    /// the room for closings: the `ready` before the group's closing took its own.
    pub fn settled(&mut self, group: Group)
        requires next { group.0 ≡ synced_of self.old + 1 }
        requires closed { group.0 < open_of self.old }
        ensures noted { self.new ≡ record self.old { notes = self.old.notes ++ (Settled group ∷ []); counts = self.new.counts; room = self.new.room } }
        ensures room { self.new.room ≡ self.old.room }
        ensures holds { (later : ℕ) → group.0 < later → holds_of self.new later ≡ holds_of self.old later }
    {
        append(&mut self.notes, GateNote::Settled { group });
        self.counts = [self.counts[1], self.counts[2], 0];
        self.synced = group;
    }

    /// The group at which the pool was opened.
    pub fn opened(&self) -> Group
        ensures { result.0 ≡ self.now.opened }
    {
        self.opened
    }

    pub fn open_group(&self) -> Group
        ensures group { result.0 ≡ open_of self.now }
        ensures small { result.0 < 2 ^ 50 }
        ensures unheld { (later : ℕ) → result.0 < later → holds_of self.now later ≡ 0 }
    {
        self.open
    }

    /// The group that was settled last. The journal so far is legal, and each closing of it of a lane from 1 to 16.
    pub fn synced(&self) -> Group
        ensures group { result.0 ≡ synced_of self.now }
        ensures legal { IsGateLegal self.now.opened self.now.notes }
        ensures lanes { All IsByLane self.now.notes }
        ensures near { (result.0 < open_of self.now) × (open_of self.now ≤ result.0 + 3) }
    {
        self.synced
    }

    /// Gives the journal up, in which each closing is of a lane from 1 to 16. Takes no memory.
    pub fn into_notes(self) -> Vec<GateNote>
        ensures notes { result.items ≡ self.notes }
        ensures lanes { All IsByLane self.notes }
        ensures legal { IsGateLegal self.opened self.notes }
    {
        self.notes
    }
}

// Appends into room that is there.
fn append(notes: &mut Vec<GateNote>, note: GateNote)
    requires { vec_len notes.old < vec_capacity notes.old }
    ensures items { notes.new.items ≡ notes.old.items ++ (note ∷ []) }
    ensures len { vec_len notes.new ≡ vec_len notes.old + 1 }
    ensures capacity { vec_capacity notes.new ≡ vec_capacity notes.old }
{
    notes.push_reserved(note);
}
