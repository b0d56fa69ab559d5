//! Committing one group: it is gathered at each metaslab, laid down in the store, and settled at each metaslab and at the gate.
ghost use Rattle.std.specs.Prelude.{◌≡◌, ℕ, ◌+◌, ◌^◌, ◌<◌, ◌≤◌, ◌++◌, None, length, vec_len, vec_capacity, IfOk, OnOk, OnErr};
ghost use Rattle.zms_units.specs.Limits.{IsLane};
ghost use Rattle.turn_cell.specs.Notes.{IsPrefix};
ghost use Rattle.ms_cell.specs.GateAnswers.{IsClosedBefore};
ghost use Rattle.pool_keeper.specs.Answers.{group_after};
ghost use Rattle.pool_keeper.specs.Notes.{noted, note_of};
ghost use Rattle.pool_keeper.specs.Commits.{IsLaidDown};
ghost use Rattle.pool_keeper.specs.Keeper.{IsOf, IsSound};

use crate::keeper::Keeper;
use crate::settling::settle;
use meta_store::CommitFault;
use ms_cell::Cells;
use ms_model::KeeperNote;
use seg_trees::SegTrees;
use std::alloc::{AllocError, Global};
use std::sync::Wait;
use zms_dev::Disk;
use zms_units::{First, Group};

impl<D: Disk, R: SegTrees> Keeper<D, R> {
    /// Lays the gathered group down in the store, and answers what the store met. Nothing is settled or kept yet.
    fn lay_down(&mut self, alloc: Global, _cells: &Cells<R>) -> Result<Option<First>, AllocError>
        requires of { IsOf _cells.now self.old.start }
        requires sound { IsSound D.state D.faults self.old }
        requires idle { self.old.first ≡ None }
        requires small { self.old.store.table.group.0 + 1 < 2 ^ 50 }
        requires gathered { length self.old.gathered.items ≡ length _cells.now.metaslabs }
        ensures laid { (s : IsSound D.state D.faults self.old) → IsLaidDown D.state D.faults self.old s result self.new.store }
        ensures start { self.new.start ≡ self.old.start }
        ensures passes { self.new.passes ≡ self.old.passes }
        ensures first { self.new.first ≡ self.old.first }
        ensures notes { self.new.notes ≡ self.old.notes }
        ensures gathered { self.new.gathered ≡ self.old.gathered }
        ensures rest { self.new ≡ record self.old { store = self.new.store } }
    {
        // The table is one of the layout's.
        let _ = self.store.layout();
        let before = self.store.faults();
        match self.store.commit(alloc, &self.gathered) {
            Ok(_) => Ok(None),
            Err(CommitFault::Memory) => Err(AllocError),
            Err(CommitFault::Failed) => {
                let after = self.store.faults();
                Ok(Some(First::Device { before, after }))
            }
            Err(CommitFault::Damaged { id, damage }) => Ok(Some(First::Damaged { id, damage })),
        }
    }

    /// Commits the gathered group, and settles it. The answer is what the store met: none, or the first fault or damage, which
    /// is kept and noted. After want of memory the group is not committed, and what was gathered is kept.
    fn commit_gathered<W: Wait>(
        &mut self,
        rt: &W,
        alloc: Global,
        cells: &Cells<R>,
        lane: u8,
    ) -> Result<Option<First>, AllocError>
        requires lane { IsLane lane }
        requires of { IsOf cells.now self.old.start }
        requires sound { IsSound D.state D.faults self.old }
        requires idle { self.old.first ≡ None }
        requires closed { IsClosedBefore cells.now.opened (self.old.store.table.group.0 + 1) self.old.passes.gate.seen }
        requires small { self.old.store.table.group.0 + 1 < 2 ^ 50 }
        requires gathered { length self.old.gathered.items ≡ length cells.now.metaslabs }
        requires room { vec_len self.old.notes < vec_capacity self.old.notes }
        ensures sound { IsSound D.state D.faults self.new }
        ensures start { self.new.start ≡ self.old.start }
        ensures first { IfOk result (λ first. self.new.first ≡ first) }
        ensures notes { IfOk result (λ first. self.new.notes.items ≡ self.old.notes.items ++ noted lane first) }
        ensures group { IfOk result (λ first. self.new.store.table.group.0 ≡ group_after first self.old.store.table.group.0) }
        ensures later { IsPrefix self.old.passes.gate.seen self.new.passes.gate.seen }
        ensures room { OnOk result (self.new.first ≡ None → self.new.notes ≡ self.old.notes) }
        ensures err { OnErr result (self.new.first ≡ None × (self.new.notes ≡ self.old.notes × self.new.store.table ≡ self.old.store.table)) }
    {
        let group = Group(self.store.group().0 + 1);
        match self.lay_down(alloc, cells) {
            Ok(None) => {
                settle(rt, cells, &mut self.passes, lane, group);
                self.gathered.clear();
                Ok(None)
            }
            Ok(Some(first)) => {
                self.first = Some(first);
                self.notes.push_reserved((lane, note_of(first)));
                Ok(Some(first))
            }
            Err(error) => Err(error),
        }
    }

    /// Commits the next group, which is closed and which nobody holds: it is gathered at each metaslab that has not collected
    /// it, laid down in the store, and settled at each metaslab and at the gate. After `spa_sync`.
    pub(crate) fn commit_next<W: Wait>(
        &mut self,
        rt: &W,
        alloc: Global,
        cells: &Cells<R>,
        lane: u8,
    ) -> Result<Option<First>, AllocError>
        requires lane { IsLane lane }
        requires of { IsOf cells.now self.old.start }
        requires sound { IsSound D.state D.faults self.old }
        requires idle { self.old.first ≡ None }
        requires closed { IsClosedBefore cells.now.opened (self.old.store.table.group.0 + 1) self.old.passes.gate.seen }
        requires small { self.old.store.table.group.0 + 1 < 2 ^ 50 }
        requires room { vec_len self.old.notes < vec_capacity self.old.notes }
        ensures sound { IsSound D.state D.faults self.new }
        ensures start { self.new.start ≡ self.old.start }
        ensures first { IfOk result (λ first. self.new.first ≡ first) }
        ensures notes { IfOk result (λ first. self.new.notes.items ≡ self.old.notes.items ++ noted lane first) }
        ensures group { IfOk result (λ first. self.new.store.table.group.0 ≡ group_after first self.old.store.table.group.0) }
        ensures later { IsPrefix self.old.passes.gate.seen self.new.passes.gate.seen }
        ensures room { OnOk result (self.new.first ≡ None → self.new.notes ≡ self.old.notes) }
        ensures err { OnErr result (self.new.first ≡ None × (self.new.notes ≡ self.old.notes × self.new.store.table ≡ self.old.store.table)) }
    {
        self.gather(rt, alloc, cells, lane)?;
        self.commit_gathered(rt, alloc, cells, lane)
    }

    /// Commits each group that is not committed yet, up to a closed one, unless something is met.
    pub(crate) fn commit_to<W: Wait>(
        &mut self,
        rt: &W,
        alloc: Global,
        cells: &Cells<R>,
        lane: u8,
        group: Group,
    ) -> Result<Option<First>, AllocError>
        requires lane { IsLane lane }
        requires of { IsOf cells.now self.old.start }
        requires sound { IsSound D.state D.faults self.old }
        requires idle { self.old.first ≡ None }
        requires closed { IsClosedBefore cells.now.opened group.0 self.old.passes.gate.seen }
        requires small { group.0 < 2 ^ 50 }
        requires room { vec_len self.old.notes < vec_capacity self.old.notes }
        ensures sound { IsSound D.state D.faults self.new }
        ensures start { self.new.start ≡ self.old.start }
        ensures first { IfOk result (λ first. self.new.first ≡ first) }
        ensures notes { IfOk result (λ first. self.new.notes.items ≡ self.old.notes.items ++ noted lane first) }
        ensures reached { IfOk result (λ first. first ≡ None → group.0 ≤ self.new.store.table.group.0) }
        ensures later { IsPrefix self.old.passes.gate.seen self.new.passes.gate.seen }
        ensures room { OnOk result (self.new.first ≡ None → self.new.notes ≡ self.old.notes) }
        ensures err { OnErr result (self.new.first ≡ None × self.new.notes ≡ self.old.notes) }
    {
        'groups: while self.store.group().0 < group.0 {
            match self.commit_next(rt, alloc, cells, lane) {
                Ok(None) => {}
                Ok(Some(first)) => return Ok(Some(first)),
                Err(error) => return Err(error),
            }
        }
        Ok(None)
    }
}

/// How the journal has a first fault or damage.
pub(crate) fn note_of(first: First) -> KeeperNote
    ensures { result ≡ note_of first }
{
    match first {
        First::Device { before, after } => KeeperNote::Fault { before, after },
        First::Damaged { id, damage: _ } => KeeperNote::Damaged { id },
    }
}
