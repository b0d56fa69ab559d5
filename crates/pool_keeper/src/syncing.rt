//! A sync of a lane, in the keeper's turn.
ghost use Rattle.std.specs.Prelude.{◌≡◌, ◌^◌, ◌<◌, ◌++◌, ◌∷◌, [], true, None, IfSome, IfOk, OnOk, IsSome, vec_len, vec_capacity};
ghost use Rattle.ms_model.specs.declared.notes.KeeperNote.TheVariants.{Sync};
ghost use Rattle.std.specs.Option.{option_to_list};
ghost use Rattle.zms_units.specs.Limits.{IsLane};
ghost use Rattle.ms_cell.specs.Passes.{Seated};
ghost use Rattle.ms_cell.specs.Journey.{Journey};
ghost use Rattle.ms_cell.specs.GateAnswers.{IsClosedBefore};
ghost use Rattle.pool_keeper.specs.Keeper.{IsOf, IsSound};
ghost use Rattle.pool_keeper.specs.Lines.{SyncNoted, HasSettled};
ghost use Rattle.pool_keeper.specs.Serving.{Serves, KeeperTurn};

use crate::committing::note_of;
use crate::faults::{SyncFault, sync_fault};
use crate::keeper::Keeper;
use crate::lane_keeper::LaneKeeper;
use ms_cell::{CellPasses, Cells, quiesced_at};
use ms_model::KeeperNote;
use seg_trees::SegTrees;
use std::alloc::Global;
use std::sync::Wait;
use std::thread;
use zms_dev::Disk;
use zms_units::Group;

impl<D: Disk, R: SegTrees> Keeper<D, R> {
    /// Notes that the last committed group is committed.
    fn note_synced(&mut self, lane: u8) -> (u8, KeeperNote)
        requires sound { IsSound D.state D.faults self.old }
        requires idle { self.old.first ≡ None }
        requires room { vec_len self.old.notes < vec_capacity self.old.notes }
        ensures sound { IsSound D.state D.faults self.new }
        ensures rest { self.new ≡ record self.old { notes = self.new.notes } }
        ensures notes { self.new.notes.items ≡ self.old.notes.items ++ result ∷ [] }
        ensures note { result ≡ (lane, Sync self.old.store.table.group) }
    {
        let group = self.store.group();
        let note = (lane, KeeperNote::Sync { group });
        self.notes.push_reserved(note);
        note
    }

    /// Commits each group up to a closed one that nobody holds, for a lane whose pass of the gate has seen the closing. Once a
    /// fault is kept nothing is done. The note is that of what came of it.
    pub(crate) fn sync_to<W: Wait>(
        &mut self,
        rt: &W,
        alloc: Global,
        cells: &Cells<R>,
        passes: &mut CellPasses<R>,
        lane: u8,
        group: Group,
    ) -> (Result<Group, SyncFault>, Option<(u8, KeeperNote)>)
        requires lane { IsLane lane }
        requires of { IsOf cells.now self.old.start }
        requires sound { IsSound D.state D.faults self.old }
        requires seated { Seated lane cells.now passes.old }
        requires closed { IsClosedBefore cells.now.opened group.0 passes.old.gate.seen }
        requires small { group.0 < 2 ^ 50 }
        ensures sound { IsSound D.state D.faults self.new }
        ensures start { self.new.start ≡ self.old.start }
        ensures noted { SyncNoted lane result.0 self.old.notes.items result.1 }
        ensures notes { self.new.notes.items ≡ self.old.notes.items ++ option_to_list result.1 }
        ensures own { IfSome result.1 (λ n. n.0 ≡ lane) }
        ensures passes { Journey lane [] passes.old passes.new }
        ensures group { IfOk result.0 (λ done. done ≡ group) }
        ensures settled { OnOk result.0 (HasSettled cells.now group.0 passes.new) }
        ensures suspended { IsSome self.old.first → self.new.store ≡ self.old.store }
    {
        if let Some(first) = self.first {
            return (Err(SyncFault::Suspended { first }), None);
        }
        if self.make_room().is_err() {
            return (Err(SyncFault::Memory), None);
        }
        self.hear_all(cells, passes, lane);
        match self.commit_to(rt, alloc, cells, lane, group) {
            Ok(None) => {
                let note = self.note_synced(lane);
                self.tell_all(cells, passes, lane);
                (Ok(group), Some(note))
            }
            Ok(Some(first)) => (Err(sync_fault(first)), Some((lane, note_of(first)))),
            Err(_) => (Err(SyncFault::Memory), None),
        }
    }
}

impl<'a, D: Disk + Send, R: SegTrees + Send> LaneKeeper<'a, D, R> {
    /// Takes the keeper's turn to commit each group up to one that the lane has seen closed, and that nobody holds.
    pub(crate) fn turn_to<W: Wait>(
        &mut self,
        rt: &W,
        cells: &Cells<R>,
        passes: &mut CellPasses<R>,
        lane: u8,
        group: Group,
    ) -> Result<Group, SyncFault>
        requires lane { IsLane lane }
        requires seated { Seated lane cells.now passes.old }
        requires serves { Serves self.old lane cells.now }
        requires closed { IsClosedBefore cells.now.opened group.0 passes.old.gate.seen }
        requires small { group.0 < 2 ^ 50 }
        ensures turn { KeeperTurn lane (SyncNoted lane result) self.old self.new }
        ensures serves { Serves self.new lane cells.now }
        ensures passes { Journey lane [] passes.old passes.new }
        ensures group { IfOk result (λ done. done ≡ group) }
        ensures settled { OnOk result (HasSettled cells.now group.0 passes.new) }
    {
        let mut held = self.turn.take(rt, &mut self.pass);
        let keeper = held.value_mut();
        let (answer, note) = keeper.sync_to(rt, self.alloc, cells, passes, lane, group);
        self.turn.give(held, &mut self.pass, note);
        answer
    }
}

/// Waits until a group is closed and neither it nor an earlier one is held. No turn is held meanwhile.
pub(crate) fn wait_for<R: SegTrees, W: Wait>(
    rt: &W,
    cells: &Cells<R>,
    passes: &mut CellPasses<R>,
    lane: u8,
    group: Group,
)
    requires seated { Seated lane cells.now passes.old }
    ensures passes { Journey lane [] passes.old passes.new }
    ensures closed { IsClosedBefore cells.now.opened group.0 passes.new.gate.seen }
    ensures small { group.0 < 2 ^ 50 }
{
    for _ in rt.forever() {
        if is_quiesced(rt, cells, passes, lane, group) {
            return;
        }
        thread::yield_now();
    }
    unreachable!()
}

/// Looks at the gate whether a group is closed and neither it nor an earlier one is held.
fn is_quiesced<R: SegTrees, W: Wait>(
    rt: &W,
    cells: &Cells<R>,
    passes: &mut CellPasses<R>,
    lane: u8,
    group: Group,
) -> bool
    requires seated { Seated lane cells.now passes.old }
    ensures passes { Journey lane [] passes.old passes.new }
    ensures closed { result ≡ true → IsClosedBefore cells.now.opened group.0 passes.new.gate.seen }
    ensures small { result ≡ true → group.0 < 2 ^ 50 }
{
    quiesced_at(rt, cells, passes, group)
}
