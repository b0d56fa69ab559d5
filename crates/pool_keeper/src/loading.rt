//! Loading a metaslab from what the last committed group holds on the device.
ghost use Rattle.std.specs.Prelude.{◌≡◌, ℕ, ◌+◌, ◌<◌, ◌++◌, true, None, Ok, [], length, vec_len, vec_capacity, IfOk, OnOk, OnErr, IfSome};
ghost use Rattle.std.specs.Option.{option_to_list};
ghost use Rattle.zms_units.specs.Limits.{IsLane};
ghost use Rattle.zms_units.specs.Segments.{AreSegs, covered};
ghost use Rattle.turn_cell.specs.Notes.{IsPrefix};
ghost use Rattle.vdev_map.specs.Numbers.{IsIn, number_of, row_at};
ghost use Rattle.ms_cell.specs.Passes.{Seated, seen_in};
ghost use Rattle.ms_cell.specs.Journey.{Journey};
ghost use Rattle.ms_cell.specs.Loads.{IsPlace, IsLoadedAt};
ghost use Rattle.pool_keeper.specs.Lines.{LoadNoted};
ghost use Rattle.pool_keeper.specs.Commits.{IsUncommitted, first_of, IsOnDevice};
ghost use Rattle.pool_keeper.specs.Notes.{noted};
ghost use Rattle.pool_keeper.specs.Keeper.{IsOf, IsSound};

use crate::committing::note_of;
use crate::faults::load_fault;
use crate::keeper::Keeper;
use meta_store::FoundFault;
use ms_cell::{CellPasses, Cells, LoadFault, load_at};
use ms_model::KeeperNote;
use seg_trees::SegTrees;
use std::alloc::{AllocError, Global};
use std::sync::Wait;
use zms_dev::Disk;
use zms_units::{Damage, First, MsId, Seg};

impl<D: Disk, R: SegTrees> Keeper<D, R> {
    /// Reads the units that the last committed group holds of a metaslab. An error is what the store met, or none after want of
    /// memory. Nothing is kept yet.
    fn read(
        &mut self,
        alloc: Global,
        _cells: &Cells<R>,
        id: MsId,
    ) -> Result<Vec<Seg>, Option<First>>
        requires id { IsIn _cells.now.vdevs id }
        requires of { IsOf _cells.now self.old.start }
        requires sound { IsSound D.state D.faults self.old }
        requires idle { self.old.first ≡ None }
        ensures read { (s : IsSound D.state D.faults self.old) → IsUncommitted D.state D.faults self.old s (first_of result) self.new.store }
        ensures runs { IfOk result (λ runs. AreSegs (row_at _cells.now.vdevs id.vdev).units runs.items) }
        ensures finds { IfOk result (λ runs. (s : IsSound D.state D.faults self.old) → IsOnDevice D.state D.faults self.old s id (covered runs.items)) }
        ensures rest { self.new ≡ record self.old { store = self.new.store } }
    {
        // The table is one of the layout's.
        let _ = self.store.layout();
        let before = self.store.faults();
        match self.store.found(alloc, id) {
            Ok(runs) => Ok(runs),
            Err(FoundFault::Memory) => Err(None),
            Err(FoundFault::Failed) => {
                let after = self.store.faults();
                Err(Some(First::Device { before, after }))
            }
            Err(FoundFault::Damaged { id, damage }) => Err(Some(First::Damaged { id, damage })),
        }
    }

    /// Hands runs to a metaslab that is to be loaded. What differs from what the settled groups hold is damage.
    fn hand<W: Wait>(
        &mut self,
        rt: &W,
        cells: &Cells<R>,
        lane: u8,
        id: MsId,
        runs: &[Seg],
    ) -> Result<Option<First>, AllocError>
        requires lane { IsLane lane }
        requires id { IsIn cells.now.vdevs id }
        requires of { IsOf cells.now self.old.start }
        requires sound { IsSound D.state D.faults self.old }
        requires idle { self.old.first ≡ None }
        requires segs { AreSegs (row_at cells.now.vdevs id.vdev).units runs.now }
        requires finds { (s : IsSound D.state D.faults self.old) × IsOnDevice D.state D.faults self.old s id (covered runs.now) }
        requires room { vec_len self.old.notes < vec_capacity self.old.notes }
        ensures sound { IsSound D.state D.faults self.new }
        ensures start { self.new.start ≡ self.old.start }
        ensures store { self.new.store ≡ self.old.store }
        ensures first { IfOk result (λ first. self.new.first ≡ first) }
        ensures notes { IfOk result (λ first. self.new.notes.items ≡ self.old.notes.items ++ noted lane first) }
        ensures later { IsPrefix (seen_in self.old.passes (number_of cells.now.vdevs id)) (seen_in self.new.passes (number_of cells.now.vdevs id)) }
        ensures loaded { result ≡ Ok None → IsPlace true (number_of cells.now.vdevs id) self.old.passes self.new.passes }
        ensures err { OnErr result (self.new.first ≡ None × self.new.notes ≡ self.old.notes) }
    {
        match load_at(rt, cells, &mut self.passes, lane, id, runs) {
            Ok(None) => Ok(None),
            Ok(Some(unit)) => {
                let first = First::Damaged {
                    id,
                    damage: Damage::Unit { unit },
                };
                self.first = Some(first);
                self.notes.push_reserved((lane, note_of(first)));
                Ok(Some(first))
            }
            Err(error) => Err(error),
        }
    }

    /// Keeps and notes what was met; nothing means that memory was wanting.
    fn meet(&mut self, lane: u8, met: Option<First>) -> Result<Option<First>, AllocError>
        requires idle { self.old.first ≡ None }
        requires room { vec_len self.old.notes < vec_capacity self.old.notes }
        ensures rest { self.new ≡ record self.old { first = met; notes = self.new.notes } }
        ensures notes { self.new.notes.items ≡ self.old.notes.items ++ noted lane met }
        ensures answer { IfOk result (λ first. (first ≡ met) × (first ≡ None → ⊥)) }
        ensures err { OnErr result (self.new.notes ≡ self.old.notes) }
    {
        match met {
            Some(first) => {
                self.first = Some(first);
                self.notes.push_reserved((lane, note_of(first)));
                Ok(Some(first))
            }
            None => Err(AllocError),
        }
    }

    /// Loads a metaslab that is not loaded. The answer is what was met: none, or the first fault or damage, which is kept and
    /// noted.
    fn load_unloaded<W: Wait>(
        &mut self,
        rt: &W,
        alloc: Global,
        cells: &Cells<R>,
        lane: u8,
        id: MsId,
    ) -> Result<Option<First>, AllocError>
        requires lane { IsLane lane }
        requires id { IsIn cells.now.vdevs id }
        requires of { IsOf cells.now self.old.start }
        requires sound { IsSound D.state D.faults self.old }
        requires idle { self.old.first ≡ None }
        requires room { vec_len self.old.notes < vec_capacity self.old.notes }
        ensures sound { IsSound D.state D.faults self.new }
        ensures start { self.new.start ≡ self.old.start }
        ensures first { IfOk result (λ first. self.new.first ≡ first) }
        ensures notes { IfOk result (λ first. self.new.notes.items ≡ self.old.notes.items ++ noted lane first) }
        ensures later { IsPrefix (seen_in self.old.passes (number_of cells.now.vdevs id)) (seen_in self.new.passes (number_of cells.now.vdevs id)) }
        ensures loaded { result ≡ Ok None → IsPlace true (number_of cells.now.vdevs id) self.old.passes self.new.passes }
        ensures err { OnErr result (self.new.notes ≡ self.old.notes) }
    {
        match self.read(alloc, cells, id) {
            Ok(runs) => self.hand(rt, cells, lane, id, &runs),
            Err(met) => self.meet(lane, met),
        }
    }

    /// Loads a metaslab for a lane. A loaded metaslab is Ok, and nothing is read. The note is that of what was met.
    fn load<W: Wait>(
        &mut self,
        rt: &W,
        alloc: Global,
        cells: &Cells<R>,
        lane: u8,
        id: MsId,
    ) -> (Result<(), LoadFault>, Option<(u8, KeeperNote)>)
        requires lane { IsLane lane }
        requires id { IsIn cells.now.vdevs id }
        requires of { IsOf cells.now self.old.start }
        requires sound { IsSound D.state D.faults self.old }
        ensures sound { IsSound D.state D.faults self.new }
        ensures start { self.new.start ≡ self.old.start }
        ensures noted { LoadNoted lane result.0 self.old.notes.items result.1 }
        ensures notes { self.new.notes.items ≡ self.old.notes.items ++ option_to_list result.1 }
        ensures loaded { IsLoadedAt result.0 (number_of cells.now.vdevs id) self.old.passes self.new.passes }
        ensures own { IfSome result.1 (λ n. n.0 ≡ lane) }
    {
        if self.see(rt, cells, id) {
            return (Ok(()), None);
        }
        if let Some(first) = self.first {
            return (Err(LoadFault::Suspended { first }), None);
        }
        if self.make_room().is_err() {
            return (Err(LoadFault::Memory), None);
        }
        match self.load_unloaded(rt, alloc, cells, lane, id) {
            Ok(None) => (Ok(()), None),
            Ok(Some(first)) => (Err(load_fault(first)), Some((lane, note_of(first)))),
            Err(_) => (Err(LoadFault::Memory), None),
        }
    }

    /// The same, where the keeper first learns what the lane has seen of the metaslab, and the lane then what the keeper has.
    pub(crate) fn load_for<W: Wait>(
        &mut self,
        rt: &W,
        alloc: Global,
        cells: &Cells<R>,
        passes: &mut CellPasses<R>,
        lane: u8,
        id: MsId,
    ) -> (Result<(), LoadFault>, Option<(u8, KeeperNote)>)
        requires lane { IsLane lane }
        requires id { IsIn cells.now.vdevs id }
        requires of { IsOf cells.now self.old.start }
        requires sound { IsSound D.state D.faults self.old }
        requires seated { Seated lane cells.now passes.old }
        ensures sound { IsSound D.state D.faults self.new }
        ensures start { self.new.start ≡ self.old.start }
        ensures noted { LoadNoted lane result.0 self.old.notes.items result.1 }
        ensures notes { self.new.notes.items ≡ self.old.notes.items ++ option_to_list result.1 }
        ensures own { IfSome result.1 (λ n. n.0 ≡ lane) }
        ensures passes { Journey lane [] passes.old passes.new }
        ensures loaded { IsLoadedAt result.0 (number_of cells.now.vdevs id) passes.old passes.new }
    {
        self.hear(cells, passes, lane, id);
        let answer = self.load(rt, alloc, cells, lane, id);
        self.tell(cells, passes, lane, id);
        answer
    }
}
