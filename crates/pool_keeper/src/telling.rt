//! What the keeper and a lane tell each other, and what the keeper sees of one metaslab.
ghost use Rattle.std.specs.Prelude.{◌≡◌, ℕ, ◌<◌, [], None, length, vec_len, vec_capacity, OnOk};
ghost use Rattle.turn_cell.specs.Notes.{IsPrefix};
ghost use Rattle.vdev_map.specs.Numbers.{IsIn, number_of};
ghost use Rattle.ms_cell.specs.Passes.{Seated, seen_in};
ghost use Rattle.ms_cell.specs.Journey.{Journey};
ghost use Rattle.ms_cell.specs.Loads.{IsPlace};
ghost use Rattle.pool_keeper.specs.Keeper.{IsOf, IsSound};
ghost use Rattle.pool_keeper.specs.Lines.{HasSettled};
ghost use Rattle.pool_keeper.specs.SyncParts.{MeetNoted};

use crate::keeper::Keeper;
use crate::places::{count_of, id_at};
use ms_cell::{CellPasses, Cells, look_at, tell_at, tell_gate};
use seg_trees::SegTrees;
use std::alloc::AllocError;
use std::sync::Wait;
use zms_dev::Disk;
use zms_units::{First, MsId};

impl<D: Disk, R: SegTrees> Keeper<D, R> {
    /// Takes the room for one note.
    pub(crate) fn make_room(&mut self) -> Result<(), AllocError>
        requires sound { IsSound D.state D.faults self.old }
        ensures sound { IsSound D.state D.faults self.new }
        ensures rest { self.new ≡ record self.old { notes = self.new.notes } }
        ensures notes { self.new.notes.items ≡ self.old.notes.items }
        ensures room { OnOk result (vec_len self.new.notes < vec_capacity self.new.notes) }
    {
        self.notes.reserve(1)
    }

    /// Whether a metaslab is loaded.
    pub(crate) fn see<W: Wait>(&mut self, rt: &W, cells: &Cells<R>, id: MsId) -> bool
        requires id { IsIn cells.now.vdevs id }
        requires of { IsOf cells.now self.old.start }
        requires sound { IsSound D.state D.faults self.old }
        ensures sound { IsSound D.state D.faults self.new }
        ensures rest { self.new ≡ record self.old { passes = self.new.passes } }
        ensures place { IsPlace result (number_of cells.now.vdevs id) self.old.passes self.new.passes }
    {
        look_at(rt, cells, &mut self.passes, id).2
    }

    /// Learns what a lane has seen of a metaslab.
    pub(crate) fn hear(&mut self, cells: &Cells<R>, passes: &mut CellPasses<R>, lane: u8, id: MsId)
        requires id { IsIn cells.now.vdevs id }
        requires of { IsOf cells.now self.old.start }
        requires sound { IsSound D.state D.faults self.old }
        requires seated { Seated lane cells.now passes.old }
        ensures sound { IsSound D.state D.faults self.new }
        ensures rest { self.new ≡ record self.old { passes = self.new.passes } }
        ensures passes { passes.new ≡ passes.old }
        ensures knows { IsPrefix (seen_in passes.old (number_of cells.now.vdevs id)) (seen_in self.new.passes (number_of cells.now.vdevs id)) }
    {
        tell_at(cells, passes, &mut self.passes, id);
    }

    /// Tells a lane what it has seen of a metaslab.
    pub(crate) fn tell(&mut self, cells: &Cells<R>, passes: &mut CellPasses<R>, lane: u8, id: MsId)
        requires id { IsIn cells.now.vdevs id }
        requires of { IsOf cells.now self.old.start }
        requires sound { IsSound D.state D.faults self.old }
        requires seated { Seated lane cells.now passes.old }
        ensures same { self.new ≡ self.old }
        ensures passes { Journey lane [] passes.old passes.new }
        ensures knows { IsPrefix (seen_in self.old.passes (number_of cells.now.vdevs id)) (seen_in passes.new (number_of cells.now.vdevs id)) }
    {
        tell_at(cells, &mut self.passes, passes, id);
    }
}

/// Lets the second holder know all that the first has seen.
fn tell_each<R: SegTrees>(cells: &Cells<R>, from: &mut CellPasses<R>, to: &mut CellPasses<R>)
    requires from { (right : ℕ) × Seated right cells.now from.old }
    requires to { (right : ℕ) × Seated right cells.now to.old }
    ensures from { from.new ≡ from.old }
    ensures gate { IsPrefix from.old.gate.seen to.new.gate.seen }
    ensures knows { (k : ℕ) → k < length cells.now.metaslabs → IsPrefix (seen_in from.old k) (seen_in to.new k) }
    ensures to { (right : ℕ) → Seated right cells.now to.old → Journey right [] to.old to.new }
{
    tell_metaslabs(cells, from, to);
    tell_gate(cells, from, to);
}

fn tell_metaslabs<R: SegTrees>(cells: &Cells<R>, from: &mut CellPasses<R>, to: &mut CellPasses<R>)
    requires from { (right : ℕ) × Seated right cells.now from.old }
    requires to { (right : ℕ) × Seated right cells.now to.old }
    ensures from { from.new ≡ from.old }
    ensures knows { (k : ℕ) → k < length cells.now.metaslabs → IsPrefix (seen_in from.old k) (seen_in to.new k) }
    ensures to { (right : ℕ) → Seated right cells.now to.old → Journey right [] to.old to.new }
{
    for number in 0..count_of(cells) {
        tell_at(cells, from, to, id_at(cells, number));
    }
}

impl<D: Disk, R: SegTrees> Keeper<D, R> {
    /// Learns all that a lane has seen.
    pub(crate) fn hear_all(&mut self, cells: &Cells<R>, passes: &mut CellPasses<R>, lane: u8)
        requires of { IsOf cells.now self.old.start }
        requires sound { IsSound D.state D.faults self.old }
        requires seated { Seated lane cells.now passes.old }
        ensures sound { IsSound D.state D.faults self.new }
        ensures rest { self.new ≡ record self.old { passes = self.new.passes } }
        ensures passes { passes.new ≡ passes.old }
        ensures gate { IsPrefix passes.old.gate.seen self.new.passes.gate.seen }
    {
        tell_each(cells, passes, &mut self.passes);
    }

    /// Tells a lane all that it has seen: of each metaslab, and of the gate, that the last committed group is settled.
    pub(crate) fn tell_all(&mut self, cells: &Cells<R>, passes: &mut CellPasses<R>, lane: u8)
        requires of { IsOf cells.now self.old.start }
        requires sound { IsSound D.state D.faults self.old }
        requires seated { Seated lane cells.now passes.old }
        ensures same { self.new ≡ self.old }
        ensures passes { Journey lane [] passes.old passes.new }
        ensures settled { HasSettled cells.now self.old.store.table.group.0 passes.new }
    {
        tell_each(cells, &mut self.passes, passes);
    }

    /// Tells a lane what it has seen of the gate.
    fn tell_of_gate(&mut self, cells: &Cells<R>, passes: &mut CellPasses<R>, lane: u8)
        requires of { IsOf cells.now self.old.start }
        requires sound { IsSound D.state D.faults self.old }
        requires seated { Seated lane cells.now passes.old }
        ensures same { self.new ≡ self.old }
        ensures passes { Journey lane [] passes.old passes.new }
        ensures knows { IsPrefix self.old.passes.gate.seen passes.new.gate.seen }
    {
        tell_gate(cells, &mut self.passes, passes);
    }

    /// Learns all that a lane has seen, and tells it what it has seen of the gate, unless a fault is kept, which is the answer.
    pub(crate) fn greet(
        &mut self,
        cells: &Cells<R>,
        passes: &mut CellPasses<R>,
        lane: u8,
    ) -> Option<First>
        requires of { IsOf cells.now self.old.start }
        requires sound { IsSound D.state D.faults self.old }
        requires seated { Seated lane cells.now passes.old }
        ensures sound { IsSound D.state D.faults self.new }
        ensures start { self.new.start ≡ self.old.start }
        ensures notes { self.new.notes.items ≡ self.old.notes.items }
        ensures noted { MeetNoted lane result self.old.notes.items None }
        ensures passes { Journey lane [] passes.old passes.new }
    {
        if let Some(first) = self.first {
            return Some(first);
        }
        self.hear_all(cells, passes, lane);
        self.tell_of_gate(cells, passes, lane);
        None
    }
}
