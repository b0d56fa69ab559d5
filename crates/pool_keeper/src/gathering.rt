//! Gathering what the next group changed, one metaslab after the other.
ghost use Rattle.std.specs.Prelude.{◌≡◌, ℕ, ◌+◌, ◌^◌, ◌<◌, [], None, length, IfOk, OnOk, OnErr};
ghost use Rattle.zms_units.specs.Limits.{IsLane};
ghost use Rattle.vdev_map.specs.Numbers.{IsIn, number_of};
ghost use Rattle.turn_cell.specs.Notes.{IsPrefix};
ghost use Rattle.ms_model.specs.Units.{collected_group};
ghost use Rattle.ms_cell.specs.Passes.{Seated, origin_in, seen_in};
ghost use Rattle.ms_cell.specs.Journey.{Journey};
ghost use Rattle.ms_cell.specs.GateAnswers.{IsClosedBefore};
ghost use Rattle.pool_keeper.specs.Answers.{Collected, IsCollected};
ghost use Rattle.pool_keeper.specs.Keeper.{IsOf, IsSound};

use crate::keeper::Keeper;
use crate::places::{count_of, id_at};
use ms_cell::{CellFault, CellPasses, Cells, collect_at};
use ms_core::{MsFault, RunBuf};
use seg_trees::SegTrees;
use std::alloc::{AllocError, Global};
use std::sync::Wait;
use vdev_map::Batch;
use zms_dev::Disk;
use zms_units::{Group, Items, MsId};

/// Collects the next group at the metaslab of an id. Lanes that are late may add runs between two tries, so there may be more
/// than two.
fn collect_runs<R: SegTrees, W: Wait>(
    rt: &W,
    alloc: Global,
    cells: &Cells<R>,
    passes: &mut CellPasses<R>,
    lane: u8,
    id: MsId,
    group: Group,
) -> Result<RunBuf, AllocError>
    requires lane { IsLane lane }
    requires id { IsIn cells.now.vdevs id }
    requires within { number_of cells.now.vdevs id < length cells.now.metaslabs }
    requires group { group.0 ≡ collected_group (origin_in passes.old (number_of cells.now.vdevs id)) (seen_in passes.old (number_of cells.now.vdevs id)) + 1 }
    requires seated { Seated 0 cells.now passes.old }
    ensures collected { IfOk result (λ buf. Collected lane (number_of cells.now.vdevs id) group buf.allocs.items buf.frees.items passes.old passes.new) }
    ensures err { OnErr result (Journey 0 [] passes.old passes.new) }
{
    let mut buf = RunBuf::new(alloc);
    for _ in rt.forever() {
        match collect_at(rt, cells, passes, lane, id, group, &mut buf) {
            Ok(()) => return Ok(buf),
            Err(CellFault::Ms(MsFault::Short { need })) => buf.reserve(need)?,
            Err(_) => return Err(AllocError),
        }
    }
    unreachable!()
}

/// Collects the next group at the metaslab of a number.
fn collect<R: SegTrees, W: Wait>(
    rt: &W,
    alloc: Global,
    cells: &Cells<R>,
    passes: &mut CellPasses<R>,
    lane: u8,
    number: usize,
    group: Group,
) -> Result<Batch, AllocError>
    requires lane { IsLane lane }
    requires number { number < length cells.now.metaslabs }
    requires group { group.0 ≡ collected_group (origin_in passes.old number) (seen_in passes.old number) + 1 }
    requires seated { Seated 0 cells.now passes.old }
    ensures collected { IfOk result (λ batch. IsCollected cells.now lane number group batch passes.old passes.new) }
    ensures err { OnErr result (Journey 0 [] passes.old passes.new) }
{
    let id = id_at(cells, number);
    let buf = collect_runs(rt, alloc, cells, passes, lane, id, group)?;
    Ok(Batch {
        id,
        allocs: Items::from_vec(buf.allocs),
        frees: Items::from_vec(buf.frees),
    })
}

impl<D: Disk, R: SegTrees> Keeper<D, R> {
    /// Gathers what the next group changed at the next metaslab, and keeps it.
    pub(crate) fn gather_one<W: Wait>(
        &mut self,
        rt: &W,
        alloc: Global,
        cells: &Cells<R>,
        lane: u8,
    ) -> Result<(), AllocError>
        requires lane { IsLane lane }
        requires of { IsOf cells.now self.old.start }
        requires sound { IsSound D.state D.faults self.old }
        requires closed { IsClosedBefore cells.now.opened (self.old.store.table.group.0 + 1) self.old.passes.gate.seen }
        requires small { self.old.store.table.group.0 + 1 < 2 ^ 50 }
        requires some { length self.old.gathered.items < length cells.now.metaslabs }
        ensures sound { IsSound D.state D.faults self.new }
        ensures start { self.new.start ≡ self.old.start }
        ensures store { self.new.store ≡ self.old.store }
        ensures first { self.new.first ≡ self.old.first }
        ensures notes { self.new.notes ≡ self.old.notes }
        ensures later { IsPrefix self.old.passes.gate.seen self.new.passes.gate.seen }
        ensures gathered { OnOk result (length self.new.gathered.items ≡ length self.old.gathered.items + 1) }
        ensures err { OnErr result (self.new.gathered.items ≡ self.old.gathered.items) }
    {
        self.gathered.reserve(1)?;
        let number = self.gathered.len();
        let group = Group(self.store.group().0 + 1);
        let batch = collect(rt, alloc, cells, &mut self.passes, lane, number, group)?;
        self.gathered.push_reserved(batch);
        Ok(())
    }

    /// Gathers what the next group changed at each metaslab that has not collected it. After want of memory what was gathered
    /// is kept.
    pub(crate) fn gather<W: Wait>(
        &mut self,
        rt: &W,
        alloc: Global,
        cells: &Cells<R>,
        lane: u8,
    ) -> Result<(), AllocError>
        requires lane { IsLane lane }
        requires of { IsOf cells.now self.old.start }
        requires sound { IsSound D.state D.faults self.old }
        requires closed { IsClosedBefore cells.now.opened (self.old.store.table.group.0 + 1) self.old.passes.gate.seen }
        requires small { self.old.store.table.group.0 + 1 < 2 ^ 50 }
        ensures sound { IsSound D.state D.faults self.new }
        ensures start { self.new.start ≡ self.old.start }
        ensures store { self.new.store ≡ self.old.store }
        ensures first { self.new.first ≡ self.old.first }
        ensures notes { self.new.notes ≡ self.old.notes }
        ensures later { IsPrefix self.old.passes.gate.seen self.new.passes.gate.seen }
        ensures gathered { OnOk result (length self.new.gathered.items ≡ length cells.now.metaslabs) }
    {
        for number in self.gathered.len()..count_of(cells) {
            self.gather_one(rt, alloc, cells, lane)?;
        }
        Ok(())
    }
}
