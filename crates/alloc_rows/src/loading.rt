//! The loader of the rows.
ghost use Rattle.std.specs.Prelude.{◌≡◌, ℕ, true, OnOk};
ghost use Rattle.zms_units.specs.Limits.{IsLane};
ghost use Rattle.turn_cell.specs.Notes.{IsPrefix};
ghost use Rattle.vdev_map.specs.Numbers.{IsIn, number_of};
ghost use Rattle.ms_cell.specs.Passes.{Seated, seen_in};
ghost use Rattle.ms_cell.specs.Loads.{Counts, IsPlace, IsLoadedAt};
ghost use Rattle.alloc_rows.specs.Serving.{Keeps};
ghost use Rattle.alloc_rows.specs.Loading.{Follows, Serves, serves_along, follows_itself, follows_along};

use crate::meanwhile::{Meanwhile, collect_first, free_other, has};
use ms_cell::{CellPasses, Cells, LoadFault, Loader, load_at, look_at, tell_at};
use range_tree::RangeTrees;
use row_tables::are_segs;
use std::alloc::Global;
use std::sync::Wait;
use zms_units::{Damage, MsId, Seg};

/// Loads a metaslab from the runs that a row gives, of which there are none at first, unless a row has it refuse. What a row
/// has others do meanwhile is done once, before the next load.
#[derive(Drop)]
pub struct RowLoader {
    pub(crate) keeper: CellPasses<RangeTrees>,
    pub(crate) other: CellPasses<RangeTrees>,
    pub(crate) held: Vec<Seg>,
    pub(crate) refusal: Option<LoadFault>,
    pub(crate) meanwhile: Option<Meanwhile>,
    collected: bool,
    memory: Global,
    refusals: u64,
    last: Option<LoadFault>,
}

impl RowLoader {
    pub fn new(
        memory: Global,
        keeper: CellPasses<RangeTrees>,
        other: CellPasses<RangeTrees>,
    ) -> Self
        ensures keeper { result.keeper ≡ keeper }
        ensures other { result.other ≡ other }
    {
        RowLoader {
            keeper,
            other,
            held: Vec::new(memory),
            refusal: None,
            meanwhile: None,
            collected: false,
            memory,
            refusals: 0,
            last: None,
        }
    }

    /// Does what a row has others do, if anything.
    fn let_others<W: Wait>(&mut self, rt: &W, cells: &Cells<RangeTrees>, lane: u8)
        requires lane { IsLane lane }
        requires serves { Serves self.old lane cells.now }
        ensures { Follows self.old self.new }
    {
        let meanwhile = self.meanwhile;
        self.meanwhile = None;
        match meanwhile {
            Some(Meanwhile::Free { id, seg }) if has(cells, id) => {
                free_other(rt, cells, &mut self.other, id, seg);
            }
            Some(Meanwhile::Collect { id }) if !self.collected && has(cells, id) => {
                collect_first(rt, self.memory, cells, &mut self.keeper, lane, id);
                self.collected = true;
            }
            _ => {}
        }
    }

    /// Loads a metaslab with the keeper's passes.
    fn load_kept<W: Wait>(
        &mut self,
        rt: &W,
        cells: &Cells<RangeTrees>,
        lane: u8,
        id: MsId,
    ) -> Result<(), LoadFault>
        requires lane { IsLane lane }
        requires id { IsIn cells.now.vdevs id }
        requires seated { Seated 0 cells.now self.old.keeper }
        ensures keeps { Keeps self.old.keeper self.new.keeper }
        ensures rest { self.new ≡ record self.old { keeper = self.new.keeper } }
        ensures loaded { IsLoadedAt result (number_of cells.now.vdevs id) self.old.keeper self.new.keeper }
    {
        if see(rt, cells, &mut self.keeper, id) {
            return Ok(());
        }
        match self.refusal {
            Some(fault) => Err(fault),
            None => hand(rt, cells, &mut self.keeper, lane, id, &self.held),
        }
    }
}

/// Whether a metaslab is loaded.
fn see<W: Wait>(
    rt: &W,
    cells: &Cells<RangeTrees>,
    keeper: &mut CellPasses<RangeTrees>,
    id: MsId,
) -> bool
    requires id { IsIn cells.now.vdevs id }
    requires seated { Seated 0 cells.now keeper.old }
    ensures keeps { Keeps keeper.old keeper.new }
    ensures place { IsPlace result (number_of cells.now.vdevs id) keeper.old keeper.new }
{
    // It is one of the cells.
    let _ = cells.place_of(id);
    look_at(rt, cells, keeper, id).2
}

/// Loads a metaslab from runs. Want of memory is told too where they are no runs of it.
fn hand<W: Wait>(
    rt: &W,
    cells: &Cells<RangeTrees>,
    keeper: &mut CellPasses<RangeTrees>,
    lane: u8,
    id: MsId,
    held: &[Seg],
) -> Result<(), LoadFault>
    requires lane { IsLane lane }
    requires id { IsIn cells.now.vdevs id }
    requires seated { Seated 0 cells.now keeper.old }
    ensures keeps { Keeps keeper.old keeper.new }
    ensures later { IsPrefix (seen_in keeper.old (number_of cells.now.vdevs id)) (seen_in keeper.new (number_of cells.now.vdevs id)) }
    ensures loaded { OnOk result (IsPlace true (number_of cells.now.vdevs id) keeper.old keeper.new) }
{
    // It is one of the cells.
    let _ = cells.place_of(id);
    if !are_segs(cells.layout.vdevs.as_slice()[id.vdev as usize].units, held) {
        return Err(LoadFault::Memory);
    }
    match load_at(rt, cells, keeper, lane, id, held) {
        Ok(None) => Ok(()),
        Ok(Some(unit)) => Err(LoadFault::Damaged {
            id,
            damage: Damage::Unit { unit },
        }),
        Err(_) => Err(LoadFault::Memory),
    }
}

/// Counts a load refusal, which want of memory is not.
fn counted(
    answer: Result<(), LoadFault>,
    refusals: u64,
    last: Option<LoadFault>,
) -> (u64, Option<LoadFault>)
    ensures { Counts answer refusals last result.0 result.1 }
{
    match answer {
        Ok(()) => (refusals, last),
        Err(LoadFault::Memory) => (refusals, last),
        Err(fault) => (refusals.saturating_add(1), Some(fault)),
    }
}

impl Loader<RangeTrees> for RowLoader {
    ghost refusals = { λ l. l.refusals };

    ghost last = { λ l. l.last };

    ghost follows = { Follows };

    ghost serves = { Serves };

    ghost serves_along = { serves_along };

    ghost follows_itself = { follows_itself };

    ghost follows_along = { follows_along };

    fn load<W: Wait>(
        &mut self,
        rt: &W,
        cells: &Cells<RangeTrees>,
        passes: &mut CellPasses<RangeTrees>,
        lane: u8,
        id: MsId,
    ) -> Result<(), LoadFault> {
        let (refusals, last) = (self.refusals, self.last);
        self.let_others(rt, cells, lane);
        tell_at(cells, passes, &mut self.keeper, id);
        let answer = self.load_kept(rt, cells, lane, id);
        tell_at(cells, &mut self.keeper, passes, id);
        let (refusals, last) = counted(answer, refusals, last);
        self.refusals = refusals;
        self.last = last;
        answer
    }
}
