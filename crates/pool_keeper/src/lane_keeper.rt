//! What a lane has of the keeper.
ghost use Rattle.std.specs.Prelude.{◌≡◌, ℕ, None};
ghost use Rattle.ms_cell.specs.Loads.{Counts};
ghost use Rattle.pool_keeper.specs.Serving.{Serves, Follows};
ghost use Rattle.pool_keeper.specs.ServingLaws.{serves_along, follows_itself, follows_along};

use crate::keeper::Keeper;
use ms_cell::{CellPasses, Cells, LoadFault, Loader};
use seg_trees::SegTrees;
use std::alloc::Global;
use std::sync::Wait;
use turn_cell::{Pass, Turn};
use zms_dev::Disk;
use zms_units::MsId;

/// A lane's pass of the keeper, which has the lane's number as its right; and the count and the last of the refusals of its
/// loads.
#[derive(Drop)]
pub struct LaneKeeper<'a, D: Disk + Send, R: SegTrees + Send> {
    pub(crate) turn: &'a Turn<Keeper<D, R>>,
    pub(crate) pass: Pass<Keeper<D, R>>,
    pub(crate) lane: u8,
    pub(crate) alloc: Global,
    pub(crate) refusals: u64,
    pub(crate) last: Option<LoadFault>,
}

impl<'a, D: Disk + Send, R: SegTrees + Send> LaneKeeper<'a, D, R> {
    /// What a lane has of a keeper under this turn, by a pass that has the lane's right. It has refused nothing yet.
    pub fn new(
        alloc: Global,
        turn: &'a Turn<Keeper<D, R>>,
        pass: Pass<Keeper<D, R>>,
        lane: u8,
    ) -> Self
        ensures turn { result.turn.now ≡ turn.now }
        ensures pass { result.pass ≡ pass }
        ensures lane { result.lane ≡ lane }
        ensures count { result.refusals ≡ 0 }
        ensures last { result.last ≡ None }
    {
        LaneKeeper {
            turn,
            pass,
            lane,
            alloc,
            refusals: 0,
            last: None,
        }
    }

    /// Gives the pass back.
    pub fn into_pass(self) -> Pass<Keeper<D, R>>
        ensures { result ≡ self.entry.pass }
    {
        self.pass
    }
}

// Counts a load refusal, which want of memory is not.
fn counted(
    answer: Result<(), LoadFault>,
    refusals: u64,
    last: Option<LoadFault>,
) -> (u64, Option<LoadFault>)
    ensures { Counts answer refusals last result.0 result.1 }
{
    match answer {
        Ok(()) => (refusals, last),
        Err(LoadFault::Memory) => (refusals, last),
        Err(fault) => (refusals.saturating_add(1), Some(fault)),
    }
}

impl<'a, D: Disk + Send, R: SegTrees + Send> Loader<R> for LaneKeeper<'a, D, R> {
    ghost refusals = { λ k. k.refusals };

    ghost last = { λ k. k.last };

    ghost follows = { Follows };

    ghost serves = { Serves };

    ghost serves_along = { serves_along };

    ghost follows_itself = { follows_itself };

    ghost follows_along = { follows_along };

    fn load<W: Wait>(
        &mut self,
        rt: &W,
        cells: &Cells<R>,
        passes: &mut CellPasses<R>,
        lane: u8,
        id: MsId,
    ) -> Result<(), LoadFault> {
        let mut held = self.turn.take(rt, &mut self.pass);
        let keeper = held.value_mut();
        let (answer, note) = keeper.load_for(rt, self.alloc, cells, passes, lane, id);
        self.turn.give(held, &mut self.pass, note);
        let (refusals, last) = counted(answer, self.refusals, self.last);
        self.refusals = refusals;
        self.last = last;
        answer
    }
}
