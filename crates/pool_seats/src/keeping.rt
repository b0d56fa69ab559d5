//! The keeper of a pool, under its turn.
ghost use Rattle.std.specs.Prelude.{◌≡◌, ℕ, Some, IfOk, IfErr};
ghost use Rattle.turn_passes.specs.Parts.{IsRest, IsFresh};
ghost use Rattle.ms_cell.specs.Turns.{Turns};
ghost use Rattle.pool_keeper.specs.Keeper.{MayBegin};
ghost use Rattle.pool_seats.specs.Seats.{StartsWith};

use crate::pool::PoolKeeper;
use meta_store::MetaStore;
use ms_cell::CellPasses;
use pool_keeper::Keeper;
use range_tree::RangeTrees;
use std::alloc::Global;
use turn_cell::{Pass, Turn};
use turn_passes::{new_turn, next_pass};
use zms_dev::Disk;

/// A keeper under its turn: the pass that has right 0 alone, which no note of its journal needs, and the rest of the rights.
pub struct Kept<D: Disk + Send> {
    pub turn: Turn<PoolKeeper<D>>,
    pub zero: Pass<PoolKeeper<D>>,
    pub rest: Pass<PoolKeeper<D>>,
}

/// A keeper of this store. The only error is want of memory, and hands the store back.
pub fn keep<D: Disk + Send>(
    alloc: Global,
    store: MetaStore<D>,
    passes: CellPasses<RangeTrees>,
) -> Result<Kept<D>, MetaStore<D>>
    requires { (t : Turns) × MayBegin t store passes }
    ensures rest { IfOk result (λ k. IsRest 1 k.turn k.rest) }
    ensures zero { IfOk result (λ k. IsFresh 0 k.turn k.zero) }
    ensures starts { IfOk result (λ k. StartsWith store passes k.rest.fixed) }
    ensures err { IfErr result (λ back. back ≡ store) }
{
    match new_turn(alloc, Keeper::new(alloc, store, passes)) {
        Ok((turn, mut rest)) => {
            let zero = next_pass(&turn, &mut rest, 0);
            Ok(Kept { turn, zero, rest })
        }
        Err(keeper) => {
            let (store, _, _) = keeper.into_parts();
            Err(store)
        }
    }
}
