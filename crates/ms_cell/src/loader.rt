//! What brings the free space of a metaslab into memory for a lane.
ghost use Rattle.std.specs.Prelude.{◌≡◌, ℕ, ◌≤◌, [], Option};
ghost use Rattle.zms_units.specs.Limits.{IsLane};
ghost use Rattle.vdev_map.specs.Numbers.{IsIn, number_of};
ghost use Rattle.ms_cell.specs.Passes.{Seated};
ghost use Rattle.ms_cell.specs.Journey.{Journey};
ghost use Rattle.ms_cell.specs.Loads.{Counts, IsLoadedAt};

use crate::cells::{CellPasses, Cells};
use seg_trees::SegTrees;
use std::sync::Wait;
use zms_units::{Damage, First, MsId};

/// Why a metaslab was not loaded. All but want of memory are load refusals.
#[derive(Clone, Copy, Debug, PartialEq, Eq)]
pub enum LoadFault {
    /// The pool met a fault or damage before, and reads nothing since.
    Suspended { first: First },
    /// The device failed in this load: its count of faults before and after it.
    Device { before: u64, after: u64 },
    /// What was read is damaged.
    Damaged { id: MsId, damage: Damage },
    Memory,
}

/// Loads metaslabs, and keeps how often it refused to and why.
pub trait Loader<R: SegTrees> {
    ghost use Rattle.ms_cell.specs.declared.loader.LoadFault.{LoadFault};
    ghost use Rattle.ms_cell.specs.Turns.{Turns};

    /// How many load refusals it gave, which stands still at the greatest `u64`.
    ghost refusals: { Self → ℕ };

    /// The last of them.
    ghost last: { Self → Option LoadFault };

    /// A state comes after another by loads.
    ghost follows: { Self → Self → Type 0 };

    /// It loads for this lane, at these cells.
    ghost serves: { Self → ℕ → Turns → Type 0 };

    ghost serves_along: { (first : Self) (second : Self) (lane : ℕ) (cells : Turns) → serves first lane cells → follows first second → serves second lane cells };

    ghost follows_itself: { (state : Self) → follows state state };

    ghost follows_along: { (first : Self) (second : Self) (third : Self) → follows first second → follows second third → follows first third };

    /// Loads a metaslab for a lane. A loaded metaslab is Ok. The lane's passes may have seen more afterwards, and have the
    /// same rights and notes.
    fn load<W: Wait>(
        &mut self,
        rt: &W,
        cells: &Cells<R>,
        passes: &mut CellPasses<R>,
        lane: u8,
        id: MsId,
    ) -> Result<(), LoadFault>
        requires lane { IsLane lane }
        requires id { IsIn cells.now.vdevs id }
        requires seated { Seated lane cells.now passes.old }
        requires serves { serves self.old lane cells.now }
        ensures passes { Journey lane [] passes.old passes.new }
        ensures follows { follows self.old self.new }
        ensures counts { Counts result (refusals self.old) (last self.old) (refusals self.new) (last self.new) }
        ensures loaded { IsLoadedAt result (number_of cells.now.vdevs id) passes.old passes.new };
}
