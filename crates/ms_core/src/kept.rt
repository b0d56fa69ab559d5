//! A metaslab under a turn.
ghost use Rattle.std.specs.Prelude.{◌≡◌};
ghost use Rattle.ms_model.specs.Parts.{right_of};
ghost use Rattle.ms_core.specs.Standing.{standing_of};

use crate::metaslab::Metaslab;
use ms_model::Noted;
use seg_trees::SegTrees;
use turn_cell::Kept;
use zms_units::{Group, Items, MsId, Seg};

/// What stays the same of a metaslab while its pool is open: its name, its units and their shift, the group that was
/// opened, and the runs that this group holds. No value of it is made.
pub struct Standing {
    pub id: MsId,
    pub units: u32,
    pub ashift: u8,
    pub opened: Group,
    pub base: Items<Seg>,
}

/// A metaslab stands for what it was when its pool was opened. The keeper's acts need right 0, each other note the number
/// of its lane.
impl<R: SegTrees> Kept for Metaslab<R> {
    type Note = Noted;

    type Fixed = Standing;

    ghost journal = { λ m. m.notes };

    ghost right = { right_of };

    ghost fixed = { standing_of };

    ghost stands = { λ f m. standing_of m ≡ f };
}
