//! A keeper under a turn.
ghost use Rattle.std.specs.Prelude.{◌≡◌};
ghost use Rattle.pool_keeper.specs.Notes.{keeper_right};
ghost use Rattle.pool_keeper.specs.Keeper.{IsSound};

use crate::keeper::{Keeper, Start};
use ms_model::KeeperNote;
use seg_trees::SegTrees;
use turn_cell::Kept;
use zms_dev::Disk;

/// A keeper stands for what it began with, and is sound. Each note needs the number of its lane.
impl<D: Disk + Send, R: SegTrees + Send> Kept for Keeper<D, R> {
    type Note = (u8, KeeperNote);

    type Fixed = Start<D, R>;

    ghost journal = { λ k. k.notes.items };

    ghost right = { keeper_right };

    ghost fixed = { λ k. k.start };

    ghost stands = { λ f k. (k.start ≡ f) × IsSound D.state D.faults k };
}
