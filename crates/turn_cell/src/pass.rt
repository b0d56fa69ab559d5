//! What one thread knows of a turn.
use crate::kept::Kept;
use crate::view::View;
use atomic_table::Seat;
use std::marker::Model;

/// What one thread knows of a turn, with its rights. It has no bytes. Contracts see it as a `Known`.
#[derive(Drop)]
pub struct Pass<T: Kept> {
    pub(crate) seat: Seat<Option<T>, View<T::Note, T::Fixed>>,
}

impl<T: Kept> Model for Pass<T> {
    ghost use Rattle.turn_cell.specs.Known.{Known};

    ghost Value = { Known T.Note T.Fixed };

    ghost use Rattle.turn_cell.specs.Rule.{known, IsPass};

    ghost view = { λ p. known p.seat.table_id p.seat.me };

    ghost invariant = { λ p. IsPass T.right p.seat.me };
}
