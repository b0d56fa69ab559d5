//! The rule that each atomic step keeps.
ghost use Rattle.turn_cell.specs.Rule.{Turns, newcomer};

use crate::kept::Kept;
use crate::view::View;
use atomic_table::TableRule;
use std::snapshot::Snapshot;

pub struct Law;

impl<T: Kept> TableRule<Option<T>, View<T::Note, T::Fixed>, Snapshot<T>> for Law {
    ghost holds = { λ key. Turns T.journal T.right T.stands (T.fixed key.value) };

    ghost first = { λ key. newcomer (T.fixed key.value) };
}
