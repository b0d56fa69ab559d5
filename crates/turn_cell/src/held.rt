//! The value while a turn lends it.
ghost use Rattle.std.specs.Prelude.{◌≡◌};
ghost use Rattle.std.specs.Borrow.{Lends, sem};
ghost use Rattle.turn_cell.specs.contracts.held.Held.{the_row};

use std::marker::Model;

/// The value of a turn, taken out. It has to be given back. In a clause it is the value.
#[must_use]
pub struct Held<T> {
    pub(crate) value: T,
}

impl<T> Model for Held<T> {
    ghost use Rattle.std.specs.Prelude.{◌≡◌};

    ghost Value = { T };

    ghost view = { λ h. h.value };
}

impl<T> Held<T> {
    pub fn value(&self) -> &T
        ensures { result.now ≡ self.now }
    {
        &self.value
    }

    pub fn value_mut(&mut self) -> &mut T
        ensures* writes_back { sem 𝓛 (Lends (the_row T.row) T.row self.entry result (λ w. w)) }
        ensures value { result.now ≡ self.old }
    {
        &mut self.value
    }
}
