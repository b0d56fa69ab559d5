//! The gate under a turn.
ghost use Rattle.std.specs.Prelude.{◌≡◌};
ghost use Rattle.ms_model.specs.Parts.{gate_right};

use crate::gate::Gate;
use ms_model::GateNote;
use turn_cell::Kept;
use zms_units::Group;

/// A gate stands for the group at which its pool was opened.
impl Kept for Gate {
    type Note = GateNote;

    type Fixed = Group;

    ghost journal = { λ g. g.notes };

    ghost right = { gate_right };

    ghost fixed = { λ g. record { 0 = g.opened } };

    ghost stands = { λ f g. g.opened ≡ f.0 };
}
