//! A class under a turn.
ghost use Rattle.std.specs.Prelude.{◌≡◌};

use crate::cell::ClassCell;
use class_model::ClassOrigin;
use ms_model::ClassNote;
use turn_cell::Kept;

/// A class stands for what it was when its pool was opened. Each note needs the number of its lane.
impl Kept for ClassCell {
    type Note = (u8, ClassNote);

    type Fixed = ClassOrigin;

    ghost journal = { λ c. c.notes };

    ghost right = { λ n. n.0 };

    ghost fixed = { λ c. c.origin };

    ghost stands = { λ f c. c.origin ≡ f };
}
