//! Where copies of a block lie.

ghost use Rattle.std.specs.List.{flat_map};
ghost use Rattle.zms_dev.specs.Prints.{Prints};
ghost use Rattle.trace_text.specs.Places.{copy_text};

use crate::pieces::Piece::{Number, Text};
use crate::pieces::write_pieces;
use crate::printed::{Each, Printed};
use zms_dev::{Failed, Sink};
use zms_units::{Copies, Dva};

/// A copy's place, behind a space.
impl Printed for Dva {
    ghost text = { copy_text };

    fn write<S: Sink>(&self, sink: &mut S) -> Result<(), Failed> {
        write_pieces(
            sink,
            &[
                Text(b" "),
                Text(self.class.word().as_bytes()),
                Text(b" "),
                Number(u64::from(self.vdev)),
                Text(b":"),
                Number(self.offset),
                Text(b":"),
                Number(self.size),
            ],
        )
    }
}

impl Printed for Copies {
    ghost text = { λ copies. flat_map copy_text copies };

    fn write<S: Sink>(&self, sink: &mut S) -> Result<(), Failed> {
        Each(self.as_slice()).write(sink)
    }
}
