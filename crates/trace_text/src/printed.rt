//! What has a text, and how texts are put together.

ghost use Rattle.std.specs.Prelude.{◌++◌, List, ℕ};
ghost use Rattle.std.specs.List.{flat_map};
ghost use Rattle.zms_dev.specs.Prints.{Prints};
ghost use Rattle.trace_text.specs.Pieces.{text_if};

use zms_dev::{Failed, Sink};
use zms_units::Items;

/// What has a text, and writes it to a sink. A tuple has the texts of its members, one behind the other.
pub trait Printed {
    ghost text: { Self → List ℕ };

    /// Writes the text piece by piece, and stops at the first piece that the sink doesn't take whole. Takes no memory.
    /// Linear in the text.
    fn write<S: Sink>(&self, sink: &mut S) -> Result<(), Failed>
        ensures { Prints (S.state sink.old) (S.state sink.new) (text self.now) result };
}

impl<A: Printed> Printed for &A {
    ghost text = { λ a. A.text a.now };

    fn write<S: Sink>(&self, sink: &mut S) -> Result<(), Failed> {
        (**self).write(sink)
    }
}

/// Nothing, where there is nothing to print.
impl<A: Printed> Printed for Option<A> {
    ghost text = { λ a. text_if A.text a };

    fn write<S: Sink>(&self, sink: &mut S) -> Result<(), Failed> {
        match self {
            None => Each::<A>(&[]).write(sink),
            Some(a) => a.write(sink),
        }
    }
}

impl<A: Printed, B: Printed> Printed for (A, B) {
    ghost text = { λ t. A.text t.0 ++ B.text t.1 };

    fn write<S: Sink>(&self, sink: &mut S) -> Result<(), Failed> {
        self.0.write(sink)?;
        self.1.write(sink)
    }
}

impl<A: Printed, B: Printed, C: Printed> Printed for (A, B, C) {
    ghost text = { λ t. A.text t.0 ++ (B.text t.1 ++ C.text t.2) };

    fn write<S: Sink>(&self, sink: &mut S) -> Result<(), Failed> {
        (&self.0, (&self.1, &self.2)).write(sink)
    }
}

impl<A: Printed, B: Printed, C: Printed, D: Printed> Printed for (A, B, C, D) {
    ghost text = { λ t. A.text t.0 ++ (B.text t.1 ++ (C.text t.2 ++ D.text t.3)) };

    fn write<S: Sink>(&self, sink: &mut S) -> Result<(), Failed> {
        (&self.0, (&self.1, &self.2, &self.3)).write(sink)
    }
}

impl<A: Printed, B: Printed, C: Printed, D: Printed, E: Printed> Printed for (A, B, C, D, E) {
    ghost text = { λ t. A.text t.0 ++ (B.text t.1 ++ (C.text t.2 ++ (D.text t.3 ++ E.text t.4))) };

    fn write<S: Sink>(&self, sink: &mut S) -> Result<(), Failed> {
        (&self.0, (&self.1, &self.2, &self.3, &self.4)).write(sink)
    }
}

impl<A: Printed, B: Printed, C: Printed, D: Printed, E: Printed, F: Printed> Printed
    for (A, B, C, D, E, F) {
    ghost text = { λ t. A.text t.0 ++ (B.text t.1 ++ (C.text t.2 ++ (D.text t.3 ++ (E.text t.4 ++ F.text t.5)))) };

    fn write<S: Sink>(&self, sink: &mut S) -> Result<(), Failed> {
        (&self.0, (&self.1, &self.2, &self.3, &self.4, &self.5)).write(sink)
    }
}

/// The texts of all items, one behind the other.
#[derive(Clone, Copy)]
pub struct Each<'a, T>(pub &'a [T]);

impl<T: Printed> Printed for Each<'_, T> {
    ghost text = { λ e. flat_map T.text e.0.now };

    fn write<S: Sink>(&self, sink: &mut S) -> Result<(), Failed> {
        for item in self.0 {
            item.write(sink)?;
        }
        Ok(())
    }
}

impl<T: Printed> Printed for Items<T> {
    ghost text = { λ items. flat_map T.text items };

    fn write<S: Sink>(&self, sink: &mut S) -> Result<(), Failed> {
        Each(self.as_slice()).write(sink)
    }
}
