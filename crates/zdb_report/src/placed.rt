//! Items of a list whose texts tell their places.

ghost use Rattle.std.specs.Prelude.{◌≡◌, ◌<◌, ◌^◌, length, List, ℕ};
ghost use Rattle.zms_dev.specs.Prints.{Prints};
ghost use Rattle.trace_text.specs.Numbers.{numbered};

use trace_text::Printed;
use zms_dev::{Failed, Sink};

/// What has a text that tells its place in a list.
pub trait Placed {
    ghost text: { ℕ → Self → List ℕ };

    fn write_at<S: Sink>(&self, sink: &mut S, place: u64) -> Result<(), Failed>
        ensures { Prints (S.state sink.old) (S.state sink.new) (text place self.now) result };
}

/// The texts of all items, with their places from 0.
#[derive(Clone, Copy)]
pub struct EachPlaced<'a, T>(pub &'a [T]);

impl<T: Placed> Printed for EachPlaced<'_, T> {
    ghost text = { λ e. numbered T.text 0 e.0.now };

    fn write<S: Sink>(&self, sink: &mut S) -> Result<(), Failed> {
        write_placed(sink, self.0)
    }
}

fn write_placed<S: Sink, T: Placed>(sink: &mut S, items: &[T]) -> Result<(), Failed>
    ensures { Prints (S.state sink.old) (S.state sink.new) (numbered T.text 0 items.now) result }
{
    for (place, item) in items.iter().enumerate() {
        item.write_at(sink, place as u64)?;
    }
    Ok(())
}
