//! The notes of lanes, a line each.

ghost use Rattle.std.specs.Prelude.{◌≡◌, List, ℕ};
ghost use Rattle.zms_dev.specs.Prints.{Prints};
ghost use Rattle.trace_text.specs.Numbers.{numbered};
ghost use Rattle.trace_text.specs.Traces.{note_line};

use crate::pieces::Piece::{Number, Text};
use crate::printed::Printed;
use zms_dev::{Failed, Sink};
use zms_units::Items;

/// A note with its lane.
pub trait LaneNote: Copy {
    ghost lane: { Self → ℕ };

    ghost text: { Self → List ℕ };

    fn lane(&self) -> u8
        ensures { result ≡ lane self.now };

    /// Writes the note without its lane.
    fn write<S: Sink>(&self, sink: &mut S) -> Result<(), Failed>
        ensures { Prints (S.state sink.old) (S.state sink.new) (text self.now) result };
}

/// The text of a note without its lane.
#[derive(Clone, Copy)]
struct Bare<'a, N>(&'a N);

impl<N: LaneNote> Printed for Bare<'_, N> {
    ghost text = { λ b. N.text b.0.now };

    fn write<S: Sink>(&self, sink: &mut S) -> Result<(), Failed> {
        self.0.write(sink)
    }
}

/// The line of a note at its place.
fn write_line<S: Sink, N: LaneNote>(sink: &mut S, place: u64, note: &N) -> Result<(), Failed>
    ensures { Prints (S.state sink.old) (S.state sink.new) (note_line place (N.lane note.now) (N.text note.now)) result }
{
    let lane = u64::from(note.lane());
    (
        Number(place),
        Text(b" "),
        Number(lane),
        Text(b" "),
        Bare(note),
        Text(b"\n"),
    )
        .write(sink)
}

/// A line for each note, with its place from 1.
#[derive(Clone, Copy)]
pub struct Lines<'a, N>(pub &'a Items<N>);

impl<N: LaneNote> Printed for Lines<'_, N> {
    ghost text = { λ l. numbered (λ place note. note_line place (N.lane note) (N.text note)) 1 l.0.now };

    fn write<S: Sink>(&self, sink: &mut S) -> Result<(), Failed> {
        write_lines(sink, self.0.as_slice())
    }
}

fn write_lines<S: Sink, N: LaneNote>(sink: &mut S, notes: &[N]) -> Result<(), Failed>
    ensures { Prints (S.state sink.old) (S.state sink.new) (numbered (λ place note. note_line place (N.lane note) (N.text note)) 1 notes.now) result }
{
    for (at, note) in notes.iter().enumerate() {
        write_line(sink, at as u64 + 1, note)?;
    }
    Ok(())
}
