//! The journals of classes.

ghost use Rattle.std.specs.Prelude.{◌≡◌, ◌∷◌, ◌++◌, codes, decimal};
ghost use Rattle.zms_dev.specs.Prints.{Prints};
ghost use Rattle.trace_text.specs.Numbers.{weight_text};
ghost use Rattle.trace_text.specs.Traces.{id_text, kind_word, start_text, got_text, class_note_text, class_text};

use crate::lines::{LaneNote, Lines};
use crate::pieces::Piece::{Number, Text, Weight};
use crate::pieces::write_pieces;
use crate::printed::Printed;
use ms_model::{ClassJournal, ClassNote, Got, Kind, Start};
use zms_dev::{Failed, Sink};
use zms_units::MsId;

fn word_of_kind(kind: Kind) -> &'static [u8]
    ensures { result.now ≡ kind_word kind }
{
    match kind {
        Kind::Primary => b" primary ",
        Kind::Secondary => b" secondary ",
    }
}

impl Printed for Start {
    ghost text = { start_text };

    fn write<S: Sink>(&self, sink: &mut S) -> Result<(), Failed> {
        match *self {
            Start::Active => Text(b" active ").write(sink),
            Start::Top => Text(b" top ").write(sink),
            Start::After { weight, index } => (
                Text(b" after "),
                Number(u64::from(index)),
                Text(b" "),
                Weight(weight),
                Text(b" "),
            )
                .write(sink),
        }
    }
}

/// What a pick gave, if anything.
#[derive(Clone, Copy)]
struct Gave(Option<Got>);

impl Printed for Gave {
    ghost text = { λ gave. got_text gave.0 };

    fn write<S: Sink>(&self, sink: &mut S) -> Result<(), Failed> {
        match self.0 {
            None => Text(b"none").write(sink),
            Some(got) => {
                (Number(u64::from(got.index)), Text(b" "), Weight(got.weight)).write(sink)
            }
        }
    }
}

/// What a pick was for, and what it gave.
fn write_pick<S: Sink>(
    sink: &mut S,
    allocator: u8,
    kind: Kind,
    vdev: u8,
    bytes: u64,
    found: &(Start, Gave),
) -> Result<(), Failed>
    ensures { Prints (S.state sink.old) (S.state sink.new) (codes "pick " ++ (decimal allocator ++ (kind_word kind ++ (decimal vdev ++ (32 ∷ (decimal bytes ++ (start_text found.now.0 ++ got_text found.now.1.0))))))) result }
{
    (
        Text(b"pick "),
        Number(u64::from(allocator)),
        Text(word_of_kind(kind)),
        Number(u64::from(vdev)),
        Text(b" "),
        (Number(bytes), found),
    )
        .write(sink)
}

/// A word, with a metaslab, and the bytes that were granted there.
fn write_granted<S: Sink>(sink: &mut S, id: MsId, bytes: u64, weight: u64) -> Result<(), Failed>
    ensures { Prints (S.state sink.old) (S.state sink.new) (codes "granted " ++ (id_text id ++ (32 ∷ (decimal bytes ++ (32 ∷ weight_text weight))))) result }
{
    write_pieces(
        sink,
        &[
            Text(b"granted "),
            Number(u64::from(id.vdev)),
            Text(b" "),
            Number(u64::from(id.index)),
            Text(b" "),
            Number(bytes),
            Text(b" "),
            Weight(weight),
        ],
    )
}

/// A word, with a metaslab and its weight.
fn write_weighed<S: Sink>(sink: &mut S, word: &[u8], id: MsId, weight: u64) -> Result<(), Failed>
    ensures { Prints (S.state sink.old) (S.state sink.new) (word.now ++ (id_text id ++ (32 ∷ weight_text weight))) result }
{
    write_pieces(
        sink,
        &[
            Text(word),
            Number(u64::from(id.vdev)),
            Text(b" "),
            Number(u64::from(id.index)),
            Text(b" "),
            Weight(weight),
        ],
    )
}

impl LaneNote for (u8, ClassNote) {
    ghost lane = { λ n. n.0 };

    ghost text = { λ n. class_note_text n.1 };

    fn lane(&self) -> u8 {
        self.0
    }

    fn write<S: Sink>(&self, sink: &mut S) -> Result<(), Failed> {
        match self.1 {
            ClassNote::Pick {
                allocator,
                kind,
                vdev,
                bytes,
                start,
                got,
            } => write_pick(sink, allocator, kind, vdev, bytes, &(start, Gave(got))),
            ClassNote::Granted { id, bytes, weight } => write_granted(sink, id, bytes, weight),
            ClassNote::Missed { id, weight } => write_weighed(sink, b"missed ", id, weight),
            ClassNote::Weigh { id, weight } => write_weighed(sink, b"weigh ", id, weight),
        }
    }
}

impl Printed for ClassJournal {
    ghost text = { class_text };

    fn write<S: Sink>(&self, sink: &mut S) -> Result<(), Failed> {
        (
            (
                Text(b"class "),
                Text(self.class.word().as_bytes()),
                Text(b"\n"),
            ),
            Lines(&self.notes),
        )
            .write(sink)
    }
}
