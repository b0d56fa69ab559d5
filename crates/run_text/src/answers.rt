//! The text of an answer.

ghost use Rattle.std.specs.Prelude.{◌++◌};
ghost use Rattle.zms_dev.specs.Prints.{Prints};
ghost use Rattle.trace_text.specs.Traces.{id_text};
ghost use Rattle.run_text.specs.Replies.{pair_text, suspended_text, not_live_text, answer_text};

use lane_run::Answer;
use trace_text::Piece::{Number, Text};
use trace_text::Printed;
use zms_dev::{Failed, Sink};
use zms_units::{First, MsId};

/// A word, and two numbers behind it.
fn write_pair<S: Sink>(out: &mut S, word: &[u8], one: u64, other: u64) -> Result<(), Failed>
    ensures { Prints (S.state out.old) (S.state out.new) (word.now ++ pair_text one other) result }
{
    (Text(word), Number(one), Text(b" "), Number(other)).write(out)
}

/// A word, and the vdev and the index of a metaslab behind it.
fn write_place<S: Sink>(out: &mut S, word: &[u8], id: MsId) -> Result<(), Failed>
    ensures { Prints (S.state out.old) (S.state out.new) (word.now ++ id_text id) result }
{
    write_pair(out, word, u64::from(id.vdev), u64::from(id.index))
}

/// What a pool met that is suspended since.
fn write_suspended<S: Sink>(out: &mut S, first: First) -> Result<(), Failed>
    ensures { Prints (S.state out.old) (S.state out.new) (suspended_text first) result }
{
    match first {
        First::Device { before, after } => write_pair(out, b"suspended ", before, after),
        First::Damaged { id, .. } => write_place(out, b"suspended ", id),
    }
}

/// A unit that is not handed out, by its place on its vdev.
fn write_not_live<S: Sink>(out: &mut S, vdev: u8, offset: u64) -> Result<(), Failed>
    ensures { Prints (S.state out.old) (S.state out.new) (not_live_text vdev offset) result }
{
    (
        Text(b"notlive "),
        Number(u64::from(vdev)),
        Text(b":"),
        Number(offset),
    )
        .write(out)
}

/// The text of an answer.
#[derive(Clone, Copy)]
pub(crate) struct Told<'a>(pub(crate) &'a Answer);

impl Printed for Told<'_> {
    ghost text = { λ told. answer_text told.0.now };

    fn write<S: Sink>(&self, out: &mut S) -> Result<(), Failed> {
        match self.0 {
            Answer::Granted { group, copies } => {
                (Text(b"granted "), Number(group.0), copies).write(out)
            }
            Answer::NoSpace { looked } => (Text(b"nospace "), Number(*looked)).write(out),
            Answer::BadSize => Text(b"badsize").write(out),
            Answer::BadCopies => Text(b"badcopies").write(out),
            Answer::Done { group } => (Text(b"done "), Number(group.0)).write(out),
            Answer::NoName => Text(b"noname").write(out),
            Answer::NotLive { vdev, offset } => write_not_live(out, *vdev, *offset),
            Answer::NoSuch => Text(b"nosuch").write(out),
            Answer::BadSeg => Text(b"badseg").write(out),
            Answer::Busy { open_group, synced } => {
                write_pair(out, b"busy ", open_group.0, synced.0)
            }
            Answer::Loaded => Text(b"done").write(out),
            Answer::Device { before, after } => write_pair(out, b"device ", *before, *after),
            Answer::Suspended { first } => write_suspended(out, *first),
            Answer::Damaged { id, .. } => write_place(out, b"damaged ", *id),
            Answer::Late { group, collected } => { write_pair(out, b"late ", group.0, collected.0) }
        }
    }
}
