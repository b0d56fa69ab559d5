//! The journals of metaslabs, and the trace that has no others.

ghost use Rattle.std.specs.Prelude.{◌≡◌, ◌++◌, codes};
ghost use Rattle.zms_dev.specs.Prints.{Prints};
ghost use Rattle.trace_text.specs.Traces.{seg_text, work_word, work_text, act_text, metaslab_line, metaslab_text, opened_line, metaslab_trace_text};

use crate::lines::{LaneNote, Lines};
use crate::pieces::Piece::{Number, Text};
use crate::pieces::write_pieces;
use crate::printed::Printed;
use ms_model::{Act, Journals, MsJournal, Noted, WorkKind};
use zms_dev::{Failed, Sink};
use zms_units::{Group, Seg};

/// A word, with the group and the segment of its note.
fn write_seg<S: Sink>(sink: &mut S, word: &[u8], group: Group, seg: Seg) -> Result<(), Failed>
    ensures { Prints (S.state sink.old) (S.state sink.new) (word.now ++ seg_text group seg) result }
{
    write_pieces(
        sink,
        &[
            Text(word),
            Number(group.0),
            Text(b" "),
            Number(u64::from(seg.start)),
            Text(b" "),
            Number(u64::from(seg.count)),
        ],
    )
}

fn word_of_work(kind: WorkKind) -> &'static [u8]
    ensures { result.now ≡ work_word kind }
{
    match kind {
        WorkKind::Init => b" init ",
        WorkKind::Trim => b" trim ",
    }
}

fn write_work<S: Sink>(sink: &mut S, worker: u8, kind: WorkKind, seg: Seg) -> Result<(), Failed>
    ensures { Prints (S.state sink.old) (S.state sink.new) (codes "work " ++ work_text worker kind seg) result }
{
    write_pieces(
        sink,
        &[
            Text(b"work "),
            Number(u64::from(worker)),
            Text(word_of_work(kind)),
            Number(u64::from(seg.start)),
            Text(b" "),
            Number(u64::from(seg.count)),
        ],
    )
}

impl LaneNote for Noted {
    ghost lane = { λ n. n.lane };

    ghost text = { λ n. act_text n.act };

    fn lane(&self) -> u8 {
        self.lane
    }

    fn write<S: Sink>(&self, sink: &mut S) -> Result<(), Failed> {
        match self.act {
            Act::Grant { group, seg } => write_seg(sink, b"grant ", group, seg),
            Act::Free { group, seg } => write_seg(sink, b"free ", group, seg),
            Act::Unalloc { group, seg } => write_seg(sink, b"unalloc ", group, seg),
            Act::Miss { count } => (Text(b"miss "), Number(u64::from(count))).write(sink),
            Act::Shut => Text(b"shut").write(sink),
            Act::Collect { group } => (Text(b"collect "), Number(group.0)).write(sink),
            Act::Settle { group } => (Text(b"settle "), Number(group.0)).write(sink),
            Act::Load => Text(b"load").write(sink),
            Act::Unload => Text(b"unload").write(sink),
            Act::Disable { worker } => (Text(b"disable "), Number(u64::from(worker))).write(sink),
            Act::Work { worker, kind, seg } => write_work(sink, worker, kind, seg),
            Act::Enable { worker } => (Text(b"enable "), Number(u64::from(worker))).write(sink),
        }
    }
}

/// The first line of a metaslab's journal.
#[derive(Clone, Copy)]
struct Head<'a>(&'a MsJournal);

impl Printed for Head<'_> {
    ghost text = { λ h. metaslab_line h.0.now };

    fn write<S: Sink>(&self, sink: &mut S) -> Result<(), Failed> {
        let journal = self.0;
        write_pieces(
            sink,
            &[
                Text(b"metaslab "),
                Number(u64::from(journal.id.vdev)),
                Text(b" "),
                Number(u64::from(journal.id.index)),
                Text(b" units "),
                Number(u64::from(journal.units)),
                Text(b" shift "),
                Number(u64::from(journal.ashift)),
                Text(b" held "),
                Number(u64::from(journal.held)),
                Text(b"\n"),
            ],
        )
    }
}

impl Printed for MsJournal {
    ghost text = { metaslab_text };

    fn write<S: Sink>(&self, sink: &mut S) -> Result<(), Failed> {
        (Head(self), Lines(&self.notes)).write(sink)
    }
}

/// The first line of a trace.
#[derive(Clone, Copy)]
pub struct Opened(pub Group);

impl Printed for Opened {
    ghost text = { λ o. opened_line o.0 };

    fn write<S: Sink>(&self, sink: &mut S) -> Result<(), Failed> {
        (Text(b"trace 1 group "), Number(self.0.0), Text(b"\n")).write(sink)
    }
}

/// Writes the trace of a pool whose classes and keeper have no journals: the opened group, and each metaslab with its
/// notes. At `Err` the sink has taken a front of it. Takes no memory, and is linear in the notes.
pub fn write_metaslab_trace<S: Sink>(trace: &mut S, journals: &Journals) -> Result<(), Failed>
    ensures { Prints (S.state trace.old) (S.state trace.new) (metaslab_trace_text journals.now) result }
{
    (Opened(journals.opened), &journals.metaslabs, Text(b"end\n")).write(trace)
}
