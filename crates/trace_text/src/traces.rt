//! The journal of the keeper, and the whole trace.

ghost use Rattle.zms_dev.specs.Prints.{Prints};
ghost use Rattle.trace_text.specs.Traces.{keeper_note_text, trace_text};

use crate::lines::{LaneNote, Lines};
use crate::metaslabs::Opened;
use crate::pieces::Piece::{Number, Text};
use crate::printed::Printed;
use ms_model::{Journals, KeeperNote};
use zms_dev::{Failed, Sink};

impl LaneNote for (u8, KeeperNote) {
    ghost lane = { λ n. n.0 };

    ghost text = { λ n. keeper_note_text n.1 };

    fn lane(&self) -> u8 {
        self.0
    }

    fn write<S: Sink>(&self, sink: &mut S) -> Result<(), Failed> {
        match self.1 {
            KeeperNote::Sync { group } => (Text(b"sync "), Number(group.0)).write(sink),
            KeeperNote::Fault { before, after } => (
                Text(b"fault "),
                Number(before),
                Text(b" "),
                Number(after),
            ).write(sink),
            KeeperNote::Damaged { id } => (
                Text(b"damaged "),
                Number(u64::from(id.vdev)),
                Text(b" "),
                Number(u64::from(id.index)),
            )
                .write(sink),
        }
    }
}

/// Writes the trace of a pool: the opened group, each metaslab with its notes, each class with its notes, and the
/// keeper's notes. The journals of data devices are not part of it. At `Err` the sink has taken a front of it. Takes no
/// memory, and is linear in the notes.
pub fn write_trace<S: Sink>(trace: &mut S, journals: &Journals) -> Result<(), Failed>
    ensures { Prints (S.state trace.old) (S.state trace.new) (trace_text journals.now) result }
{
    (
        Opened(journals.opened),
        &journals.metaslabs,
        &journals.classes,
        (Text(b"keeper\n"), Lines(&journals.keeper)),
        Text(b"end\n"),
    )
        .write(trace)
}
