//! The text of a command, as a reply repeats it.

ghost use Rattle.std.specs.Prelude.{◌++◌};
ghost use Rattle.zms_dev.specs.Prints.{Prints};
ghost use Rattle.run_text.specs.Replies.{pair_text, seg_text, command_text};

use cmd_text::What;
use trace_text::Piece::{Number, Text};
use trace_text::{Printed, write_pieces};
use zms_dev::{Failed, Sink};

/// Bytes of a vdev.
fn write_seg<S: Sink>(out: &mut S, vdev: u8, offset: u64, size: u64) -> Result<(), Failed>
    ensures { Prints (S.state out.old) (S.state out.new) (seg_text vdev offset size) result }
{
    write_pieces(
        out,
        &[
            Text(b"freeseg "),
            Number(u64::from(vdev)),
            Text(b" "),
            Number(offset),
            Text(b" "),
            Number(size),
        ],
    )
}

/// A word, and the vdev and the index of a metaslab behind it.
fn write_metaslab<S: Sink>(out: &mut S, word: &[u8], vdev: u8, index: u16) -> Result<(), Failed>
    ensures { Prints (S.state out.old) (S.state out.new) (word.now ++ pair_text vdev index) result }
{
    (
        Text(word),
        Number(u64::from(vdev)),
        Text(b" "),
        Number(u64::from(index)),
    )
        .write(out)
}

/// The word of a command, and its first argument.
#[derive(Clone, Copy)]
pub(crate) struct Head<'a>(pub(crate) &'a What);

impl Printed for Head<'_> {
    ghost text = { λ head. command_text head.0.now };

    fn write<S: Sink>(&self, out: &mut S) -> Result<(), Failed> {
        match self.0 {
            What::Alloc { name, .. } => {
                (Text(b"alloc "), Text(name.as_str().as_bytes())).write(out)
            }
            What::Free { name } => (Text(b"free "), Text(name.as_str().as_bytes())).write(out),
            What::FreeSeg { vdev, offset, size } => write_seg(out, *vdev, *offset, *size),
            What::Sync => Text(b"sync").write(out),
            What::Load { vdev, index } => write_metaslab(out, b"load ", *vdev, *index),
            What::Unload { vdev, index } => write_metaslab(out, b"unload ", *vdev, *index),
            What::Init { vdev } => (Text(b"init "), Number(u64::from(*vdev))).write(out),
            What::Trim { vdev } => (Text(b"trim "), Number(u64::from(*vdev))).write(out),
            What::AutoTrim { vdev } => (Text(b"autotrim "), Number(u64::from(*vdev))).write(out),
        }
    }
}
