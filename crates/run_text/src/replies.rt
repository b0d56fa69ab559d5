//! The lines of the commands.

ghost use Rattle.std.specs.Prelude.{◌≡◌, length};
ghost use Rattle.std.specs.List.{flat_map};
ghost use Rattle.zms_dev.specs.Prints.{Prints};
ghost use Rattle.lane_run.specs.Answers.{paired};
ghost use Rattle.run_text.specs.Replies.{reply_line};

use crate::answers::Told;
use crate::commands::Head;
use cmd_text::Command;
use lane_run::Reply;
use trace_text::Piece::{Number, Text};
use trace_text::Printed;
use zms_dev::{Failed, Sink};

/// The line of a command: its lane, its word with the first argument, and what was answered.
fn write_reply<S: Sink>(out: &mut S, command: &Command, reply: &Reply) -> Result<(), Failed>
    ensures { Prints (S.state out.old) (S.state out.new) (reply_line (record { command = command.now; reply = reply.now })) result }
{
    let lane = u64::from(command.lane);
    (
        Number(lane),
        Text(b" "),
        Head(&command.what),
        Text(b" "),
        Told(&reply.answer),
        Text(b"\n"),
    )
        .write(out)
}

/// The lines of all commands, in their order.
pub(crate) fn write_replies<S: Sink>(
    out: &mut S,
    commands: &[Command],
    replies: &[Reply],
) -> Result<(), Failed>
    requires { length commands.now ≡ length replies.now }
    ensures { Prints (S.state out.old) (S.state out.new) (flat_map reply_line (paired commands.now replies.now)) result }
{
    for (at, reply) in replies.iter().enumerate() {
        write_reply(out, &commands[at], reply)?;
    }
    Ok(())
}
