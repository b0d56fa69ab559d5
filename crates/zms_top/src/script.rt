//! Which command files are run today.

ghost use Rattle.std.specs.Prelude.{◌≡◌, ℕ, ◌↔◌, IsTrue, IfOk, IfSome, IfNone, IsErrOf, length};
ghost use Rattle.cmd_text.specs.declared.script.TextFault.TheVariants.{Bad};
ghost use Rattle.zms_top.specs.Script.{IsBuilt, IsCommand, AreBuiltBelow, IsFile, IsFirstBad, IsFirstUnbuilt};

use cmd_text::{Command, TextFault, What, read_front};
use std::alloc::Global;
use zms_units::{Class, Items};

/// Is this of a kind that is built?
fn is_built(what: &What) -> bool
    ensures { IsTrue result ↔ IsBuilt what.now }
{
    match what {
        What::Alloc { class, copies, .. } => *class == Class::Normal && *copies == 1,
        What::Free { .. } | What::Sync => true,
        _ => false,
    }
}

/// Can this command be run?
fn can_run(command: &Command) -> bool
    ensures { IsTrue result ↔ IsCommand command.now }
{
    command.lane == 1 && is_built(&command.what)
}

/// The line of the first command that can't be run.
fn first_unbuilt(commands: &[Command]) -> Option<u64>
    ensures some { IfSome result (λ line. IsFirstUnbuilt commands.now line) }
    ensures none { IfNone result (AreBuiltBelow commands.now (length commands.now)) }
{
    for command in commands {
        if !can_run(command) {
            return Some(command.line);
        }
    }
    None
}

/// The commands of a file of which each line can be run. `Bad` names the first line that is outside the grammar, passes a
/// limit, or is of a kind that is not built.
pub fn read_runnable(alloc: Global, text: &[u8]) -> Result<Items<Command>, TextFault>
    ensures file { IfOk result (IsFile text.now) }
    ensures bad { (line : ℕ) → IsErrOf result (Bad line) → IsFirstBad text.now line }
{
    let front = read_front(alloc, text)?;
    if let Some(line) = first_unbuilt(front.script.commands.as_slice()) {
        return Err(TextFault::Bad { line });
    }
    if let Some(make) = front.script.make {
        return Err(TextFault::Bad { line: make.line });
    }
    match front.bad {
        Some(line) => Err(TextFault::Bad { line }),
        None => Ok(front.script.commands),
    }
}
