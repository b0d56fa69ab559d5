//! The limit of commands times metaslabs.

ghost use Rattle.std.specs.Prelude.{◌≤◌, length, IfSome, IfNone};
ghost use Rattle.cmd_text.specs.Past.{command_lines, AreFew, IsFirstPast};

use crate::script::Script;
use zms_units::MAX_COMMANDS_TIMES_METASLABS;

/// The line of the first command past the limit of commands times metaslabs, in a pool of so many metaslabs; a make line
/// counts as its commands. None where all are within it.
pub fn first_past(script: &Script, metaslabs: u64) -> Option<u64>
    ensures some { IfSome result (IsFirstPast script.now metaslabs) }
    ensures none { IfNone result (AreFew (length (command_lines script.now)) metaslabs) }
{
    if metaslabs == 0 {
        return None;
    }
    let most = (MAX_COMMANDS_TIMES_METASLABS / metaslabs) as usize;
    let commands = script.commands.as_slice();
    if most < commands.len() {
        return Some(commands[most].line);
    }
    let Some(make) = script.make else {
        return None;
    };
    if most - commands.len() < make.count as usize {
        Some(make.line)
    } else {
        None
    }
}
