//! Whether a command file may be run.
ghost use Rattle.std.specs.Prelude.{◌≡◌, true};
ghost use Rattle.std.specs.List.{All};
ghost use Rattle.lane_run.specs.Runs.{IsRun};
ghost use Rattle.pool_lanes.specs.Beginning.{IsScript};
ghost use Rattle.pool_lanes.specs.Lanes.{IsCommandWithin};

use cmd_text::{Command, Script, What};

/// Whether lanes run commands of this kind.
fn is_run(what: &What) -> bool
    ensures { result ≡ true → IsRun what.now }
{
    match what {
        What::Alloc { .. } => true,
        What::Free { .. } => true,
        What::FreeSeg { .. } => true,
        What::Sync => true,
        What::Load { .. } => true,
        _ => false,
    }
}

/// Whether each command is of one of so many lanes, and of a kind that lanes run.
fn are_within(commands: &[Command], lanes: u8) -> bool
    ensures { result ≡ true → All (IsCommandWithin lanes) commands.now }
{
    for command in commands {
        if command.lane < 1 || command.lane > lanes || !is_run(&command.what) {
            return false;
        }
    }
    true
}

pub fn is_script(script: &Script) -> bool
    ensures { result ≡ true → IsScript script.now }
{
    let commands = script.commands.as_slice();
    1 <= script.lanes
        && script.lanes <= 16
        && commands.len() <= 200_000
        && are_within(commands, script.lanes)
}
