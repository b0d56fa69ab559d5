//! One reply a command, in the order of the file.
ghost use Rattle.std.specs.Prelude.{◌≡◌, ◌≤◌, [], length, map, vec_capacity};
ghost use Rattle.pool_lanes.specs.Merging.{AreLists, AreMerged};

use cmd_text::Command;
use lane_run::Reply;

/// Puts the replies of each lane, from 1 on, into one list that has room for them, in the order of the commands. Linear in the
/// commands; takes no memory.
pub(crate) fn merge(
    commands: &[Command],
    mut lists: Vec<Vec<Reply>>,
    room: Vec<Reply>,
) -> Vec<Reply>
    requires lists { AreLists commands.now (map (λ list. list.items) lists.items) }
    requires room { (room.items ≡ []) × (length commands.now ≤ vec_capacity room) }
    ensures { AreMerged commands.now (map (λ list. list.items) lists.items) result.items }
{
    // A list gives its last reply first, so the commands are gone through from their end.
    let mut replies = room;
    let mut at = commands.len();
    while at > 0 {
        at -= 1;
        let list = &mut lists[usize::from(commands[at].lane) - 1];
        let Some(reply) = list.pop() else {
            unreachable!()
        };
        replies.push_reserved(reply);
    }
    replies.reverse();
    replies
}
