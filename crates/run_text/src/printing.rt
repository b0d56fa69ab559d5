//! All that a run prints.

ghost use Rattle.std.specs.Prelude.{◌≡◌, length};
ghost use Rattle.zms_dev.specs.Prints.{Prints};
ghost use Rattle.vdev_map.specs.Limits.{AreVdevs};
ghost use Rattle.vdev_map.specs.Numbers.{metaslabs_in};
ghost use Rattle.lane_run.specs.Answers.{paired};
ghost use Rattle.run_text.specs.Tallies.{by_vdev};
ghost use Rattle.run_text.specs.Texts.{text_of};

use crate::replies::write_replies;
use crate::totals::write_totals;
use cmd_text::Command;
use lane_run::Reply;
use ms_core::Counts;
use zms_dev::{Failed, Sink};
use zms_units::{Group, VdevRow};

/// Writes all that a run prints: a line for each command of the file, in its order, with the reply of the same place; then
/// what was counted on each metaslab, in units and by vdev and index, the sums of each class that has a vdev and of the pool,
/// in bytes, and the last group. `counts` has the metaslabs of all vdevs, by vdev and index. At `Err` the sink failed, and
/// has taken a front of it; nothing is flushed. Takes no memory. Linear in the commands and the metaslabs.
pub fn write_run<S: Sink>(
    out: &mut S,
    commands: &[Command],
    replies: &[Reply],
    vdevs: &[VdevRow],
    counts: &[Counts],
    group: Group,
) -> Result<(), Failed>
    requires replied { length commands.now ≡ length replies.now }
    requires vdevs { AreVdevs vdevs.now }
    requires one_each { length counts.now ≡ metaslabs_in vdevs.now }
    ensures { Prints (S.state out.old) (S.state out.new) (text_of (paired commands.now replies.now) (by_vdev vdevs.now counts.now) group) result }
{
    write_replies(out, commands, replies)?;
    write_totals(out, vdevs, counts, group)
}
