//! The counts of a vdev's metaslabs, among those of all.

ghost use Rattle.std.specs.Prelude.{◌≡◌, ◌+◌, ◌<◌, ◌≤◌, length, get_or, take, drop};
ghost use Rattle.vdev_map.specs.Limits.{AreVdevs};
ghost use Rattle.vdev_map.specs.Numbers.{metaslabs_in, row_at};
ghost use Rattle.run_text.specs.Tallies.{VdevCounts, by_vdev};

use ms_core::Counts;
use vdev_map::number_of;
use zms_units::{MsId, VdevRow};

/// So many counts from a place on.
fn part<'a>(counts: &'a [Counts], from: usize, count: usize) -> &'a [Counts]
    requires { from + count ≤ length counts.now }
    ensures { result.now ≡ take count (drop from counts.now) }
{
    &counts[from..from + count]
}

/// What was counted on the metaslabs of a vdev.
pub(crate) fn counts_of<'a>(vdevs: &[VdevRow], counts: &'a [Counts], vdev: usize) -> &'a [Counts]
    requires vdevs { AreVdevs vdevs.now }
    requires one_each { length counts.now ≡ metaslabs_in vdevs.now }
    requires vdev { vdev < length vdevs.now }
    ensures value { (none : VdevCounts) → get_or (by_vdev vdevs.now counts.now) vdev none ≡ record { row = row_at vdevs.now vdev; counts = result.now } }
    ensures few { length result.now ≤ 1024 }
{
    let id = MsId {
        vdev: vdev as u8,
        index: 0,
    };
    let from = number_of(vdevs, id) as usize;
    part(counts, from, usize::from(vdevs[vdev].metaslabs))
}
