//! Laws of what was counted: each function only reads its arguments, which is linear in the metaslabs, and its contract is
//! the law.

ghost use Rattle.std.specs.Prelude.{◌≡◌, ◌^◌, ◌<◌, length};
ghost use Rattle.vdev_map.specs.Limits.{AreVdevs};
ghost use Rattle.vdev_map.specs.Numbers.{metaslabs_in};
ghost use Rattle.run_text.specs.Tallies.{by_vdev, pool_bytes, StandByNumber};

use crate::tallies::{Share, pool_bytes};
use ms_core::Counts;
use zms_units::VdevRow;

/// The sums of vdevs that a pool may have fit in 64 bits, whatever was counted.
pub fn tallies_fit(share: Share, vdevs: &[VdevRow], counts: &[Counts])
    requires vdevs { AreVdevs vdevs.now }
    requires one_each { length counts.now ≡ metaslabs_in vdevs.now }
    ensures { pool_bytes share (by_vdev vdevs.now counts.now) < 2 ^ 64 }
{
    let _bytes = pool_bytes(share, vdevs, counts);
}

/// What was counted on a metaslab stands at its number in the pool.
pub fn counts_by_number(vdevs: &[VdevRow], counts: &[Counts])
    ensures { StandByNumber vdevs.now counts.now }
{}
