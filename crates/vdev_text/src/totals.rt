//! The limits on all vdevs together.
ghost use Rattle.std.specs.Prelude.{◌≡◌, ◌≤◌, ◌↔◌, length, IsTrue};
ghost use Rattle.vdev_map.specs.Limits.{HasNormal};
ghost use Rattle.vdev_map.specs.Numbers.{units_in, metaslabs_in};
ghost use Rattle.vdev_text.specs.Reading.{AreFew};

use crate::vdev::MAX_METASLABS;
use zms_units::{Class, VdevRow};

/// How many units the metaslabs of a pool may have in all.
const MAX_UNITS_IN_ALL: u64 = 4_194_304;

/// How many units the metaslabs have in all.
fn units_in(vdevs: &[VdevRow]) -> u64
    requires { length vdevs.now ≤ 16 }
    ensures { result ≡ units_in vdevs.now }
{
    let mut units = 0;
    for row in vdevs {
        units += u64::from(row.metaslabs) * u64::from(row.units);
    }
    units
}

/// How many metaslabs there are in all.
fn metaslabs_in(vdevs: &[VdevRow]) -> u64
    requires { length vdevs.now ≤ 16 }
    ensures { result ≡ metaslabs_in vdevs.now }
{
    let mut metaslabs = 0;
    for row in vdevs {
        metaslabs += u64::from(row.metaslabs);
    }
    metaslabs
}

/// Whether some vdev is normal.
fn has_normal(vdevs: &[VdevRow]) -> bool
    ensures { IsTrue result ↔ HasNormal vdevs.now }
{
    for row in vdevs {
        if row.class == Class::Normal {
            return true;
        }
    }
    false
}

/// Whether the vdevs together are within the limits of a pool.
pub(crate) fn are_few(vdevs: &[VdevRow]) -> bool
    requires { length vdevs.now ≤ 16 }
    ensures { IsTrue result ↔ AreFew vdevs.now }
{
    units_in(vdevs) <= MAX_UNITS_IN_ALL && metaslabs_in(vdevs) <= MAX_METASLABS && has_normal(vdevs)
}
