// What the rows of the vdevs have in all, and which of them lack something.
ghost use Rattle.std.specs.Prelude.{◌≡◌, ℕ, ◌≤◌, ◌↔◌, length, IsTrue, IfSome, IfNone};
ghost use Rattle.vdev_map.specs.Limits.{IsShift, IsUnits, EachRow, HasNormal, IsFirstLacking};
ghost use Rattle.vdev_map.specs.Numbers.{metaslabs_in, units_in};

use zms_units::{Class, VdevRow};

/// The first vdev whose units have another size than the limits allow.
pub(crate) fn first_bad_shift(vdevs: &[VdevRow]) -> Option<u8>
    requires { length vdevs.now ≤ 16 }
    ensures found { IfSome result (λ v. IsFirstLacking (λ row. IsShift row.ashift) vdevs.now v) }
    ensures none { IfNone result (EachRow (λ row. IsShift row.ashift) vdevs.now) }
{
    for (v, row) in vdevs.iter().enumerate() {
        if row.ashift < 9 || row.ashift > 12 {
            return Some(v as u8);
        }
    }
    None
}

/// The first vdev whose metaslabs have too few or too many units.
pub(crate) fn first_bad_units(vdevs: &[VdevRow]) -> Option<u8>
    requires { length vdevs.now ≤ 16 }
    ensures found { IfSome result (λ v. IsFirstLacking (λ row. IsUnits row.units) vdevs.now v) }
    ensures none { IfNone result (EachRow (λ row. IsUnits row.units) vdevs.now) }
{
    for (v, row) in vdevs.iter().enumerate() {
        if row.units < 64 || row.units > 131_072 {
            return Some(v as u8);
        }
    }
    None
}

/// The first vdev that has no metaslabs.
pub(crate) fn first_without_metaslabs(vdevs: &[VdevRow]) -> Option<u8>
    requires { length vdevs.now ≤ 16 }
    ensures found { IfSome result (λ v. IsFirstLacking (λ row. 1 ≤ row.metaslabs) vdevs.now v) }
    ensures none { IfNone result (EachRow (λ row. 1 ≤ row.metaslabs) vdevs.now) }
{
    for (v, row) in vdevs.iter().enumerate() {
        if row.metaslabs == 0 {
            return Some(v as u8);
        }
    }
    None
}

/// How many units the metaslabs have in all.
pub(crate) fn units_in(vdevs: &[VdevRow]) -> u64
    requires { length vdevs.now ≤ 16 }
    ensures { result ≡ units_in vdevs.now }
{
    let mut units = 0;
    for row in vdevs {
        units += u64::from(row.metaslabs) * u64::from(row.units);
    }
    units
}

/// How many metaslabs there are in all.
pub(crate) fn metaslabs_in(vdevs: &[VdevRow]) -> u64
    requires { length vdevs.now ≤ 16 }
    ensures { result ≡ metaslabs_in vdevs.now }
{
    let mut metaslabs = 0;
    for row in vdevs {
        metaslabs += u64::from(row.metaslabs);
    }
    metaslabs
}

/// Whether some vdev is normal.
pub(crate) fn has_normal(vdevs: &[VdevRow]) -> bool
    ensures { IsTrue result ↔ HasNormal vdevs.now }
{
    for row in vdevs {
        if row.class == Class::Normal {
            return true;
        }
    }
    false
}
