//! The sums in bytes of a class and of the pool.

ghost use Rattle.std.specs.Prelude.{◌≡◌, ◌*◌, ◌^◌, ◌<◌, ◌≤◌, length};
ghost use Rattle.zms_units.specs.Limits.{IsShift};
ghost use Rattle.vdev_map.specs.Limits.{AreVdevs};
ghost use Rattle.vdev_map.specs.Numbers.{metaslabs_in, row_at};
ghost use Rattle.run_text.specs.Tallies.{by_vdev, same_class, units_in, vdev_bytes, bytes_if, class_bytes, pool_bytes, class_tally, pool_tally};

use crate::vdevs::counts_of;
use ms_core::Counts;
use zms_units::{Class, VdevRow, bytes_of};

/// Of which units of a metaslab: those that are handed out, those that are freed and not vacant yet, and those that are free
/// to be handed out.
#[derive(Clone, Copy, Debug, PartialEq, Eq)]
pub enum Share {
    Live,
    Deferred,
    Vacant,
}

/// How much is of each share, in bytes or in units.
#[derive(Clone, Copy, Debug, PartialEq, Eq)]
pub struct Tally {
    pub live: u64,
    pub deferred: u64,
    pub vacant: u64,
}

pub(crate) fn is_same(one: Class, other: Class) -> bool
    ensures { result ≡ same_class one other }
{
    matches!(
        (one, other),
        (Class::Normal, Class::Normal)
            | (Class::Log, Class::Log)
            | (Class::Special, Class::Special)
            | (Class::Dedup, Class::Dedup)
    )
}

fn units_in(share: Share, counts: &Counts) -> u32
    ensures { result ≡ units_in share counts.now }
{
    match share {
        Share::Live => counts.live,
        Share::Deferred => counts.deferred,
        Share::Vacant => counts.vacant,
    }
}

/// A share of one metaslab, in bytes.
fn metaslab_bytes(share: Share, counts: &Counts, ashift: u8) -> u64
    requires { ashift ≤ 12 }
    ensures value { result ≡ units_in share counts.now * 2 ^ ashift }
    ensures few { result ≤ 2 ^ 44 }
{
    bytes_of(units_in(share, counts), ashift)
}

/// A share of a vdev. Linear in its metaslabs.
fn vdev_bytes(share: Share, row: VdevRow, counts: &[Counts]) -> u64
    requires shift { row.ashift ≤ 12 }
    requires few { length counts.now ≤ 1024 }
    ensures value { result ≡ vdev_bytes share (record { row = row; counts = counts.now }) }
    ensures few { result ≤ 2 ^ 54 }
{
    let mut bytes = 0;
    for metaslab in counts {
        bytes += metaslab_bytes(share, metaslab, row.ashift);
    }
    bytes
}

/// The same of a vdev of this class, and nothing of another.
fn bytes_if(class: Class, share: Share, row: VdevRow, counts: &[Counts]) -> u64
    requires shift { row.ashift ≤ 12 }
    requires few { length counts.now ≤ 1024 }
    ensures value { result ≡ bytes_if class share (record { row = row; counts = counts.now }) }
    ensures few { result ≤ 2 ^ 54 }
{
    if is_same(class, row.class) {
        vdev_bytes(share, row, counts)
    } else {
        0
    }
}

/// A share of a class. Linear in the metaslabs.
fn class_bytes(class: Class, share: Share, vdevs: &[VdevRow], counts: &[Counts]) -> u64
    requires vdevs { AreVdevs vdevs.now }
    requires one_each { length counts.now ≡ metaslabs_in vdevs.now }
    ensures value { result ≡ class_bytes class share (by_vdev vdevs.now counts.now) }
    ensures few { result ≤ 2 ^ 58 }
{
    let mut bytes = 0;
    for vdev in 0..vdevs.len() {
        bytes += bytes_if(class, share, vdevs[vdev], counts_of(vdevs, counts, vdev));
    }
    bytes
}

/// A share of the pool. Linear in the metaslabs.
pub(crate) fn pool_bytes(share: Share, vdevs: &[VdevRow], counts: &[Counts]) -> u64
    requires vdevs { AreVdevs vdevs.now }
    requires one_each { length counts.now ≡ metaslabs_in vdevs.now }
    ensures { result ≡ pool_bytes share (by_vdev vdevs.now counts.now) }
{
    class_bytes(Class::Normal, share, vdevs, counts)
        + class_bytes(Class::Log, share, vdevs, counts)
        + class_bytes(Class::Special, share, vdevs, counts)
        + class_bytes(Class::Dedup, share, vdevs, counts)
}

/// The sums of a class over its vdevs, in bytes: what was counted on the metaslab of a number stands at its place. Linear in
/// the metaslabs.
pub fn class_tally(class: Class, vdevs: &[VdevRow], counts: &[Counts]) -> Tally
    requires vdevs { AreVdevs vdevs.now }
    requires one_each { length counts.now ≡ metaslabs_in vdevs.now }
    ensures { result ≡ class_tally class (by_vdev vdevs.now counts.now) }
{
    Tally {
        live: class_bytes(class, Share::Live, vdevs, counts),
        deferred: class_bytes(class, Share::Deferred, vdevs, counts),
        vacant: class_bytes(class, Share::Vacant, vdevs, counts),
    }
}

/// The sums of the pool over its classes, in bytes. Linear in the metaslabs.
pub fn pool_tally(vdevs: &[VdevRow], counts: &[Counts]) -> Tally
    requires vdevs { AreVdevs vdevs.now }
    requires one_each { length counts.now ≡ metaslabs_in vdevs.now }
    ensures { result ≡ pool_tally (by_vdev vdevs.now counts.now) }
{
    Tally {
        live: pool_bytes(Share::Live, vdevs, counts),
        deferred: pool_bytes(Share::Deferred, vdevs, counts),
        vacant: pool_bytes(Share::Vacant, vdevs, counts),
    }
}
