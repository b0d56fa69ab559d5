//! The groups of a class as its pool opens it.
ghost use Rattle.std.specs.Prelude.{◌≡◌, ◌≤◌, ◌↔◌, length, IsTrue, IfOk, OnOk};
ghost use Rattle.vdev_map.specs.Limits.{AreVdevs};
ghost use Rattle.vdev_map.specs.Numbers.{metaslabs_in};
ghost use Rattle.class_core.specs.Opening.{AreGroups, Adds};

use crate::group::MetaslabGroup;
use std::alloc::{AllocError, Global};
use zms_units::{Class, VdevRow};

/// The metaslabs of each vdev of a class, in rising order, with their weights of all weights in order of vdev and index.
pub(crate) fn groups_of(
    alloc: Global,
    class: Class,
    rows: &[VdevRow],
    weights: &[u64],
) -> Result<Vec<MetaslabGroup>, AllocError>
    requires rows { AreVdevs rows.now }
    requires weights { length weights.now ≡ metaslabs_in rows.now }
    ensures { IfOk result (λ groups. AreGroups rows.now class weights.now (length rows.now) groups.items) }
{
    let mut groups = Vec::new(alloc);
    let mut rest = weights;
    for (vdev, row) in rows.iter().enumerate() {
        let (own, others) = rest.split_at(row.metaslabs as usize);
        rest = others;
        add_group(
            &mut groups,
            alloc,
            vdev as u8,
            own,
            is_same(row.class, class),
        )?;
    }
    Ok(groups)
}

fn is_same(one: Class, other: Class) -> bool
    ensures { IsTrue result ↔ (one ≡ other) }
{
    one == other
}

/// Adds the metaslabs of a vdev, if it is of the class.
fn add_group(
    groups: &mut Vec<MetaslabGroup>,
    alloc: Global,
    vdev: u8,
    weights: &[u64],
    wanted: bool,
) -> Result<(), AllocError>
    requires { length weights.now ≤ 65536 }
    ensures { OnOk result (Adds groups.old.items vdev weights.now wanted groups.new.items) }
{
    if wanted {
        groups.push(MetaslabGroup::new(alloc, vdev, weights)?)?;
    }
    Ok(())
}
