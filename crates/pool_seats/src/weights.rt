//! What metaslabs weigh as their pool is opened.
ghost use Rattle.std.specs.Prelude.{◌≡◌, ◌-◌, ◌≤◌, length, nat_lt, IfOk};
ghost use Rattle.vdev_map.specs.Numbers.{IsIn, row_at, metaslabs_in};
ghost use Rattle.vdev_map.specs.Limits.{IsShift, AreVdevs};
ghost use Rattle.zms_units.specs.Limits.{MAX_UNITS};
ghost use Rattle.zms_units.specs.Weights.{IsHistogramOf};
ghost use Rattle.ms_core.specs.Weights.{IsWeightOfSet};
ghost use Rattle.pool_seats.specs.Bases.{AreFirstWeights};

use meta_store::MetaStore;
use ms_weight::weight_of;
use std::alloc::{AllocError, Global};
use vdev_map::id_of;
use zms_dev::Disk;
use zms_units::{Histogram, Items, MsId, Seg, VdevRow};

/// The histogram of so many units in one run, of none where there are none.
fn one_run(count: u32, ashift: u8, units: u32) -> Histogram
    requires shift { IsShift ashift }
    requires count { count ≤ units }
    requires units { units ≤ MAX_UNITS }
    ensures { IsHistogramOf (λ u. nat_lt u count) units ashift result }
{
    let mut hist = Histogram::empty();
    if count > 0 {
        hist.add(Seg { start: 0, count }, ashift);
    }
    hist
}

/// The weight of so many vacant units in one run.
fn weight_in_one_run(row: &VdevRow, vacant: u32) -> u64
    requires shift { IsShift row.now.ashift }
    requires vacant { vacant ≤ row.now.units }
    requires units { row.now.units ≤ MAX_UNITS }
    ensures { IsWeightOfSet (λ u. nat_lt u vacant) row.now.units row.now.ashift result }
{
    weight_of(&one_run(vacant, row.ashift, row.units))
}

/// The weight of a metaslab of which a group holds so many units.
fn first_weight(vdevs: &[VdevRow], id: MsId, held: u64) -> u64
    requires vdevs { AreVdevs vdevs.now }
    requires id { IsIn vdevs.now id }
    requires held { held ≤ (row_at vdevs.now id.vdev).units }
    ensures { IsWeightOfSet (λ u. nat_lt u ((row_at vdevs.now id.vdev).units - held)) (row_at vdevs.now id.vdev).units (row_at vdevs.now id.vdev).ashift result }
{
    let row = &vdevs[id.vdev as usize];
    weight_in_one_run(row, row.units - held as u32)
}

/// How many metaslabs there are in all.
fn total(vdevs: &[VdevRow]) -> u32
    requires { length vdevs.now ≤ 16 }
    ensures { result ≡ metaslabs_in vdevs.now }
{
    let mut metaslabs = 0;
    for row in vdevs {
        metaslabs += u32::from(row.metaslabs);
    }
    metaslabs
}

/// The weight of each metaslab in order of vdev and index, while none is loaded: that of the units that the store's group does
/// not hold, as if they were one run. After `metaslab_weight_from_spacemap`.
pub(crate) fn first_weights<D: Disk>(
    alloc: Global,
    store: &MetaStore<D>,
) -> Result<Items<u64>, AllocError>
    ensures { IfOk result (λ weights. AreFirstWeights store.now.layout.vdevs store.now.table weights) }
{
    let vdevs = store.layout().vdevs.as_slice();
    let count = total(vdevs);
    let mut weights = Vec::with_capacity(alloc, count as usize)?;
    for number in 0..count {
        let id = id_of(vdevs, number);
        weights.push_reserved(first_weight(vdevs, id, store.row(id).held));
    }
    Ok(Items::from_vec(weights))
}
