//! A new pool is opened.
ghost use Rattle.std.specs.Prelude.{◌≡◌, ◌≤◌, length, IfOk};
ghost use Rattle.vdev_map.specs.Numbers.{metaslabs_in};
ghost use Rattle.pool_seats.specs.Bases.{AreBasesOf};

use meta_store::{At, MetaStore, create, open};
use std::alloc::{AllocError, Global};
use vdev_map::{Layout, check, id_of};
use zms_dev::{DiskRoom, MemDisk};
use zms_units::{Class, Items, Seg, VdevRow};

/// The layout of one vdev with one metaslab of 256 units.
pub fn small(alloc: Global) -> Result<Layout, AllocError> {
    let mut vdevs = Vec::with_capacity(alloc, 1)?;
    vdevs.push(VdevRow {
        class: Class::Normal,
        ashift: 12,
        units: 256,
        metaslabs: 1,
    })?;
    Ok(Layout {
        flush: 8,
        log: 65_536,
        vdevs: Items::from_vec(vdevs),
    })
}

/// The store of a new pool on a device without bytes.
pub fn new_pool(alloc: Global, layout: &Layout) -> Result<MetaStore<MemDisk>, AllocError> {
    if check(layout).is_err() {
        return Err(AllocError);
    }
    let room = DiskRoom {
        end: 4_000_000,
        written: 4_000_000,
        calls: 4096,
    };
    let disk = match create(alloc, MemDisk::new(alloc, &[], room, &[])?, layout) {
        (disk, Ok(())) => disk,
        (_, Err(_)) => return Err(AllocError),
    };
    let Ok(mut store) = open(alloc, disk, At::Newest) else {
        return Err(AllocError);
    };
    match store.rewind() {
        Ok(()) => Ok(store),
        Err(_) => {
            let _ = store.into_disk();
            Err(AllocError)
        }
    }
}

/// Another layout of the same vdevs.
fn copied(alloc: Global, layout: &Layout) -> Result<Layout, AllocError>
    ensures { IfOk result (λ copy. copy ≡ layout.now) }
{
    let vdevs = Vec::from_slice(alloc, layout.vdevs.as_slice())?;
    Ok(Layout {
        flush: layout.flush,
        log: layout.log,
        vdevs: Items::from_vec(vdevs),
    })
}

/// How many metaslabs there are in all.
pub fn total(vdevs: &[VdevRow]) -> u32
    requires { length vdevs.now ≤ 16 }
    ensures { result ≡ metaslabs_in vdevs.now }
{
    let mut metaslabs = 0;
    for row in vdevs {
        metaslabs += u32::from(row.metaslabs);
    }
    metaslabs
}

/// The runs that the store's group holds of each metaslab.
pub fn find_bases(
    alloc: Global,
    store: &mut MetaStore<MemDisk>,
) -> Result<Vec<Items<Seg>>, AllocError>
    ensures { IfOk result (λ bases. AreBasesOf store.new.layout.vdevs store.new.table bases.items) }
{
    let layout = copied(alloc, store.layout())?;
    let count = total(layout.vdevs.as_slice());
    let mut bases = Vec::with_capacity(alloc, count as usize)?;
    for number in 0..count {
        let id = id_of(layout.vdevs.as_slice(), number);
        let Ok(runs) = store.found(alloc, id) else {
            return Err(AllocError);
        };
        bases.push_reserved(Items::from_vec(runs));
    }
    Ok(bases)
}
