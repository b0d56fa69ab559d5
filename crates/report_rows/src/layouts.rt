//! Pools that are made.

use meta_store::create;
use std::alloc::{AllocError, Global};
use vdev_map::{Layout, check};
use zms_dev::{DiskRoom, MemDisk};
use zms_units::{Class, Items, VdevRow};

fn class_of(word: &str) -> Option<Class> {
    match word {
        "normal" => Some(Class::Normal),
        "log" => Some(Class::Log),
        "special" => Some(Class::Special),
        "dedup" => Some(Class::Dedup),
        _ => None,
    }
}

/// A vdev `CLASS:ASHIFT:UNITS:METASLABS`.
fn vdev_of(text: &str) -> Option<VdevRow> {
    let mut fields = text.split(':');
    let class = class_of(fields.next()?)?;
    let ashift = fields.next()?.parse::<u8>().ok()?;
    let units = fields.next()?.parse::<u32>().ok()?;
    let metaslabs = fields.next()?.parse::<u16>().ok()?;
    Some(VdevRow {
        class,
        ashift,
        units,
        metaslabs,
    })
}

fn layout_of(alloc: Global, spec: &str) -> Result<Layout, AllocError> {
    let mut vdevs = Vec::new(alloc);
    for text in spec.split(',') {
        if let Some(vdev) = vdev_of(text) {
            vdevs.push(vdev)?;
        }
    }
    Ok(Layout {
        flush: 8,
        log: 65_536,
        vdevs: Items::from_vec(vdevs),
    })
}

/// The bytes of a new pool, none where it is not made.
pub fn made(alloc: Global, spec: &str) -> Result<Vec<u8>, AllocError> {
    let layout = layout_of(alloc, spec)?;
    let room = DiskRoom {
        end: 2_097_152,
        written: 1_048_576,
        calls: 4096,
    };
    let disk = MemDisk::new(alloc, &[], room, &[])?;
    if check(&layout).is_err() {
        return Ok(Vec::new(alloc));
    }
    let (disk, made) = create(alloc, disk, &layout);
    match made {
        Ok(()) => Vec::from_slice(alloc, disk.bytes()),
        Err(_) => Ok(Vec::new(alloc)),
    }
}
