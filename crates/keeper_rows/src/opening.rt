//! A pool is opened: what its device holds, its cells and classes, and its keeper.
ghost use Rattle.std.specs.Prelude.{◌≡◌, ◌<◌, ◌≤◌, true, [], length, IfOk};
ghost use Rattle.zms_units.specs.Limits.{GROUPS_END};
ghost use Rattle.vdev_map.specs.Numbers.{metaslabs_in};
ghost use Rattle.meta_store.specs.Stores.{IsStore};
ghost use Rattle.ms_cell.specs.Passes.{AreRests};
ghost use Rattle.class_group.specs.Passes.{AreRests as AreClassRests};
ghost use Rattle.keeper_rows.specs.Parts.{AreFound, IsCounted, CountsTo, KnowUnits};

use crate::device::Device;
use crate::pool::{Passes, Pool, Shared, count_of, id_at};
use class_group::{ClassPasses, make_classes};
use meta_store::{At, MetaStore, create, open};
use ms_cell::make_cells;
use std::alloc::{AllocError, Global};
use vdev_map::{Layout, check, id_of};
use zms_units::{Group, Items, Seg, VdevRow};

/// What a pool is opened as: of each metaslab, in order, the runs that the group holds, and how many units they are.
#[derive(Drop)]
pub struct Survey {
    pub layout: Layout,
    pub group: Group,
    pub bases: Vec<Items<Seg>>,
    pub held: Vec<u64>,
}

/// Makes a pool of these vdevs on a device without bytes.
pub fn create_pool<'c>(
    alloc: Global,
    device: Device<'c>,
    vdevs: Vec<VdevRow>,
) -> Result<Device<'c>, AllocError> {
    let layout = Layout {
        flush: 2,
        log: 64,
        vdevs: Items::from_vec(vdevs),
    };
    if check(&layout).is_err() {
        return Err(AllocError);
    }
    match create(alloc, device, &layout) {
        (device, Ok(())) => Ok(device),
        (_, Err(_)) => Err(AllocError),
    }
}

/// The store of a device, opened at a group that is the only one from then on.
pub fn open_store<'c>(
    alloc: Global,
    device: Device<'c>,
    at: At,
) -> Result<MetaStore<Device<'c>>, AllocError>
    ensures limits { IfOk result (λ store. IsStore store.layout store.table) }
    ensures early { IfOk result (λ store. store.table.group.0 < GROUPS_END) }
{
    let Ok(mut store) = open(alloc, device, at) else {
        return Err(AllocError);
    };
    match store.rewind() {
        Ok(()) => Ok(store),
        Err(_) => {
            let _ = store.into_disk();
            Err(AllocError)
        }
    }
}

/// Another layout of the same vdevs.
pub fn copied(alloc: Global, layout: &Layout) -> Result<Layout, AllocError>
    ensures { IfOk result (λ copy. copy ≡ layout.now) }
{
    let vdevs = Vec::from_slice(alloc, layout.vdevs.as_slice())?;
    Ok(Layout {
        flush: layout.flush,
        log: layout.log,
        vdevs: Items::from_vec(vdevs),
    })
}

/// How many metaslabs there are in all.
fn total(vdevs: &[VdevRow]) -> u32
    requires { length vdevs.now ≤ 16 }
    ensures { result ≡ metaslabs_in vdevs.now }
{
    let mut metaslabs = 0;
    for row in vdevs {
        metaslabs += u32::from(row.metaslabs);
    }
    metaslabs
}

/// Reads what the opened group holds of each metaslab.
pub fn look_over(alloc: Global, store: &mut MetaStore<Device<'_>>) -> Result<Survey, AllocError>
    ensures layout { IfOk result (λ s. s.layout ≡ store.old.layout) }
    ensures group { IfOk result (λ s. s.group ≡ store.old.table.group) }
    ensures found { IfOk result (λ s. AreFound s.layout.vdevs s.bases.items s.held.items) }
{
    let layout = copied(alloc, store.layout())?;
    let group = store.group();
    let count = total(layout.vdevs.as_slice());
    let mut bases = Vec::with_capacity(alloc, count as usize)?;
    let mut held = Vec::with_capacity(alloc, count as usize)?;
    for number in 0..count {
        let id = id_of(layout.vdevs.as_slice(), number);
        let Ok(runs) = store.found(alloc, id) else {
            return Err(AllocError);
        };
        bases.push_reserved(Items::from_vec(runs));
        held.push_reserved(store.row(id).held);
    }
    Ok(Survey {
        layout,
        group,
        bases,
        held,
    })
}

/// Whether vdevs are the same, in order.
fn are_same(one: &[VdevRow], other: &[VdevRow]) -> bool
    ensures { result ≡ true → one.now ≡ other.now }
{
    match (one, other) {
        ([], []) => true,
        ([row, rows @ ..], [second, others @ ..]) => row == second && are_same(rows, others),
        _ => false,
    }
}

/// Whether the cells were made for the store's group.
fn is_opened(store: &MetaStore<Device<'_>>, cells: &Pool) -> bool
    ensures { result ≡ true → cells.now.opened ≡ store.now.table.group.0 }
{
    store.group().0 == cells.opened.0
}

/// Whether the rows of a store count so many units.
fn counts(store: &MetaStore<Device<'_>>, cells: &Pool, held: &[u64]) -> bool
    requires vdevs { cells.now.vdevs ≡ store.now.layout.vdevs }
    requires count { length held.now ≡ length cells.now.metaslabs }
    ensures { result ≡ true → CountsTo cells.now.vdevs held.now store.now.table (length held.now) }
{
    for number in 0..count_of(cells) {
        if store.row(id_at(cells, number)).held != held[number as usize] {
            return false;
        }
    }
    true
}

/// Whether a store is one of these vdevs at this group, and its rows count so many units.
pub fn is_same(store: &MetaStore<Device<'_>>, cells: &Pool, held: &[u64]) -> bool
    ensures { result ≡ true → IsCounted cells.now held.now store.now }
{
    let vdevs = store.layout().vdevs.as_slice();
    if !are_same(cells.layout.vdevs.as_slice(), vdevs) || !is_opened(store, cells) {
        return false;
    }
    cells.metaslabs.len() == held.len() && counts(store, cells, held)
}

/// The cells and classes of a pool, and the rest of their rights, which is all of them.
pub fn share(
    alloc: Global,
    layout: Layout,
    group: Group,
    bases: Vec<Items<Seg>>,
    held: &[u64],
) -> Result<(Shared, Passes, ClassPasses), AllocError>
    requires found { AreFound layout.vdevs bases.items held.now }
    ensures vdevs { IfOk result (λ r. (r.0.cells.vdevs ≡ layout.vdevs) × (r.0.classes.vdevs ≡ layout.vdevs)) }
    ensures cells { IfOk result (λ r. AreRests 0 r.0.cells r.1) }
    ensures classes { IfOk result (λ r. AreClassRests 0 r.0.classes r.2) }
    ensures units { IfOk result (λ r. KnowUnits r.0.cells held.now r.1) }
{
    if check(&layout).is_err() || group.0 < 4 || group.0 > 100_000 {
        return Err(AllocError);
    }
    let mut weights = Vec::new(alloc);
    weights.resize(bases.len(), 0)?;
    let (classes, class_rest) = make_classes(alloc, &layout, &Items::from_vec(weights))?;
    let (cells, rest) = make_cells(alloc, layout, group, bases)?;
    if cells.metaslabs.len() != held.len() {
        return Err(AllocError);
    }
    Ok((Shared { cells, classes }, rest, class_rest))
}

/// Other lists of the same runs.
pub fn copies(alloc: Global, bases: &[Items<Seg>]) -> Result<Vec<Items<Seg>>, AllocError> {
    let mut others = Vec::new(alloc);
    for base in bases {
        others.push(Items::from_vec(Vec::from_slice(alloc, base.as_slice())?))?;
    }
    Ok(others)
}
