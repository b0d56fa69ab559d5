//! A pool before its lanes begin: all memory that a run takes beside its lanes is taken here.
ghost use Rattle.std.specs.Prelude.{◌≡◌, length, IfOk};
ghost use Rattle.zms_units.specs.Limits.{IsLane, IsPoolGroup};
ghost use Rattle.vdev_map.specs.Numbers.{metaslabs_in};
ghost use Rattle.pool_seats.specs.Bases.{AreBasesOf};
ghost use Rattle.pool_seats.specs.Seats.{IsPrepared};

use crate::pool::{Pool, Rest};
use crate::seats::{next_lanes, next_zero};
use crate::weights::first_weights;
use class_group::{Classes, make_classes};
use lane_passes::LanePasses;
use meta_store::MetaStore;
use ms_cell::{CellPasses, Cells, make_cells, next_cells};
use range_tree::RangeTrees;
use std::alloc::{AllocError, Global};
use vdev_map::Layout;
use zms_dev::Disk;
use zms_units::{Items, Seg};

/// A pool without its keeper: what is shared, the rest of the rights, the keeper's passes and those of each lane.
#[derive(Drop)]
pub struct Prepared {
    pub pool: Pool,
    pub rest: Rest,
    pub keeper: CellPasses<RangeTrees>,
    pub lanes: Vec<LanePasses<RangeTrees>>,
}

/// Another layout of the same vdevs.
fn copied(alloc: Global, layout: &Layout) -> Result<Layout, AllocError>
    ensures { IfOk result (λ copy. copy ≡ layout.now) }
{
    let vdevs = Vec::from_slice(alloc, layout.vdevs.as_slice())?;
    Ok(Layout {
        flush: layout.flush,
        log: layout.log,
        vdevs: Items::from_vec(vdevs),
    })
}

/// How many turns the cells and the classes have: one for each metaslab, and one for each of the four classes.
fn turns_of(cells: &Cells<RangeTrees>, classes: &Classes) -> (usize, usize)
    ensures cells { (result.0 ≡ length cells.now.metaslabs) × (result.0 ≡ metaslabs_in cells.now.vdevs) }
    ensures classes { (result.1 ≡ length classes.now.cells) × (result.1 ≡ 4) }
{
    (cells.metaslabs.len(), classes.cells.len())
}

/// The cells and classes of a store, and the passes of so many lanes and of a keeper.
pub fn prepare<D: Disk>(
    alloc: Global,
    store: &MetaStore<D>,
    bases: Vec<Items<Seg>>,
    lanes: u8,
) -> Result<Prepared, AllocError>
    requires lanes { IsLane lanes }
    requires group { IsPoolGroup store.now.table.group.0 }
    requires bases { AreBasesOf store.now.layout.vdevs store.now.table bases.items }
    ensures { IfOk result (λ p. IsPrepared store.now bases.items lanes p) }
{
    let layout = copied(alloc, store.layout())?;
    let weights = first_weights(alloc, store)?;
    let (classes, class_rest) = make_classes(alloc, &layout, &weights)?;
    let (cells, cell_rest) = make_cells(alloc, layout, store.group(), bases)?;
    let _counts = turns_of(&cells, &classes);
    let pool = Pool { cells, classes };
    let mut rest = Rest {
        cells: cell_rest,
        classes: class_rest,
    };
    let keeper = next_zero(alloc, &pool, &mut rest)?;
    let lanes = next_lanes(alloc, &pool, &mut rest, lanes)?;
    Ok(Prepared {
        pool,
        rest,
        keeper,
        lanes,
    })
}
