//! Where a copy is placed: the walk over the metaslabs of a class, and of normal behind it.
ghost use Rattle.std.specs.Prelude.{◌≡◌, ℕ, ◌<◌, ◌≤◌, List, length};
ghost use Rattle.zms_units.specs.Limits.{IsBlockSize};
ghost use Rattle.copy_walk.specs.Steps.{Step};
ghost use Rattle.copy_walk.specs.Walks.{WasTold};
ghost use Rattle.copy_walk.specs.Plans.{plan_of};
ghost use Rattle.lane_passes.specs.Lanes.{IsSeated, Acted};
ghost use Rattle.class_core.specs.Classes.{got_of};
ghost use Rattle.pool_alloc.specs.Asks.{kind_of, AreUnitsOn, bytes_on};
ghost use Rattle.pool_alloc.specs.Looks.{was_active};
ghost use Rattle.pool_alloc.specs.Walks.{Walks};
ghost use Rattle.pool_alloc.specs.Cuts.{ClassLine, CopyLine, AreLaidAt, AreFewLooked, load_of_cut};
ghost use Rattle.pool_alloc.specs.Loads.{of_result, CountsOne};

use crate::looks::{Cut, Looked, look};
use crate::places::units_on;
use crate::turns;
use class_core::Picked;
use class_group::Classes;
use copy_walk::{Next, Walk};
use lane_passes::LanePasses;
use ms_cell::{Cells, Loader};
use ms_model::{Got, Kind, Start};
use seg_trees::SegTrees;
use std::alloc::Global;
use std::sync::Wait;
use zms_units::{Class, Copies, Dva, Group, bytes_of};

/// What the search for a copy's place came to.
#[derive(Clone, Copy, Debug, PartialEq, Eq)]
pub(crate) enum Found {
    /// The copy lies there.
    Placed(Dva),
    /// There is no space: so many metaslabs were looked at, each counted once.
    Full { looked: u64 },
}

/// Places a copy on a class, behind those that the block has already, or finds that the class has no space for it, as
/// `metaslab_alloc_dva` does. Looks at each metaslab of the class at most once more than it was picked.
fn place_on<R: SegTrees, L: Loader<R>, W: Wait>(
    rt: &W,
    alloc: Global,
    cells: &Cells<R>,
    classes: &Classes,
    loader: &mut L,
    passes: &mut LanePasses<R>,
    group: Group,
    size: u64,
    class: Class,
    earlier: &Copies,
) -> Result<Found, Cut>
    requires size { IsBlockSize size }
    requires seated { IsSeated cells.now classes.now passes.old }
    requires serves { L.serves loader.old passes.old.lane cells.now }
    ensures acted { Acted cells.now (ClassLine (record { lane = passes.old.lane; group = group; size = size }) earlier.now class result) passes.old passes.new }
    ensures follows { L.follows loader.old loader.new }
    ensures counts { CountsOne (of_result load_of_cut result) (L.refusals loader.old) (L.last loader.old) (L.refusals loader.new) (L.last loader.new) }
    ensures laid { AreLaidAt cells.now.vdevs result }
    ensures few { AreFewLooked result }
{
    let Some(rotor) = turns::begin(rt, cells, classes, passes, class) else {
        return Ok(Found::Full { looked: 0 });
    };
    let kind = kind_of(earlier);
    let mut walk = Walk::new(alloc, &cells.layout, class, rotor, earlier);
    for _ in rt.forever() {
        match walk.next() {
            Next::Done => return Ok(Found::Full {
                looked: walk.looked(),
            }),
            Next::Pick { vdev, start } => {
                let bytes = bytes_on(cells, vdev, size);
                match turns::pick(rt, cells, classes, passes, kind, vdev, bytes, start) {
                    Ok(picked) => walk.picked(got_of(picked), was_active(picked)),
                    Err(_) => return Err(Cut::Memory),
                }
            }
            Next::Look { id } => match look(rt, cells, classes, loader, passes, id, group, size) {
                Ok(Looked::Placed(dva)) => return Ok(Found::Placed(dva)),
                Ok(Looked::Failed) => walk.failed(),
                Ok(Looked::Loaded) => {}
                Err(cut) => return Err(cut),
            },
        }
    }
    unreachable!()
}

/// Places a copy on a class, or on normal where that is another one and has no space, as `metaslab_alloc` falls back.
pub(crate) fn place_copy<R: SegTrees, L: Loader<R>, W: Wait>(
    rt: &W,
    alloc: Global,
    cells: &Cells<R>,
    classes: &Classes,
    loader: &mut L,
    passes: &mut LanePasses<R>,
    group: Group,
    size: u64,
    class: Class,
    earlier: &Copies,
) -> Result<Found, Cut>
    requires size { IsBlockSize size }
    requires seated { IsSeated cells.now classes.now passes.old }
    requires serves { L.serves loader.old passes.old.lane cells.now }
    ensures acted { Acted cells.now (CopyLine (record { lane = passes.old.lane; group = group; size = size }) earlier.now class result) passes.old passes.new }
    ensures follows { L.follows loader.old loader.new }
    ensures counts { CountsOne (of_result load_of_cut result) (L.refusals loader.old) (L.last loader.old) (L.refusals loader.new) (L.last loader.new) }
    ensures laid { AreLaidAt cells.now.vdevs result }
{
    let first = match place_on(
        rt, alloc, cells, classes, loader, passes, group, size, class, earlier,
    ) {
        Ok(Found::Full { looked }) => looked,
        Ok(Found::Placed(dva)) => return Ok(Found::Placed(dva)),
        Err(cut) => return Err(cut),
    };
    if class == Class::Normal {
        return Ok(Found::Full { looked: first });
    }
    match place_on(
        rt,
        alloc,
        cells,
        classes,
        loader,
        passes,
        group,
        size,
        Class::Normal,
        earlier,
    ) {
        Ok(Found::Full { looked }) => Ok(Found::Full {
            looked: first + looked,
        }),
        Ok(Found::Placed(dva)) => Ok(Found::Placed(dva)),
        Err(cut) => Err(cut),
    }
}

/// Which copy of its block is placed behind these.
fn kind_of(earlier: &Copies) -> Kind
    ensures { result ≡ kind_of earlier.now }
{
    match earlier.len() {
        0 => Kind::Primary,
        _ => Kind::Secondary,
    }
}

/// The bytes of a copy of this size, in whole units of a vdev.
fn bytes_on<R: SegTrees>(cells: &Cells<R>, vdev: u8, size: u64) -> u64
    requires vdev { vdev < length cells.now.vdevs }
    requires size { IsBlockSize size }
    ensures { (count : ℕ) × (AreUnitsOn cells.now.vdevs vdev size count × (result ≡ bytes_on cells.now.vdevs vdev count)) }
{
    let row = &cells.layout.vdevs.as_slice()[vdev as usize];
    bytes_of(units_on(cells, vdev, size), row.ashift)
}

/// A metaslab that was picked, as a note has it.
fn got_of(picked: Option<Picked>) -> Option<Got>
    ensures { result ≡ got_of picked }
{
    let picked = picked?;
    Some(Got {
        index: picked.index,
        weight: picked.weight,
    })
}

/// Whether a pick found the active metaslab.
fn was_active(picked: Option<Picked>) -> bool
    ensures { result ≡ was_active picked }
{
    match picked {
        Some(picked) => picked.was_active,
        None => false,
    }
}
