//! Giving blocks and segments back.
ghost use Rattle.std.specs.Prelude.{◌≡◌, ℕ, ◌<◌, ◌≤◌, ◌∷◌, [], IfErr, length, map};
ghost use Rattle.class_group.specs.Turns.{ClassTurns};
ghost use Rattle.lane_passes.specs.Lanes.{IsSeated, Acted};
ghost use Rattle.lane_passes.specs.Turns.{Nothing};
ghost use Rattle.vdev_map.specs.Numbers.{IsIn};
ghost use Rattle.pool_alloc.specs.Frees.{place_of, FreeLine, PlaceLine, PlacesLine, IsLoadRefusal};
ghost use Rattle.pool_alloc.specs.Loads.{of_result, load_of_free, CountsOne};

use crate::answers::FreeFault;
use crate::places::{offset_of, seg_at};
use crate::turns;
use lane_passes::LanePasses;
use ms_cell::{CellFault, Cells, LoadFault, Loader};
use ms_core::MsFault;
use seg_trees::SegTrees;
use std::sync::Wait;
use txg_gate::Hold;
use zms_units::{Block, Dva, Group, MsId};

/// Gives the copies of a block back in their order, after `metaslab_free`, and answers the group of the hold in which they were
/// freed. The first refusal ends the call; the copies before it stay freed.
///
/// Holds the open group from the first act to the last. Costs the logarithm of the metaslab's runs for each copy.
pub fn free_block<R: SegTrees, L: Loader<R>, W: Wait>(
    rt: &W,
    cells: &Cells<R>,
    loader: &mut L,
    passes: &mut LanePasses<R>,
    block: &Block,
) -> Result<Group, FreeFault>
    requires few { length block.now.copies ≤ 3 }
    requires seated { (c : ClassTurns) × IsSeated cells.now c passes.old }
    requires serves { L.serves loader.old passes.old.lane cells.now }
    ensures acted { Acted cells.now (FreeLine passes.old.lane (map place_of block.now.copies) result) passes.old passes.new }
    ensures follows { L.follows loader.old loader.new }
    ensures counts { CountsOne (of_result load_of_free result) (L.refusals loader.old) (L.last loader.old) (L.refusals loader.new) (L.last loader.new) }
{
    let hold = turns::hold(rt, cells, passes);
    let freed = free_copies(rt, cells, loader, passes, &hold, block.copies.as_slice());
    let group = hold.group;
    turns::release(rt, cells, passes, hold);
    match freed {
        Ok(()) => Ok(group),
        Err(fault) => Err(fault),
    }
}

/// Gives so many bytes from an offset of a vdev on back, as `free_block` does one copy.
pub fn free_seg<R: SegTrees, L: Loader<R>, W: Wait>(
    rt: &W,
    cells: &Cells<R>,
    loader: &mut L,
    passes: &mut LanePasses<R>,
    vdev: u8,
    offset: u64,
    size: u64,
) -> Result<Group, FreeFault>
    requires seated { (c : ClassTurns) × IsSeated cells.now c passes.old }
    requires serves { L.serves loader.old passes.old.lane cells.now }
    ensures acted { Acted cells.now (FreeLine passes.old.lane ((record { vdev = vdev; offset = offset; size = size }) ∷ []) result) passes.old passes.new }
    ensures follows { L.follows loader.old loader.new }
    ensures counts { CountsOne (of_result load_of_free result) (L.refusals loader.old) (L.last loader.old) (L.refusals loader.new) (L.last loader.new) }
{
    let hold = turns::hold(rt, cells, passes);
    let freed = free_place(rt, cells, loader, passes, &hold, vdev, offset, size, 0);
    let group = hold.group;
    turns::release(rt, cells, passes, hold);
    match freed {
        Ok(()) => Ok(group),
        Err(fault) => Err(fault),
    }
}

/// Frees copies in their order, up to the first refusal.
fn free_copies<R: SegTrees, L: Loader<R>, W: Wait>(
    rt: &W,
    cells: &Cells<R>,
    loader: &mut L,
    passes: &mut LanePasses<R>,
    hold: &Hold,
    copies: &[Dva],
) -> Result<(), FreeFault>
    requires few { length copies.now ≤ 3 }
    requires seated { (c : ClassTurns) × IsSeated cells.now c passes.old }
    requires serves { L.serves loader.old passes.old.lane cells.now }
    ensures acted { Acted cells.now (PlacesLine passes.old.lane hold.now.group (map place_of copies.now) result) passes.old passes.new }
    ensures follows { L.follows loader.old loader.new }
    ensures counts { CountsOne (of_result load_of_free result) (L.refusals loader.old) (L.last loader.old) (L.refusals loader.new) (L.last loader.new) }
{
    for (place, dva) in copies.iter().enumerate() {
        free_place(
            rt,
            cells,
            loader,
            passes,
            hold,
            dva.vdev,
            dva.offset,
            dva.size,
            place as u8,
        )?;
    }
    Ok(())
}

/// Frees one place, behind so many that were freed. Free space that is not in memory is loaded first.
fn free_place<R: SegTrees, L: Loader<R>, W: Wait>(
    rt: &W,
    cells: &Cells<R>,
    loader: &mut L,
    passes: &mut LanePasses<R>,
    hold: &Hold,
    vdev: u8,
    offset: u64,
    size: u64,
    freed: u8,
) -> Result<(), FreeFault>
    requires seated { (c : ClassTurns) × IsSeated cells.now c passes.old }
    requires serves { L.serves loader.old passes.old.lane cells.now }
    ensures acted { Acted cells.now (PlaceLine passes.old.lane hold.now.group freed (record { vdev = vdev; offset = offset; size = size }) result) passes.old passes.new }
    ensures follows { L.follows loader.old loader.new }
    ensures counts { CountsOne (of_result load_of_free result) (L.refusals loader.old) (L.last loader.old) (L.refusals loader.new) (L.last loader.new) }
{
    let (id, seg) = seg_at(cells, vdev, offset, size)?;
    for _ in rt.forever() {
        match turns::free(rt, cells, passes, id, hold, seg) {
            Ok(()) => return Ok(()),
            Err(CellFault::Ms(MsFault::NotLoaded)) => load(rt, cells, loader, passes, id, freed)?,
            Err(CellFault::Ms(MsFault::NotLive { unit })) => {
                return Err(FreeFault::NotLive {
                    freed,
                    vdev,
                    offset: offset_of(cells, id, unit),
                });
            }
            Err(CellFault::Ms(MsFault::Late { group, collected })) => {
                return Err(FreeFault::Late { group, collected });
            }
            Err(_) => return Err(FreeFault::Memory { freed }),
        }
    }
    unreachable!()
}

/// Loads a metaslab that is not in memory, behind so many copies that were freed.
fn load<R: SegTrees, L: Loader<R>, W: Wait>(
    rt: &W,
    cells: &Cells<R>,
    loader: &mut L,
    passes: &mut LanePasses<R>,
    id: MsId,
    freed: u8,
) -> Result<(), FreeFault>
    requires id { IsIn cells.now.vdevs id }
    requires seated { (c : ClassTurns) × IsSeated cells.now c passes.old }
    requires serves { L.serves loader.old passes.old.lane cells.now }
    ensures acted { Acted cells.now Nothing passes.old passes.new }
    ensures memory { IfErr result (IsLoadRefusal freed) }
    ensures follows { L.follows loader.old loader.new }
    ensures counts { CountsOne (of_result load_of_free result) (L.refusals loader.old) (L.last loader.old) (L.refusals loader.new) (L.last loader.new) }
{
    match loader.load(rt, cells, &mut passes.cells, passes.lane, id) {
        Ok(()) => Ok(()),
        Err(LoadFault::Device { before, after }) => Err(FreeFault::Device { before, after }),
        Err(LoadFault::Damaged { id, damage }) => Err(FreeFault::Damaged { id, damage }),
        Err(LoadFault::Suspended { first }) => Err(FreeFault::Suspended { first }),
        Err(LoadFault::Memory) => Err(FreeFault::Memory { freed }),
    }
}
