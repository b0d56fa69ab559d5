//! Where segments lie on their vdevs.
ghost use Rattle.std.specs.Prelude.{◌≡◌, ℕ, ◌<◌, ◌≤◌, IfOk, IfErr, length};
ghost use Rattle.zms_units.specs.Limits.{IsBlockSize, MAX_UNITS};
ghost use Rattle.zms_units.specs.declared.segments.Seg.{Seg};
ghost use Rattle.zms_units.specs.declared.places.MsId.{MsId};
ghost use Rattle.vdev_map.specs.Numbers.{IsIn, row_at};
ghost use Rattle.ms_model.specs.Legal.{IsWithin};
ghost use Rattle.pool_alloc.specs.Asks.{AreUnitsOn, offset_of, dva_of, IsSegAt};
ghost use Rattle.pool_alloc.specs.Frees.{Misplaced};

use crate::answers::FreeFault;
use ms_cell::Cells;
use seg_trees::SegTrees;
use zms_units::{Dva, MsId, Seg, bytes_of, units_of};

/// The units that a block of this size takes on a vdev.
pub(crate) fn units_on<R: SegTrees>(cells: &Cells<R>, vdev: u8, size: u64) -> u32
    requires vdev { vdev < length cells.now.vdevs }
    requires size { IsBlockSize size }
    ensures units { AreUnitsOn cells.now.vdevs vdev size result }
    ensures some { 1 ≤ result }
    ensures most { result ≤ MAX_UNITS }
{
    let row = &cells.layout.vdevs.as_slice()[vdev as usize];
    match units_of(size, row.ashift) {
        Ok(count) => count,
        Err(_) => unreachable!(),
    }
}

/// Where a metaslab's unit lies on its vdev, in bytes.
pub(crate) fn offset_of<R: SegTrees>(cells: &Cells<R>, id: MsId, unit: u32) -> u64
    requires id { IsIn cells.now.vdevs id }
    requires unit { unit < (row_at cells.now.vdevs id.vdev).units }
    ensures { result ≡ offset_of cells.now.vdevs id unit }
{
    let row = &cells.layout.vdevs.as_slice()[id.vdev as usize];
    bytes_of(u32::from(id.index) * row.units + unit, row.ashift)
}

/// The copy that lies in a metaslab's segment.
pub(crate) fn dva_of<R: SegTrees>(cells: &Cells<R>, id: MsId, seg: Seg) -> Dva
    requires id { IsIn cells.now.vdevs id }
    requires seg { IsWithin (row_at cells.now.vdevs id.vdev).units seg }
    ensures { result ≡ dva_of cells.now.vdevs id seg }
{
    let row = &cells.layout.vdevs.as_slice()[id.vdev as usize];
    Dva {
        class: row.class,
        vdev: id.vdev,
        offset: offset_of(cells, id, seg.start),
        size: bytes_of(seg.count, row.ashift),
    }
}

/// The metaslab's segment that so many bytes from an offset of a vdev on are, or why they are none.
pub(crate) fn seg_at<R: SegTrees>(
    cells: &Cells<R>,
    vdev: u8,
    offset: u64,
    size: u64,
) -> Result<(MsId, Seg), FreeFault>
    ensures found { IfOk result (λ found. IsSegAt cells.now.vdevs vdev offset size found.0 found.1) }
    ensures none { IfErr result (Misplaced cells.now.vdevs (record { vdev = vdev; offset = offset; size = size })) }
{
    let Some(row) = cells.layout.vdevs.as_slice().get(vdev as usize) else {
        return Err(FreeFault::NoSuch);
    };
    let unit = bytes_of(1, row.ashift);
    if size == 0 || size % unit != 0 || offset % unit != 0 {
        return Err(FreeFault::BadSeg);
    }
    let first = offset / unit;
    let count = size / unit;
    let index = first / u64::from(row.units);
    let start = first % u64::from(row.units);
    if index >= u64::from(row.metaslabs) || count > u64::from(row.units) - start {
        return Err(FreeFault::BadSeg);
    }
    let id = MsId {
        vdev,
        index: index as u16,
    };
    let seg = Seg {
        start: start as u32,
        count: count as u32,
    };
    Ok((id, seg))
}
