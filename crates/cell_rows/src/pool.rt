//! The cells of the pool: four metaslabs of 64 units and four of 2048, which hold nothing.
ghost use Rattle.std.specs.Prelude.{◌≡◌, ◌<◌, true, [], length, IfOk};
ghost use Rattle.std.specs.List.{All};
ghost use Rattle.vdev_map.specs.Numbers.{IsIn, number_of, row_at};
ghost use Rattle.ms_model.specs.Legal.{IsWithin};
ghost use Rattle.ms_cell.specs.Passes.{AreRests};

use ms_cell::{CellPasses, Cells, make_cells};
use range_tree::RangeTrees;
use std::alloc::{AllocError, Global};
use vdev_map::{Layout, check, id_of};
use zms_units::{Class, Group, Items, MsId, Seg, VdevRow};

pub type Pool = Cells<RangeTrees>;

pub type Passes = CellPasses<RangeTrees>;

/// The group at which the pool was opened.
pub const OPENED: Group = Group(4);

/// How many metaslabs there are.
pub fn count_of(cells: &Pool) -> u32
    ensures { result ≡ length cells.now.metaslabs }
{
    cells.metaslabs.len() as u32
}

/// The metaslab of a number.
pub fn id_at(cells: &Pool, number: u32) -> MsId
    requires { number < length cells.now.metaslabs }
    ensures id { IsIn cells.now.vdevs result }
    ensures number { number_of cells.now.vdevs result ≡ number }
{
    id_of(cells.layout.vdevs.as_slice(), number)
}

/// How many units a metaslab has.
pub fn units_of(cells: &Pool, id: MsId) -> u32
    requires { IsIn cells.now.vdevs id }
    ensures { result ≡ (row_at cells.now.vdevs id.vdev).units }
{
    cells.layout.vdevs.as_slice()[id.vdev as usize].units
}

/// Whether a segment is not empty, and within so many units.
pub fn is_within(units: u32, seg: Seg) -> bool
    ensures { result ≡ true → IsWithin units seg }
{
    seg.count > 0 && seg.count <= units && seg.start <= units - seg.count
}

/// No runs for each of so many metaslabs.
fn no_bases(alloc: Global, count: u32) -> Result<Vec<Items<Seg>>, AllocError>
    ensures count { IfOk result (λ bases. length bases.items ≡ count) }
    ensures empty { IfOk result (λ bases. All (λ base. base ≡ []) bases.items) }
{
    let mut bases = Vec::with_capacity(alloc, count as usize)?;
    for number in 0..count {
        let none = Items::new(alloc);
        bases.push_reserved(none);
    }
    Ok(bases)
}

/// The cells, not loaded, and the rest of their rights, which is all of them.
pub fn make_pool(alloc: Global) -> Result<(Pool, Passes), AllocError>
    ensures { IfOk result (λ r. AreRests 0 r.0 r.1) }
{
    let small = VdevRow {
        class: Class::Normal,
        ashift: 12,
        units: 64,
        metaslabs: 4,
    };
    let large = VdevRow {
        class: Class::Normal,
        ashift: 12,
        units: 2048,
        metaslabs: 4,
    };
    let rows = Vec::from_slice(alloc, &[small, large])?;
    let vdevs = Items::from_vec(rows);
    let layout = Layout {
        flush: 2,
        log: 64,
        vdevs,
    };
    let bases = no_bases(alloc, 8)?;
    match check(&layout) {
        Ok(()) => make_cells(alloc, layout, OPENED, bases),
        Err(_) => Err(AllocError),
    }
}
