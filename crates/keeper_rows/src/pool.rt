//! The cells and classes of a pool.
ghost use Rattle.std.specs.Prelude.{◌≡◌, ◌<◌, length};
ghost use Rattle.vdev_map.specs.Numbers.{IsIn, number_of};

use class_group::Classes;
use ms_cell::{CellPasses, Cells};
use range_tree::RangeTrees;
use vdev_map::id_of;
use zms_units::MsId;

pub type Pool = Cells<RangeTrees>;

pub type Passes = CellPasses<RangeTrees>;

/// What lanes share.
#[derive(Drop)]
pub struct Shared {
    pub cells: Pool,
    pub classes: Classes,
}

/// How many metaslabs there are.
pub fn count_of(cells: &Pool) -> u32
    ensures { result ≡ length cells.now.metaslabs }
{
    cells.metaslabs.len() as u32
}

/// The metaslab of a number.
pub fn id_at(cells: &Pool, number: u32) -> MsId
    requires { number < length cells.now.metaslabs }
    ensures id { IsIn cells.now.vdevs result }
    ensures number { number_of cells.now.vdevs result ≡ number }
{
    id_of(cells.layout.vdevs.as_slice(), number)
}
