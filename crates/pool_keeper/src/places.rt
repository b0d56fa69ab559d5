//! The metaslabs of cells by their numbers.
ghost use Rattle.std.specs.Prelude.{◌≡◌, ◌<◌, length};
ghost use Rattle.vdev_map.specs.Numbers.{IsIn, number_of, metaslabs_in};

use ms_cell::Cells;
use seg_trees::SegTrees;
use vdev_map::id_of;
use zms_units::MsId;

/// The metaslab of a number.
pub(crate) fn id_at<R: SegTrees>(cells: &Cells<R>, number: usize) -> MsId
    requires { number < length cells.now.metaslabs }
    ensures id { IsIn cells.now.vdevs result }
    ensures number { number_of cells.now.vdevs result ≡ number }
{
    id_of(cells.layout.vdevs.as_slice(), number as u32)
}

/// How many metaslabs there are.
pub(crate) fn count_of<R: SegTrees>(cells: &Cells<R>) -> usize
    ensures count { result ≡ length cells.now.metaslabs }
    ensures vdevs { result ≡ metaslabs_in cells.now.vdevs }
{
    cells.metaslabs.len()
}
