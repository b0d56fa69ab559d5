ghost use Rattle.std.specs.Prelude.{◌≡◌, IfSome, IfNone};
ghost use Rattle.zms_units.specs.Runs.{UnitSet, units_in, IsLargest, IsFirstFrom, NoneFrom, IsBest};

use crate::Seg;

/// A set of free units of a metaslab, asked for its maximal runs. The lengths and places are in units, and a run is
/// given whole, as long as it can be.
///
/// After the range trees of OpenZFS's `range_tree.c`, which keep the same runs by offset and by size.
pub trait FreeRuns {
    /// The units that are free, and how many there are in all.
    ghost free: { Self → UnitSet };

    /// How many units there are, free or not.
    fn range(&self) -> u32
        ensures { result ≡ (free self.now).range };

    /// How many units are free: `range_tree_space`.
    fn units(&self) -> u32
        ensures { result ≡ units_in (free self.now).has (free self.now).range };

    /// The length of the longest run, 0 where no unit is free: `metaslab_largest_allocatable`.
    fn largest(&self) -> u32
        ensures { IsLargest (free self.now).has (free self.now).range result };

    /// The lowest run of at least `count` units that starts at or after `at`. `None` where there is no such run.
    fn first_from(&self, count: u32, at: u32) -> Option<Seg>
        ensures found { IfSome result (IsFirstFrom (free self.now).has (free self.now).range count at) }
        ensures none { IfNone result (NoneFrom (free self.now).has (free self.now).range count at) };

    /// The shortest run of at least `count` units, and of these the lowest. `None` where no run is so long.
    fn best(&self, count: u32) -> Option<Seg>
        ensures found { IfSome result (IsBest (free self.now).has (free self.now).range count) }
        ensures none { IfNone result (NoneFrom (free self.now).has (free self.now).range count 0) };
}
