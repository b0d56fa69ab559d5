ghost use Rattle.std.specs.Prelude.{◌≡◌, ◌<◌, ◌^◌, Some, decimal};
ghost use Rattle.zms_units.specs.Segments.{total_of};

use std::fmt;

/// A segment of a metaslab: the units `start` to `start + count - 1`, counted from the metaslab's start.
///
/// After `range_seg_t` of OpenZFS's `range_tree.c`, with a count in place of an end.
#[derive(Clone, Copy, Debug, PartialEq, Eq)]
pub struct Seg {
    pub start: u32,
    pub count: u32,
}

/// A transaction group, OpenZFS's txg: the changes that one commit makes lasting together.
#[derive(Clone, Copy, Debug, PartialEq, Eq, PartialOrd, Ord)]
pub struct Group(pub u64);

impl fmt::Display for Group {
    ghost output = { λ group. Some (decimal group.0) };

    fn fmt<W: fmt::Write>(&self, f: &mut fmt::Formatter<W>) -> fmt::Result {
        let number = self.0;
        write!(f, "{number}")
    }
}

/// How many units the segments have together.
pub fn unit_count(segs: &[Seg]) -> u32
    requires { total_of segs.now < 2 ^ 32 }
    ensures { result ≡ total_of segs.now }
{
    segs.iter().map(|seg| seg.count).sum()
}
