//! One tree: its runs in both orders, and what is counted of them.

ghost use Rattle.std.specs.Prelude.{◌≡◌, ℕ, ◌+◌, ◌*◌, ◌^◌, ◌<◌, ◌≤◌, [], not, ◌&&◌, ◌||◌, length};
ghost use Rattle.std.specs.List.{Contains};
ghost use Rattle.zms_units.specs.Segments.{covers};
ghost use Rattle.zms_units.specs.Limits.{IsShift};
ghost use Rattle.zms_units.specs.Weights.{IsHistogramOf};
ghost use Rattle.seg_trees.specs.Sets.{HoldsAll, IsSegment};
ghost use Rattle.range_tree.specs.Descents.{descent};
ghost use Rattle.seg_pool.specs.Pool.{Pool};
ghost use Rattle.range_tree.specs.declared.node.RunNode.{RunNode};
ghost use Rattle.range_tree.specs.Kept.{seg_at, placed, units_of, IsTree, Touches, HoldsNoneAround};

use crate::node::{ByPlace, BySize, RunNode};
use seg_order::SegOrder;
use seg_pool::{NodeNo, SegPool};
use zms_units::{Histogram, Seg};

// Lengths of 1 to `MAX_UNITS` units have their highest set bit at 0 to 17.
const LENGTHS: usize = 18;

/// A set of units as its maximal runs, one node for each.
#[derive(Drop)]
pub(crate) struct Tree {
    pub(crate) places: SegOrder<ByPlace>,
    pub(crate) sizes: SegOrder<BySize>,
    nodes: u32,
    units: u32,
    // How many runs there are whose length in units has its highest set bit at each place.
    lengths: [u32; LENGTHS],
}

/// At which place of `lengths` a run of so many units is counted.
fn length_bit(count: u32) -> usize
    requires some { 0 < count }
    requires most { count ≤ 131072 }
    ensures least { 2 ^ result ≤ count }
    ensures most { count < 2 ^ (result + 1) }
    ensures below { result < 18 }
{
    count.ilog2() as usize
}

impl Tree {
    /// A tree without runs, over each pool.
    pub(crate) fn new() -> Self
        ensures tree { (pool : Pool RunNode) → IsTree pool result }
        ensures empty { (pool : Pool RunNode) → placed pool result ≡ [] }
    {
        Tree {
            places: SegOrder::new(),
            sizes: SegOrder::new(),
            nodes: 0,
            units: 0,
            lengths: [0; LENGTHS],
        }
    }

    /// The node on top of the order by place, none exactly where there is no run.
    pub(crate) fn top(&self) -> Option<NodeNo>
        ensures { result ≡ self.now.places.root }
    {
        self.places.root()
    }

    /// How many runs there are.
    pub(crate) fn nodes(&self) -> u32
        ensures { result ≡ self.now.nodes }
    {
        self.nodes
    }

    /// How many units there are.
    pub(crate) fn units(&self) -> u32
        ensures { result ≡ self.now.units }
    {
        self.units
    }

    /// How many runs there are of each length in bytes, by its highest set bit, with units of `2^ashift` bytes.
    pub(crate) fn histogram(&self, ashift: u8) -> Histogram
        requires { IsShift ashift }
        ensures { (pool : Pool RunNode) → IsTree pool self.now → IsHistogramOf (units_of pool self.now) 131072 ashift result }
    {
        let mut hist = Histogram::empty();
        for bit in 0..LENGTHS {
            hist.runs[ashift as usize + bit] = self.lengths[bit];
        }
        hist
    }

    /// Puts a run in that touches no other, and tells how many nodes were visited.
    pub(crate) fn put(&mut self, pool: &mut SegPool<RunNode>, run: Seg) -> u32
        requires tree { IsTree pool.old self.old }
        requires segment { IsSegment run }
        requires around { HoldsNoneAround (units_of pool.old self.old) run }
        requires spare { 1 ≤ pool.old.spare }
        ensures tree { IsTree pool.new self.new }
        ensures units { (u : ℕ) → units_of pool.new self.new u ≡ (covers run u || units_of pool.old self.old u) }
        ensures touches { Touches pool.old pool.new (placed pool.old self.old) (placed pool.new self.new) }
        ensures nodes { length (placed pool.new self.new) ≡ length (placed pool.old self.old) + 1 }
        ensures visits { result ≤ 2 * descent (length (placed pool.old self.old)) }
    {
        let no = pool.take(RunNode::new(run));
        let by_place = self.places.insert(pool, no);
        let by_size = self.sizes.insert(pool, no);
        self.nodes += 1;
        self.units += run.count;
        self.lengths[length_bit(run.count)] += 1;
        by_place + by_size
    }

    /// Takes a run out, and gives its node back to the pool.
    pub(crate) fn take_out(&mut self, pool: &mut SegPool<RunNode>, no: NodeNo) -> (Seg, u32)
        requires tree { IsTree pool.old self.old }
        requires listed { Contains (placed pool.old self.old) no.0 }
        ensures run { result.0 ≡ seg_at pool.old no.0 }
        ensures tree { IsTree pool.new self.new }
        ensures segment { IsSegment result.0 }
        ensures held { HoldsAll (units_of pool.old self.old) result.0 }
        ensures around { HoldsNoneAround (units_of pool.new self.new) result.0 }
        ensures units { (u : ℕ) → units_of pool.new self.new u ≡ (not (covers result.0 u) && units_of pool.old self.old u) }
        ensures touches { Touches pool.old pool.new (placed pool.old self.old) (placed pool.new self.new) }
        ensures nodes { length (placed pool.new self.new) + 1 ≡ length (placed pool.old self.old) }
        ensures visits { result.1 ≤ 2 * descent (length (placed pool.old self.old)) }
    {
        let by_place = self.places.remove(pool, no);
        let by_size = self.sizes.remove(pool, no);
        let run = pool.give(no).seg;
        self.nodes -= 1;
        self.units -= run.count;
        self.lengths[length_bit(run.count)] -= 1;
        (run, by_place + by_size)
    }

    /// Takes the run on top out, and gives its node back to the pool.
    pub(crate) fn take_top(&mut self, pool: &mut SegPool<RunNode>) -> Seg
        requires tree { IsTree pool.old self.old }
        requires some { 0 < length (placed pool.old self.old) }
        ensures tree { IsTree pool.new self.new }
        ensures segment { IsSegment result }
        ensures held { HoldsAll (units_of pool.old self.old) result }
        ensures units { (u : ℕ) → units_of pool.new self.new u ≡ (not (covers result u) && units_of pool.old self.old u) }
        ensures touches { Touches pool.old pool.new (placed pool.old self.old) (placed pool.new self.new) }
        ensures nodes { length (placed pool.new self.new) + 1 ≡ length (placed pool.old self.old) }
    {
        let Some(no) = self.top() else { unreachable!() };
        let (run, _) = self.take_out(pool, no);
        run
    }
}
