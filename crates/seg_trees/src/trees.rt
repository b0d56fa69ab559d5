ghost use Rattle.std.specs.Prelude.{◌≡◌, ℕ, ◌+◌, ◌*◌, ◌^◌, ◌<◌, ◌≤◌, ◌≢◌, ◌↔◌, Bool, false, not, ◌&&◌, ◌||◌, IsTrue, OnOk, IfSome, IfNone};
ghost use Rattle.zms_units.specs.Segments.{covers};
ghost use Rattle.zms_units.specs.Runs.{IsFirstFrom, NoneFrom, IsBest, IsLargest};
ghost use Rattle.zms_units.specs.Limits.{IsShift};
ghost use Rattle.zms_units.specs.Weights.{IsHistogramOf};
ghost use Rattle.seg_trees.specs.Sets.{size_of, nodes_of, all_nodes, HoldsAll, HoldsNone, IsLowest, IsSegment, AreDisjoint, AllStay, OthersStay, OthersStayBut, RisesAtMost, TakesNone};

use crate::Steps;
use std::alloc::{AllocError, Global};
use std::sync::ledger::Ledger;
use zms_units::{Histogram, MAX_UNITS, Seg};

/// How many trees there are: 0 allocatable; 1 to 4 allocating, by group modulo 4; 5 to 8 freeing, by group modulo 4;
/// 9 and 10 deferred, by group modulo 2; 11 trim; 12 scratch.
pub const TREES: u8 = 13;

/// Thirteen numbered trees of runs, after `range_tree_t`: each is a set of units below `MAX_UNITS`, kept as its maximal
/// runs, one node for each, over one store of nodes.
///
/// A call that names a tree leaves the others as they were. Memory is taken by `reserve` alone: `spare` says how many
/// calls of `add` or `remove` are sure to find a node, and in every other call it falls by exactly the nodes that the trees
/// have more, and rises by exactly those that they have fewer. `steps` counts the nodes that searches visit, and at most `descent n`
/// of them are visited by one descent into a tree of `n` nodes.
pub trait SegTrees {
    // For a tree and a unit: is the unit in the tree?
    ghost set: { Self → ℕ → ℕ → Bool };

    // How many calls of `add` or `remove` the memory at hand lasts for.
    ghost spare: { Self → ℕ };

    // How many nodes of a tree of so many nodes one descent visits at most.
    ghost descent: { ℕ → ℕ };

    /// Thirteen empty trees, with no memory taken.
    fn new(alloc: Global) -> Self
        ensures empty { (tree u : ℕ) → set result tree u ≡ false }
        ensures spare { spare result ≡ 0 };

    /// Takes memory, so that at least `n` calls of `add` or `remove` take none. After an error some of it may have been
    /// taken.
    fn reserve(&mut self, n: u32) -> Result<(), AllocError>
        requires most { all_nodes (set self.old) + n ≤ 2 ^ 24 }
        ensures enough { OnOk result (n ≤ spare self.new) }
        ensures spare { spare self.old ≤ spare self.new }
        ensures stay { AllStay (set self.old) (set self.new) };

    /// How many calls of `add` or `remove` are sure to find a node.
    fn spare(&self) -> u32
        ensures { result ≡ spare self.now };

    /// Adds a segment that meets nothing in the tree, as `range_tree_add` does. It joins the runs that it touches.
    fn add<L: Ledger>(&mut self, tree: u8, seg: Seg, steps: &mut Steps<L>)
        requires tree { tree < TREES }
        requires segment { IsSegment seg }
        requires apart { HoldsNone (set self.old tree) seg }
        requires spare { 1 ≤ spare self.old }
        ensures added { (u : ℕ) → set self.new tree u ≡ (covers seg u || set self.old tree u) }
        ensures others { OthersStay (set self.old) (set self.new) tree }
        ensures spare { spare self.old ≤ spare self.new + 1 }
        ensures memory { TakesNone (spare self.old) (set self.old) (spare self.new) (set self.new) }
        ensures steps { RisesAtMost steps.old steps.new (8 * descent (nodes_of (set self.old tree))) };

    /// Takes a segment away that the tree covers, as `range_tree_remove` does.
    fn remove<L: Ledger>(&mut self, tree: u8, seg: Seg, steps: &mut Steps<L>)
        requires tree { tree < TREES }
        requires segment { IsSegment seg }
        requires covered { HoldsAll (set self.old tree) seg }
        requires spare { 1 ≤ spare self.old }
        ensures removed { (u : ℕ) → set self.new tree u ≡ (not (covers seg u) && set self.old tree u) }
        ensures others { OthersStay (set self.old) (set self.new) tree }
        ensures spare { spare self.old ≤ spare self.new + 1 }
        ensures memory { TakesNone (spare self.old) (set self.old) (spare self.new) (set self.new) }
        ensures steps { RisesAtMost steps.old steps.new (8 * descent (nodes_of (set self.old tree))) };

    /// Is each unit of the segment in the tree? As `range_tree_contains` asks.
    fn covers<L: Ledger>(&self, tree: u8, seg: Seg, steps: &mut Steps<L>) -> bool
        requires tree { tree < TREES }
        requires segment { IsSegment seg }
        ensures covers { IsTrue result ↔ HoldsAll (set self.now tree) seg }
        ensures steps { RisesAtMost steps.old steps.new (descent (nodes_of (set self.now tree))) };

    /// The lowest unit of the segment that is in the tree.
    fn meets<L: Ledger>(&self, tree: u8, seg: Seg, steps: &mut Steps<L>) -> Option<u32>
        requires tree { tree < TREES }
        requires segment { IsSegment seg }
        ensures lowest { IfSome result (IsLowest (set self.now tree) seg) }
        ensures none { IfNone result (HoldsNone (set self.now tree) seg) }
        ensures steps { RisesAtMost steps.old steps.new (descent (nodes_of (set self.now tree))) };

    /// The lowest run of at least `count` units that starts at `at` or after it.
    fn first_from<L: Ledger>(
        &self,
        tree: u8,
        count: u32,
        at: u32,
        steps: &mut Steps<L>,
    ) -> Option<Seg>
        requires { tree < TREES }
        ensures first { IfSome result (IsFirstFrom (set self.now tree) MAX_UNITS count at) }
        ensures none { IfNone result (NoneFrom (set self.now tree) MAX_UNITS count at) }
        ensures steps { RisesAtMost steps.old steps.new (2 * descent (nodes_of (set self.now tree))) };

    /// The shortest run of at least `count` units, and the lowest of these: best fit, as the size-sorted tree of a
    /// metaslab gives it.
    fn best<L: Ledger>(&self, tree: u8, count: u32, steps: &mut Steps<L>) -> Option<Seg>
        requires { tree < TREES }
        ensures best { IfSome result (IsBest (set self.now tree) MAX_UNITS count) }
        ensures none { IfNone result (NoneFrom (set self.now tree) MAX_UNITS count 0) }
        ensures steps { RisesAtMost steps.old steps.new (descent (nodes_of (set self.now tree))) };

    /// The length of the longest run, in units, 0 where the tree is empty: `metaslab_largest_allocatable`.
    fn largest(&self, tree: u8) -> u32
        requires { tree < TREES }
        ensures { IsLargest (set self.now tree) MAX_UNITS result };

    /// Exchanges two trees, as `range_tree_swap` does. Takes no memory.
    fn swap(&mut self, first: u8, second: u8)
        requires trees { (first < TREES) × (second < TREES) }
        requires differ { first ≢ second }
        ensures first { (u : ℕ) → set self.new first u ≡ set self.old second u }
        ensures second { (u : ℕ) → set self.new second u ≡ set self.old first u }
        ensures others { OthersStayBut (set self.old) (set self.new) first second }
        ensures spare { spare self.old ≤ spare self.new }
        ensures memory { TakesNone (spare self.old) (set self.old) (spare self.new) (set self.new) };

    /// Moves all units of one tree into another, which holds none of them: `range_tree_vacate` with `range_tree_add`.
    /// Takes no memory.
    fn vacate(&mut self, from: u8, into: u8)
        requires trees { (from < TREES) × (into < TREES) }
        requires differ { from ≢ into }
        requires disjoint { AreDisjoint (set self.old from) (set self.old into) }
        ensures into { (u : ℕ) → set self.new into u ≡ (set self.old from u || set self.old into u) }
        ensures from { (u : ℕ) → set self.new from u ≡ false }
        ensures others { OthersStayBut (set self.old) (set self.new) from into }
        ensures spare { spare self.old ≤ spare self.new }
        ensures memory { TakesNone (spare self.old) (set self.old) (spare self.new) (set self.new) };

    /// Empties a tree, as `range_tree_vacate` does. Takes no memory.
    fn clear(&mut self, tree: u8)
        requires { tree < TREES }
        ensures empty { (u : ℕ) → set self.new tree u ≡ false }
        ensures others { OthersStay (set self.old) (set self.new) tree }
        ensures spare { spare self.old ≤ spare self.new }
        ensures memory { TakesNone (spare self.old) (set self.old) (spare self.new) (set self.new) };

    /// Takes the units of the segment that `from` has away from it, and adds the others to `into`, as
    /// `range_tree_remove_xor_add_segment` does. Units that `into` has already stay in it.
    fn xor_into(&mut self, seg: Seg, from: u8, into: u8)
        requires trees { (from < TREES) × (into < TREES) }
        requires differ { from ≢ into }
        requires segment { IsSegment seg }
        requires spare { seg.count ≤ spare self.old }
        ensures from { (u : ℕ) → set self.new from u ≡ (not (covers seg u) && set self.old from u) }
        ensures into { (u : ℕ) → set self.new into u ≡ ((covers seg u && not (set self.old from u)) || set self.old into u) }
        ensures others { OthersStayBut (set self.old) (set self.new) from into }
        ensures spare { spare self.old ≤ spare self.new + seg.count }
        ensures memory { TakesNone (spare self.old) (set self.old) (spare self.new) (set self.new) };

    /// How many units the tree has.
    fn units(&self, tree: u8) -> u32
        requires { tree < TREES }
        ensures { result ≡ size_of (set self.now tree) };

    /// How many runs the tree has.
    fn nodes(&self, tree: u8) -> u32
        requires { tree < TREES }
        ensures { result ≡ nodes_of (set self.now tree) };

    /// How many runs the tree has of each length: a run is counted by the highest set bit of its length in bytes, with
    /// units of `2^ashift` bytes. After `range_tree_stat`.
    fn histogram(&self, tree: u8, ashift: u8) -> Histogram
        requires tree { tree < TREES }
        requires ashift { IsShift ashift }
        ensures { IsHistogramOf (set self.now tree) MAX_UNITS ashift result };
}
