//! What is asked of one tree.
ghost use Rattle.std.specs.Prelude.{◌≡◌, ℕ, ◌+◌, ◌*◌, ◌<◌, ◌≤◌, ◌↔◌, true, false, IsTrue, IsSome, IfSome, IfNone, length};
ghost use Rattle.zms_units.specs.declared.segments.Seg.{Seg};
ghost use Rattle.zms_units.specs.Segments.{Covers};
ghost use Rattle.zms_units.specs.Runs.{IsBest, NoneFrom, IsLargest};
ghost use Rattle.seg_trees.specs.Sets.{HoldsAll, HoldsNone, IsLowest, IsSegment};
ghost use Rattle.seg_pool.specs.declared.NodeNo.{NodeNo};
ghost use Rattle.range_tree.specs.Descents.{descent};
ghost use Rattle.range_tree.specs.Kept.{placed, units_of, IsTree};
ghost use Rattle.range_tree.specs.Found.{FindsEnding, Holds};

use crate::node::RunNode;
use crate::tree::Tree;
use seg_pool::{NodeNo, SegPool};
use zms_units::Seg;

/// The first run that ends at a unit or behind it, and how many nodes were visited.
pub(crate) fn first_ending(pool: &SegPool<RunNode>, tree: &Tree, unit: u32) -> (Option<NodeNo>, u32)
    requires { IsTree pool.now tree.now }
    ensures found { FindsEnding pool.now tree.now unit result.0 }
    ensures visits { result.1 ≤ descent (length (placed pool.now tree.now)) }
{
    let key = RunNode::new(Seg {
        start: unit,
        count: 0,
    });
    tree.places.first_at_or_after(pool, &key)
}

/// The run that covers a segment whole, and how many nodes were visited.
pub(crate) fn holder(pool: &SegPool<RunNode>, tree: &Tree, seg: Seg) -> (Option<NodeNo>, u32)
    requires tree { IsTree pool.now tree.now }
    requires segment { IsSegment seg }
    ensures some { IfSome result.0 (λ (no : NodeNo). Holds pool.now tree.now seg no.0) }
    ensures none { IfNone result.0 (HoldsAll (units_of pool.now tree.now) seg → ⊥) }
    ensures visits { result.1 ≤ descent (length (placed pool.now tree.now)) }
{
    let (found, visits) = first_ending(pool, tree, seg.start + 1);
    if let Some(no) = found {
        let run = pool.node(no).seg;
        if run.start <= seg.start && seg.start + seg.count <= run.start + run.count {
            return (found, visits);
        }
    }
    (None, visits)
}

/// The lowest unit of a segment that is in the tree, and how many nodes were visited.
pub(crate) fn lowest(pool: &SegPool<RunNode>, tree: &Tree, seg: Seg) -> (Option<u32>, u32)
    requires tree { IsTree pool.now tree.now }
    requires segment { IsSegment seg }
    ensures lowest { IfSome result.0 (IsLowest (units_of pool.now tree.now) seg) }
    ensures none { IfNone result.0 (HoldsNone (units_of pool.now tree.now) seg) }
    ensures visits { result.1 ≤ descent (length (placed pool.now tree.now)) }
{
    let (found, visits) = first_ending(pool, tree, seg.start + 1);
    if let Some(no) = found {
        let run = pool.node(no).seg;
        if run.start < seg.start + seg.count {
            return (Some(run.start.max(seg.start)), visits);
        }
    }
    (None, visits)
}

/// How many units at the front of a segment are all in the tree, or all not, and which of the two.
pub(crate) fn front(pool: &SegPool<RunNode>, tree: &Tree, seg: Seg) -> (u32, bool)
    requires tree { IsTree pool.now tree.now }
    requires segment { IsSegment seg }
    ensures some { 0 < result.0 }
    ensures within { result.0 ≤ seg.count }
    ensures alike { (u : ℕ) → Covers (record { start = seg.start; count = result.0 }) u → units_of pool.now tree.now u ≡ result.1 }
{
    let (found, _) = first_ending(pool, tree, seg.start + 1);
    let Some(no) = found else {
        return (seg.count, false);
    };
    let run = pool.node(no).seg;
    if seg.start < run.start {
        return (seg.count.min(run.start - seg.start), false);
    }
    (seg.count.min(run.start + run.count - seg.start), true)
}

/// The shortest run of at least so many units, and of these the lowest, and how many nodes were visited.
pub(crate) fn best(pool: &SegPool<RunNode>, tree: &Tree, count: u32) -> (Option<Seg>, u32)
    requires { IsTree pool.now tree.now }
    ensures best { IfSome result.0 (IsBest (units_of pool.now tree.now) 131072 count) }
    ensures none { IfNone result.0 (NoneFrom (units_of pool.now tree.now) 131072 count 0) }
    ensures visits { result.1 ≤ descent (length (placed pool.now tree.now)) }
{
    let key = RunNode::new(Seg { start: 0, count });
    let (found, visits) = tree.sizes.first_at_or_after(pool, &key);
    match found {
        Some(no) => (Some(pool.node(no).seg), visits),
        None => (None, visits),
    }
}

/// The length of the longest run.
pub(crate) fn largest(pool: &SegPool<RunNode>, tree: &Tree) -> u32
    requires { IsTree pool.now tree.now }
    ensures { IsLargest (units_of pool.now tree.now) 131072 result }
{
    match tree.places.root() {
        Some(top) => pool.node(top).longest,
        None => 0,
    }
}
