//! Segments that come into one tree, or leave it.
ghost use Rattle.std.specs.Prelude.{◌≡◌, ℕ, ◌+◌, ◌-◌, ◌*◌, ◌<◌, ◌≤◌, true, false, not, ◌&&◌, ◌||◌, length};
ghost use Rattle.zms_units.specs.declared.segments.Seg.{Seg};
ghost use Rattle.zms_units.specs.Segments.{end_of, covers};
ghost use Rattle.seg_trees.specs.Sets.{HoldsAll, HoldsNone, IsSegment};
ghost use Rattle.range_tree.specs.Descents.{descent};
ghost use Rattle.range_tree.specs.Found.{FindsEnding};
ghost use Rattle.range_tree.specs.Kept.{placed, units_of, IsTree, Touches, HoldsNoneAround};

use crate::looking::{first_ending, holder};
use crate::node::RunNode;
use crate::tree::Tree;
use seg_pool::{NodeNo, SegPool};
use zms_units::Seg;

/// Whether a segment touches no run, where the first run is known that ends where it starts or behind.
fn is_alone(pool: &SegPool<RunNode>, tree: &Tree, seg: Seg, found: Option<NodeNo>) -> bool
    requires tree { IsTree pool.now tree.now }
    requires segment { IsSegment seg }
    requires found { FindsEnding pool.now tree.now seg.start found }
    ensures { result ≡ true → HoldsNoneAround (units_of pool.now tree.now) seg }
{
    match found {
        Some(no) => seg.start + seg.count < pool.node(no).seg.start,
        None => true,
    }
}

/// Takes the run out that ends where a segment starts, and tells where the joined run starts. The first run is known that
/// ends there or behind.
fn join_left(
    pool: &mut SegPool<RunNode>,
    tree: &mut Tree,
    seg: Seg,
    found: Option<NodeNo>,
) -> (u32, u32)
    requires tree { IsTree pool.old tree.old }
    requires found { FindsEnding pool.old tree.old seg.start found }
    requires segment { IsSegment seg }
    requires apart { HoldsNone (units_of pool.old tree.old) seg }
    ensures tree { IsTree pool.new tree.new }
    ensures start { result.0 ≤ seg.start }
    ensures held { (u : ℕ) → result.0 ≤ u → u < seg.start → units_of pool.old tree.old u ≡ true }
    ensures units { (u : ℕ) → units_of pool.new tree.new u ≡ (not (covers (record { start = result.0; count = seg.start - result.0 }) u) && units_of pool.old tree.old u) }
    ensures free { (u : ℕ) → result.0 ≤ u + 1 → u < seg.start → units_of pool.new tree.new u ≡ false }
    ensures touches { Touches pool.old pool.new (placed pool.old tree.old) (placed pool.new tree.new) }
    ensures nodes { length (placed pool.new tree.new) ≤ length (placed pool.old tree.old) }
    ensures visits { result.1 ≤ 2 * descent (length (placed pool.old tree.old)) }
{
    if let Some(no) = found {
        let run = pool.node(no).seg;
        if run.start + run.count == seg.start {
            let (_, visits) = tree.take_out(pool, no);
            return (run.start, visits);
        }
    }
    (seg.start, 0)
}

/// Takes the run out that starts where a segment ends, and tells where the joined run ends.
fn join_right(pool: &mut SegPool<RunNode>, tree: &mut Tree, seg: Seg) -> (u32, u32)
    requires tree { IsTree pool.old tree.old }
    requires segment { IsSegment seg }
    requires apart { HoldsNone (units_of pool.old tree.old) seg }
    ensures tree { IsTree pool.new tree.new }
    ensures end { (end_of seg ≤ result.0) × (result.0 ≤ 131072) }
    ensures held { (u : ℕ) → end_of seg ≤ u → u < result.0 → units_of pool.old tree.old u ≡ true }
    ensures units { (u : ℕ) → units_of pool.new tree.new u ≡ (not (covers (record { start = end_of seg; count = result.0 - end_of seg }) u) && units_of pool.old tree.old u) }
    ensures free { (u : ℕ) → end_of seg ≤ u → u ≤ result.0 → units_of pool.new tree.new u ≡ false }
    ensures touches { Touches pool.old pool.new (placed pool.old tree.old) (placed pool.new tree.new) }
    ensures nodes { length (placed pool.new tree.new) ≤ length (placed pool.old tree.old) }
    ensures visits { result.1 ≤ 3 * descent (length (placed pool.old tree.old)) }
{
    let end = seg.start + seg.count;
    let (found, visits) = first_ending(pool, tree, end + 1);
    if let Some(no) = found {
        let run = pool.node(no).seg;
        if run.start == end {
            let (_, more) = tree.take_out(pool, no);
            return (run.start + run.count, visits + more);
        }
    }
    (end, visits)
}

/// Adds a segment that meets nothing in the tree, joined with the runs that it touches, and tells how many nodes were
/// visited.
pub(crate) fn add(pool: &mut SegPool<RunNode>, tree: &mut Tree, seg: Seg) -> u32
    requires tree { IsTree pool.old tree.old }
    requires segment { IsSegment seg }
    requires apart { HoldsNone (units_of pool.old tree.old) seg }
    requires spare { 1 ≤ pool.old.spare }
    ensures tree { IsTree pool.new tree.new }
    ensures units { (u : ℕ) → units_of pool.new tree.new u ≡ (covers seg u || units_of pool.old tree.old u) }
    ensures touches { Touches pool.old pool.new (placed pool.old tree.old) (placed pool.new tree.new) }
    ensures nodes { length (placed pool.new tree.new) ≤ length (placed pool.old tree.old) + 1 }
    ensures visits { result ≤ 8 * descent (length (placed pool.old tree.old)) }
{
    let (found, looked) = first_ending(pool, tree, seg.start);
    if is_alone(pool, tree, seg, found) {
        let visits = tree.put(pool, seg);
        return looked + visits;
    }
    let (start, left) = join_left(pool, tree, seg, found);
    let (end, right) = join_right(pool, tree, seg);
    let run = Seg {
        start,
        count: end - start,
    };
    let visits = tree.put(pool, run);
    looked + left + right + visits
}

/// Puts a part of a run back, where there is one.
fn put_part(pool: &mut SegPool<RunNode>, tree: &mut Tree, part: Seg) -> u32
    requires tree { IsTree pool.old tree.old }
    requires within { end_of part ≤ 131072 }
    requires around { HoldsNoneAround (units_of pool.old tree.old) part }
    requires spare { 1 ≤ pool.old.spare }
    ensures tree { IsTree pool.new tree.new }
    ensures units { (u : ℕ) → units_of pool.new tree.new u ≡ (covers part u || units_of pool.old tree.old u) }
    ensures touches { Touches pool.old pool.new (placed pool.old tree.old) (placed pool.new tree.new) }
    ensures nodes { length (placed pool.new tree.new) ≤ length (placed pool.old tree.old) + 1 }
    ensures visits { result ≤ 2 * descent (length (placed pool.old tree.old)) }
{
    if part.count == 0 {
        return 0;
    }
    tree.put(pool, part)
}

/// Takes a segment away that the tree covers, and tells how many nodes were visited.
pub(crate) fn remove(pool: &mut SegPool<RunNode>, tree: &mut Tree, seg: Seg) -> u32
    requires tree { IsTree pool.old tree.old }
    requires segment { IsSegment seg }
    requires covered { HoldsAll (units_of pool.old tree.old) seg }
    requires spare { 1 ≤ pool.old.spare }
    ensures tree { IsTree pool.new tree.new }
    ensures units { (u : ℕ) → units_of pool.new tree.new u ≡ (not (covers seg u) && units_of pool.old tree.old u) }
    ensures touches { Touches pool.old pool.new (placed pool.old tree.old) (placed pool.new tree.new) }
    ensures nodes { length (placed pool.new tree.new) ≤ length (placed pool.old tree.old) + 1 }
    ensures visits { result ≤ 8 * descent (length (placed pool.old tree.old)) }
{
    let (found, looked) = holder(pool, tree, seg);
    let Some(no) = found else { unreachable!() };
    let (run, taken) = tree.take_out(pool, no);
    let end = seg.start + seg.count;
    let left = Seg {
        start: run.start,
        count: seg.start - run.start,
    };
    let right = Seg {
        start: end,
        count: run.start + run.count - end,
    };
    let before = put_part(pool, tree, left);
    let behind = put_part(pool, tree, right);
    looked + taken + before + behind
}
