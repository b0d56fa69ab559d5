//! The lowest run that is long enough, from a place on: two descents.
//!
//! The first goes to where the runs that start at the place or behind it begin, and keeps the lowest node on its way
//! that is long enough, or has a run that is on its right. The second goes down there, steered by the longest run of
//! each subtree.
ghost use Rattle.std.specs.Prelude.{◌≡◌, ℕ, ◌+◌, ◌*◌, ◌<◌, ◌≤◌, ◌⊎◌, true, false, Some, IfSome, IfNone, length};
ghost use Rattle.zms_units.specs.Runs.{IsFirstFrom, NoneFrom};
ghost use Rattle.seg_order.specs.Trees.{nodes_from, greatest_of, stored_height, IsOver};
ghost use Rattle.range_tree.specs.Nodes.{place_rules};
ghost use Rattle.range_tree.specs.Descents.{descent};
ghost use Rattle.range_tree.specs.Kept.{placed, units_of, IsTree};
ghost use Rattle.range_tree.specs.Sought.{PointsFrom, IsFirstLong};

use crate::node::{ByPlace, RunNode};
use crate::tree::Tree;
use seg_order::Order;
use seg_pool::{NodeNo, SegPool};
use zms_units::Seg;

/// The longest run of a subtree.
fn longest(pool: &SegPool<RunNode>, root: Option<NodeNo>) -> u32
    requires { IsOver place_rules pool.now root }
    ensures { result ≡ greatest_of place_rules pool.now (nodes_from place_rules pool.now root) }
{
    match root {
        Some(top) => pool.node(top).longest,
        None => 0,
    }
}

/// Is a run long enough, or one on its right?
fn is_point(pool: &SegPool<RunNode>, run: Seg, right: Option<NodeNo>, count: u32) -> bool
    requires { IsOver place_rules pool.now right }
    ensures long { result ≡ true → (count ≤ run.count) ⊎ (count ≤ greatest_of place_rules pool.now (nodes_from place_rules pool.now right)) }
    ensures short { result ≡ false → (run.count < count) × (greatest_of place_rules pool.now (nodes_from place_rules pool.now right) < count) }
{
    run.count >= count || longest(pool, right) >= count
}

/// The node behind which, itself included, the lowest long run at `at` or behind it stands first, on its right side.
fn turning_point(pool: &SegPool<RunNode>, tree: &Tree, count: u32, at: u32) -> (Option<NodeNo>, u32)
    requires { IsTree pool.now tree.now }
    ensures point { PointsFrom pool.now count at (placed pool.now tree.now) result.0 }
    ensures visits { result.1 ≤ descent (length (placed pool.now tree.now)) }
{
    let mut point = None;
    let mut below = tree.places.root();
    let mut visits = 0;
    while let Some(no) = below {
        let node = pool.node(no);
        let links = ByPlace::links(node);
        visits += 1;
        if node.seg.start < at {
            below = links.right;
        } else {
            if is_point(pool, node.seg, links.right, count) {
                point = Some(no);
            }
            below = links.left;
        }
    }
    (point, visits)
}

/// The first long run of a subtree that has one.
fn first_long(pool: &SegPool<RunNode>, root: NodeNo, count: u32) -> (Seg, u32)
    requires over { IsOver place_rules pool.now (Some root) }
    requires some { 0 < count }
    requires long { count ≤ greatest_of place_rules pool.now (nodes_from place_rules pool.now (Some root)) }
    ensures first { IsFirstLong pool.now count (nodes_from place_rules pool.now (Some root)) result.0 }
    ensures visits { result.1 ≤ stored_height place_rules pool.now (Some root) }
{
    let mut no = root;
    let mut visits = 1;
    'down: loop {
        let node = pool.node(no);
        let links = ByPlace::links(node);
        if longest(pool, links.left) >= count {
            let Some(left) = links.left else {
                unreachable!()
            };
            no = left;
            visits += 1;
            continue 'down;
        }
        if node.seg.count >= count {
            return (node.seg, visits);
        }
        let Some(right) = links.right else {
            unreachable!()
        };
        no = right;
        visits += 1;
    }
}

/// The lowest run of at least `count` units that starts at `at` or behind it, and how many nodes were visited.
pub(crate) fn first_from(
    pool: &SegPool<RunNode>,
    tree: &Tree,
    count: u32,
    at: u32,
) -> (Option<Seg>, u32)
    requires { IsTree pool.now tree.now }
    ensures first { IfSome result.0 (IsFirstFrom (units_of pool.now tree.now) 131072 count at) }
    ensures none { IfNone result.0 (NoneFrom (units_of pool.now tree.now) 131072 count at) }
    ensures visits { result.1 ≤ 2 * descent (length (placed pool.now tree.now)) }
{
    let (point, visits) = turning_point(pool, tree, count, at);
    let Some(no) = point else {
        return (None, visits);
    };
    let node = pool.node(no);
    let links = ByPlace::links(node);
    if node.seg.count >= count {
        return (Some(node.seg), visits);
    }
    let Some(right) = links.right else {
        unreachable!()
    };
    let (run, more) = first_long(pool, right, count);
    (Some(run), visits + more)
}
