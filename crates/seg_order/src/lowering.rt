//! A node leaves a subtree.
ghost use Rattle.std.specs.Prelude.{◌≡◌, ◌≤◌, Some};
ghost use Rattle.std.specs.List.{Contains};
ghost use Rattle.seg_order.specs.Trees.{stored_height, nodes_from, IsOver};
ghost use Rattle.seg_order.specs.Changes.{Removes, RemovesFirst};

use crate::links::{links_of, tell};
use crate::raising::side_of;
use crate::turning::{resettle, settle};
use crate::{Order, Side};
use seg_pool::{NodeNo, SegPool};

/// Takes the first node of a subtree out, and tells which it is, what is on top then, and how many nodes were visited.
fn take_first<O: Order>(pool: &mut SegPool<O::Node>, root: NodeNo) -> (NodeNo, Option<NodeNo>, u32)
    requires over { IsOver O.rules pool.old (Some root) }
    ensures removes { RemovesFirst O.rules pool.old (Some root) result.0.0 pool.new result.1 }
    ensures visits { result.2 ≤ stored_height O.rules pool.old (Some root) }
{
    let links = links_of::<O>(pool, root);
    let Some(left) = links.left else {
        return (root, links.right, 1);
    };
    let before = tell::<O>(pool, links.left);
    let (first, rest, visits) = take_first::<O>(pool, left);
    let top = resettle::<O>(pool, Side::Left, root, before, rest, links.right);
    (first, Some(top), visits + 1)
}

/// Takes the top of a subtree out.
fn remove_top<O: Order>(pool: &mut SegPool<O::Node>, root: NodeNo) -> (Option<NodeNo>, u32)
    requires over { IsOver O.rules pool.old (Some root) }
    ensures removes { Removes O.rules pool.old (Some root) root.0 pool.new result.0 }
    ensures visits { result.1 ≤ stored_height O.rules pool.old (Some root) }
{
    let links = links_of::<O>(pool, root);
    let Some(right) = links.right else {
        return (links.left, 1);
    };
    let (first, rest, visits) = take_first::<O>(pool, right);
    let top = settle::<O>(pool, Side::Left, first, links.left, rest);
    (Some(top), visits + 1)
}

/// Takes a node out of a subtree, and tells what is on top then and how many nodes were visited.
pub(crate) fn remove_below<O: Order>(
    pool: &mut SegPool<O::Node>,
    root: NodeNo,
    no: NodeNo,
) -> (Option<NodeNo>, u32)
    requires over { IsOver O.rules pool.old (Some root) }
    requires listed { Contains (nodes_from O.rules pool.old (Some root)) no.0 }
    ensures removes { Removes O.rules pool.old (Some root) no.0 pool.new result.0 }
    ensures visits { result.1 ≤ stored_height O.rules pool.old (Some root) }
{
    if no.0 == root.0 {
        return remove_top::<O>(pool, root);
    }
    let side = side_of::<O>(pool, no, root);
    let links = links_of::<O>(pool, root);
    let near = links.toward(side);
    let far = links.toward(side.other());
    let Some(below) = near else { unreachable!() };
    let before = tell::<O>(pool, near);
    let (rest, visits) = remove_below::<O>(pool, below, no);
    let top = resettle::<O>(pool, side, root, before, rest, far);
    (Some(top), visits + 1)
}
