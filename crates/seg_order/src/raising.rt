//! A node comes into a subtree.
ghost use Rattle.std.specs.Prelude.{◌≡◌, ◌≤◌, IsSome, Some};
ghost use Rattle.seg_pool.specs.Pool.{node_at};
ghost use Rattle.seg_order.specs.Sides.{side_of};
ghost use Rattle.seg_order.specs.Trees.{stored_height, nodes_from, Differs, IsOver};
ghost use Rattle.seg_order.specs.Changes.{Inserts};

use crate::joining::join;
use crate::links::{links_of, tell};
use crate::turning::resettle;
use crate::{Order, Side};
use seg_pool::{NodeNo, SegPool};

/// On which side of one node another belongs.
pub(crate) fn side_of<O: Order>(pool: &SegPool<O::Node>, no: NodeNo, at: NodeNo) -> Side
    requires node { IsSome (node_at pool.now no.0) }
    requires at { IsSome (node_at pool.now at.0) }
    ensures { result ≡ side_of O.rules pool.now no.0 at.0 }
{
    if O::before(pool.node(no), pool.node(at)) {
        Side::Left
    } else {
        Side::Right
    }
}

/// Puts a node into a subtree, and tells what is on top then and how many nodes were visited.
pub(crate) fn insert_below<O: Order>(
    pool: &mut SegPool<O::Node>,
    root: Option<NodeNo>,
    no: NodeNo,
) -> (NodeNo, u32)
    requires over { IsOver O.rules pool.old root }
    requires node { IsSome (node_at pool.old no.0) }
    requires differs { Differs O.rules pool.old no.0 (nodes_from O.rules pool.old root) }
    ensures inserts { Inserts O.rules pool.old root no.0 pool.new (Some result.0) }
    ensures visits { result.1 ≤ stored_height O.rules pool.old root }
{
    let Some(at) = root else {
        join::<O>(pool, Side::Left, no, None, None);
        return (no, 0);
    };
    let side = side_of::<O>(pool, no, at);
    let links = links_of::<O>(pool, at);
    let near = links.toward(side);
    let far = links.toward(side.other());
    let before = tell::<O>(pool, near);
    let (grown, visits) = insert_below::<O>(pool, near, no);
    let top = resettle::<O>(pool, side, at, before, Some(grown), far);
    (top, visits + 1)
}
