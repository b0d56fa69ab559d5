//! A node over two subtrees.
ghost use Rattle.std.specs.Prelude.{◌≡◌, ◌+◌, ◌<◌, IsSome, Some};
ghost use Rattle.seg_pool.specs.Pool.{node_at};
ghost use Rattle.seg_order.specs.Trees.{stored_height, DifferByAtMost, IsInUse};
ghost use Rattle.seg_order.specs.Changes.{Attaches, IsUnder, Joins};

use crate::links::{greatest, height};
use crate::{Links, Order, Side};
use seg_pool::{NodeNo, SegPool};

/// Writes a node's links, so that these subtrees hang below it.
fn attach<O: Order>(
    pool: &mut SegPool<O::Node>,
    no: NodeNo,
    left: Option<NodeNo>,
    right: Option<NodeNo>,
)
    requires node { IsSome (node_at pool.old no.0) }
    requires left { IsInUse pool.old left }
    requires right { IsInUse pool.old right }
    requires low { (stored_height O.rules pool.old left < 255) × (stored_height O.rules pool.old right < 255) }
    ensures { Attaches O.rules pool.old pool.new left right no.0 }
{
    let levels = height::<O>(pool, left).max(height::<O>(pool, right));
    let below = greatest::<O>(pool, left).max(greatest::<O>(pool, right));
    let node = pool.node_mut(no);
    let links = Links {
        left,
        right,
        height: levels + 1,
        greatest: below.max(O::span(node)),
    };
    O::set_links(node, links);
}

/// Puts a node over two subtrees whose heights differ by one at most.
pub(crate) fn join<O: Order>(
    pool: &mut SegPool<O::Node>,
    side: Side,
    no: NodeNo,
    near: Option<NodeNo>,
    far: Option<NodeNo>,
)
    requires under { IsUnder O.rules pool.old near far no.0 }
    requires balanced { DifferByAtMost 1 (stored_height O.rules pool.old near) (stored_height O.rules pool.old far) }
    requires low { (stored_height O.rules pool.old near < 255) × (stored_height O.rules pool.old far < 255) }
    ensures { Joins O.rules side pool.old pool.new near far no.0 (Some no) }
{
    match side {
        Side::Left => attach::<O>(pool, no, near, far),
        Side::Right => attach::<O>(pool, no, far, near),
    }
}
