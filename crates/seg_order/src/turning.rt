//! Balance: what is joined where one side has grown or the other has shrunk.
ghost use Rattle.std.specs.Prelude.{◌≡◌, ◌+◌, ◌<◌, ◌≤◌, Some};
ghost use Rattle.seg_order.specs.Sides.{other, toward};
ghost use Rattle.seg_order.specs.Trees.{links_at, stored_height, DifferByAtMost};
ghost use Rattle.seg_order.specs.Changes.{IsUnder, IsOverBoth, Joins};
ghost use Rattle.seg_order.specs.declared.links.Side.TheVariants.{Left};

use crate::joining::join;
use crate::links::{Told, height, links_of, tell};
use crate::{Order, Side};
use seg_pool::{NodeNo, SegPool};

/// The single rotation: the outer side of the higher subtree is no lower than its inner side.
fn turn<O: Order>(
    pool: &mut SegPool<O::Node>,
    side: Side,
    no: NodeNo,
    top: NodeNo,
    far: Option<NodeNo>,
)
    requires under { IsUnder O.rules pool.old (Some top) far no.0 }
    requires leans { stored_height O.rules pool.old (Some top) ≡ stored_height O.rules pool.old far + 2 }
    requires out { stored_height O.rules pool.old (toward (other side) (links_at O.rules pool.old top.0)) ≤ stored_height O.rules pool.old (toward side (links_at O.rules pool.old top.0)) }
    requires low { stored_height O.rules pool.old (Some top) < 255 }
    ensures { Joins O.rules side pool.old pool.new (Some top) far no.0 (Some top) }
{
    let links = links_of::<O>(pool, top);
    let outer = links.toward(side);
    let inner = links.toward(side.other());
    join::<O>(pool, side, no, inner, far);
    join::<O>(pool, side, top, outer, Some(no));
}

/// The double rotation: the inner side, with `mid` on top, is the higher one.
fn turn_twice<O: Order>(
    pool: &mut SegPool<O::Node>,
    side: Side,
    no: NodeNo,
    top: NodeNo,
    mid: NodeNo,
    far: Option<NodeNo>,
)
    requires under { IsUnder O.rules pool.old (Some top) far no.0 }
    requires leans { stored_height O.rules pool.old (Some top) ≡ stored_height O.rules pool.old far + 2 }
    requires inner { toward (other side) (links_at O.rules pool.old top.0) ≡ Some mid }
    requires inward { stored_height O.rules pool.old (toward side (links_at O.rules pool.old top.0)) < stored_height O.rules pool.old (Some mid) }
    requires low { stored_height O.rules pool.old (Some top) < 255 }
    ensures { Joins O.rules side pool.old pool.new (Some top) far no.0 (Some mid) }
{
    let outer = links_of::<O>(pool, top).toward(side);
    let links = links_of::<O>(pool, mid);
    let low = links.toward(side);
    let high = links.toward(side.other());
    join::<O>(pool, side, top, outer, low);
    join::<O>(pool, side, no, high, far);
    join::<O>(pool, side, mid, Some(top), Some(no));
}

/// Puts a node over two subtrees, of which the one on `side` is higher by two.
fn lean<O: Order>(
    pool: &mut SegPool<O::Node>,
    side: Side,
    no: NodeNo,
    near: Option<NodeNo>,
    far: Option<NodeNo>,
) -> NodeNo
    requires under { IsUnder O.rules pool.old near far no.0 }
    requires leans { stored_height O.rules pool.old near ≡ stored_height O.rules pool.old far + 2 }
    requires low { stored_height O.rules pool.old near < 255 }
    ensures { Joins O.rules side pool.old pool.new near far no.0 (Some result) }
{
    let Some(top) = near else { unreachable!() };
    let links = links_of::<O>(pool, top);
    let outer = height::<O>(pool, links.toward(side));
    let inner = links.toward(side.other());
    if height::<O>(pool, inner) <= outer {
        turn::<O>(pool, side, no, top, far);
        return top;
    }
    let Some(mid) = inner else { unreachable!() };
    turn_twice::<O>(pool, side, no, top, mid, far);
    mid
}

/// Puts a node over two subtrees whose heights differ by two at most, and tells what is on top then.
pub(crate) fn settle<O: Order>(
    pool: &mut SegPool<O::Node>,
    side: Side,
    no: NodeNo,
    near: Option<NodeNo>,
    far: Option<NodeNo>,
) -> NodeNo
    requires under { IsUnder O.rules pool.old near far no.0 }
    requires differ { DifferByAtMost 2 (stored_height O.rules pool.old near) (stored_height O.rules pool.old far) }
    requires low { (stored_height O.rules pool.old near < 255) × (stored_height O.rules pool.old far < 255) }
    ensures { Joins O.rules side pool.old pool.new near far no.0 (Some result) }
{
    let levels = height::<O>(pool, near);
    let others = height::<O>(pool, far);
    if levels > others + 1 {
        return lean::<O>(pool, side, no, near, far);
    }
    if others > levels + 1 {
        return lean::<O>(pool, side.other(), no, far, near);
    }
    join::<O>(pool, side, no, near, far);
    no
}

/// Puts a node over two subtrees again, of which the near one has changed below it. Where that tells the node what it told
/// before, the node's links are right as they are, and so are those of all nodes above.
pub(crate) fn resettle<O: Order>(
    pool: &mut SegPool<O::Node>,
    side: Side,
    no: NodeNo,
    before: Told,
    near: Option<NodeNo>,
    far: Option<NodeNo>,
) -> NodeNo
    requires under { IsUnder O.rules pool.old near far no.0 }
    requires over { IsOverBoth O.rules side pool.old no.0 before far }
    requires differ { DifferByAtMost 2 (stored_height O.rules pool.old near) (stored_height O.rules pool.old far) }
    requires low { (stored_height O.rules pool.old near < 255) × (stored_height O.rules pool.old far < 255) }
    ensures { Joins O.rules side pool.old pool.new near far no.0 (Some result) }
{
    if tell::<O>(pool, near).is_same(&before) {
        return no;
    }
    settle::<O>(pool, side, no, near, far)
}
