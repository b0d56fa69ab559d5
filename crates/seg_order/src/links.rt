//! The links of a node, and what a pool says of them.
ghost use Rattle.std.specs.Prelude.{◌≡◌, true, ◌^◌, ◌≤◌, IsSome, length};
ghost use Rattle.seg_pool.specs.Pool.{node_at};
ghost use Rattle.seg_order.specs.Sides.{other, toward};
ghost use Rattle.seg_order.specs.Trees.{links_at, stored_height, stored_greatest, IsPlace, IsInUse};

use crate::Order;
use seg_pool::{NodeNo, SegPool};

/// A node's place in one order: what hangs below it on both sides, how many levels its subtree has, itself included, and
/// the greatest span of its subtree.
#[derive(Debug, Clone, Copy, PartialEq, Eq, Drop)]
pub struct Links {
    pub left: Option<NodeNo>,
    pub right: Option<NodeNo>,
    pub height: u8,
    pub greatest: u32,
}

/// What comes before a node, or after it.
#[derive(Debug, Clone, Copy, PartialEq, Eq, Drop)]
pub enum Side {
    Left,
    Right,
}

impl Side {
    pub fn other(self) -> Side
        ensures { result ≡ other self }
    {
        match self {
            Side::Left => Side::Right,
            Side::Right => Side::Left,
        }
    }
}

impl Links {
    /// What hangs on a side.
    pub fn toward(&self, side: Side) -> Option<NodeNo>
        ensures { result ≡ toward side self.now }
    {
        match side {
            Side::Left => self.left,
            Side::Right => self.right,
        }
    }
}

/// The links of a node in use.
pub(crate) fn links_of<O: Order>(pool: &SegPool<O::Node>, no: NodeNo) -> Links
    requires { IsSome (node_at pool.now no.0) }
    ensures links { result ≡ links_at O.rules pool.now no.0 }
    ensures places { length pool.now.nodes ≤ 2 ^ 24 }
{
    O::links(pool.node(no))
}

/// How many levels a subtree has.
pub(crate) fn height<O: Order>(pool: &SegPool<O::Node>, root: Option<NodeNo>) -> u8
    requires { IsInUse pool.now root }
    ensures height { result ≡ stored_height O.rules pool.now root }
    ensures place { IsPlace root }
{
    match root {
        Some(at) => links_of::<O>(pool, at).height,
        None => 0,
    }
}

/// What a subtree tells the node above it.
#[derive(Debug, Clone, Copy, Drop)]
pub(crate) struct Told {
    pub(crate) root: Option<NodeNo>,
    pub(crate) height: u8,
    pub(crate) greatest: u32,
}

/// What a subtree tells the node above it now.
pub(crate) fn tell<O: Order>(pool: &SegPool<O::Node>, root: Option<NodeNo>) -> Told
    requires { IsInUse pool.now root }
    ensures root { result.root ≡ root }
    ensures height { result.height ≡ stored_height O.rules pool.now root }
    ensures greatest { result.greatest ≡ stored_greatest O.rules pool.now root }
{
    Told {
        root,
        height: height::<O>(pool, root),
        greatest: greatest::<O>(pool, root),
    }
}

fn is_same_root(first: Option<NodeNo>, second: Option<NodeNo>) -> bool
    ensures { result ≡ true → first ≡ second }
{
    match (first, second) {
        (Some(first), Some(second)) => first.0 == second.0,
        (None, None) => true,
        _ => false,
    }
}

impl Told {
    /// Whether the node above is told the same.
    pub(crate) fn is_same(&self, before: &Told) -> bool
        ensures root { result ≡ true → self.now.root ≡ before.now.root }
        ensures height { result ≡ true → self.now.height ≡ before.now.height }
        ensures greatest { result ≡ true → self.now.greatest ≡ before.now.greatest }
    {
        is_same_root(self.root, before.root)
            && self.height == before.height
            && self.greatest == before.greatest
    }
}

/// The greatest span of a subtree.
pub(crate) fn greatest<O: Order>(pool: &SegPool<O::Node>, root: Option<NodeNo>) -> u32
    requires { IsInUse pool.now root }
    ensures { result ≡ stored_greatest O.rules pool.now root }
{
    match root {
        Some(at) => links_of::<O>(pool, at).greatest,
        None => 0,
    }
}
