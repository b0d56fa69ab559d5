//! The calls of an order.
ghost use Rattle.std.specs.Prelude.{◌≡◌, ◌≤◌, ◌<◌, None, Some, IsSome, length, MatchOption};
ghost use Rattle.std.specs.List.{Contains};
ghost use Rattle.seg_pool.specs.Pool.{node_at};
ghost use Rattle.seg_order.specs.Rules.{Rules, IsLawful};
ghost use Rattle.seg_order.specs.Trees.{nodes_from, Differs, IsPlace, IsOver, FewVisits};
ghost use Rattle.seg_order.specs.Lists.{PutIn};
ghost use Rattle.seg_order.specs.Changes.{OnlyLinks};
ghost use Rattle.seg_order.specs.Looks.{IsFirstFrom, IsFirst};

use crate::Links;
use crate::links::links_of;
use crate::lowering::remove_below;
use crate::raising::insert_below;
use seg_pool::{NodeNo, SegPool};
use std::marker::PhantomData;

/// By what the nodes of a pool are ordered, and where the links of this order lie in a node.
pub trait Order {
    type Node: Copy;

    // What the functions say, and what writing the links leaves.
    ghost rules: { Rules Self.Node };

    /// Does one node come before another?
    fn before(first: &Self::Node, second: &Self::Node) -> bool
        ensures { result ≡ rules.before first.now second.now };

    /// The number of a node whose greatest in each subtree is kept.
    fn span(node: &Self::Node) -> u32
        ensures { result ≡ rules.span node.now };

    fn links(node: &Self::Node) -> Links
        ensures { result ≡ rules.links node.now };

    /// Writes the links of this order, and nothing else.
    fn set_links(node: &mut Self::Node, links: Links)
        requires left { IsPlace links.left }
        requires right { IsPlace links.right }
        ensures { node.new ≡ rules.with_links node.old links };

    ghost lawful: { IsLawful rules };
}

/// The nodes of a pool that are linked into one order.
///
/// Each call takes the pool in which they lie, and has the condition that the order stands over it (`IsOver`): the links
/// are a balanced tree from the root, each node's `height` and `greatest` are those of its subtree, and the nodes are
/// sorted. A new order stands over each pool, with no node.
#[derive(Drop)]
pub struct SegOrder<O> {
    root: Option<NodeNo>,
    order: PhantomData<O>,
}

impl<O: Order> SegOrder<O> {
    pub fn new() -> Self
        ensures { result.root ≡ None }
    {
        SegOrder {
            root: None,
            order: PhantomData,
        }
    }

    /// The node on top of the tree, none exactly where no node is listed. Its links lead down: those on its left come
    /// before it, and those on its right after it.
    pub fn root(&self) -> Option<NodeNo>
        ensures { result ≡ self.now.root }
    {
        self.root
    }

    /// Puts a node in, and tells how many nodes its descent visited.
    pub fn insert(&mut self, pool: &mut SegPool<O::Node>, no: NodeNo) -> u32
        requires over { IsOver O.rules pool.old self.old.root }
        requires node { IsSome (node_at pool.old no.0) }
        requires differs { Differs O.rules pool.old no.0 (nodes_from O.rules pool.old self.old.root) }
        ensures over { IsOver O.rules pool.new self.new.root }
        ensures put { PutIn (nodes_from O.rules pool.old self.old.root) no.0 (nodes_from O.rules pool.new self.new.root) }
        ensures links { OnlyLinks O.rules pool.old pool.new (nodes_from O.rules pool.new self.new.root) }
        ensures visits { FewVisits result (length (nodes_from O.rules pool.old self.old.root)) }
    {
        let (top, visits) = insert_below::<O>(pool, self.root, no);
        self.root = Some(top);
        visits
    }

    /// Takes a node out, and tells how many nodes its descent visited. The node stays in the pool.
    pub fn remove(&mut self, pool: &mut SegPool<O::Node>, no: NodeNo) -> u32
        requires over { IsOver O.rules pool.old self.old.root }
        requires listed { Contains (nodes_from O.rules pool.old self.old.root) no.0 }
        ensures over { IsOver O.rules pool.new self.new.root }
        ensures put { PutIn (nodes_from O.rules pool.new self.new.root) no.0 (nodes_from O.rules pool.old self.old.root) }
        ensures links { OnlyLinks O.rules pool.old pool.new (nodes_from O.rules pool.old self.old.root) }
        ensures visits { FewVisits result (length (nodes_from O.rules pool.old self.old.root)) }
    {
        let Some(top) = self.root else { unreachable!() };
        let (rest, visits) = remove_below::<O>(pool, top, no);
        self.root = rest;
        visits
    }

    /// The first node that is not before the key, and how many nodes its descent visited.
    pub fn first_at_or_after(&self, pool: &SegPool<O::Node>, key: &O::Node) -> (Option<NodeNo>, u32)
        requires { IsOver O.rules pool.now self.now.root }
        ensures first { IsFirstFrom O.rules pool.now key.now (nodes_from O.rules pool.now self.now.root) result.0 }
        ensures visits { FewVisits result.1 (length (nodes_from O.rules pool.now self.now.root)) }
    {
        let mut found = None;
        let mut below = self.root;
        let mut visits = 0;
        while let Some(at) = below {
            let links = links_of::<O>(pool, at);
            visits += 1;
            if O::before(pool.node(at), key) {
                below = links.right;
            } else {
                found = Some(at);
                below = links.left;
            }
        }
        (found, visits)
    }

    /// The first node of all, and how many nodes its descent visited.
    pub fn least(&self, pool: &SegPool<O::Node>) -> (Option<NodeNo>, u32)
        requires { IsOver O.rules pool.now self.now.root }
        ensures first { IsFirst (nodes_from O.rules pool.now self.now.root) result.0 }
        ensures visits { FewVisits result.1 (length (nodes_from O.rules pool.now self.now.root)) }
    {
        let mut found = None;
        let mut below = self.root;
        let mut visits = 0;
        while let Some(at) = below {
            let links = links_of::<O>(pool, at);
            visits += 1;
            found = Some(at);
            below = links.left;
        }
        (found, visits)
    }
}
