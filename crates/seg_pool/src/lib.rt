//! Nodes that are taken in advance, each at a place that it keeps until it is given back.
//!
//! To the layer above a pool is a list of optional nodes, by place, and a number, `spare`: how many nodes can be taken
//! without memory. `reserve` alone takes memory. A tree over a pool names its nodes by their places, so no call that
//! changes a tree moves another node.
#![tactic(auto)]

ghost use Rattle.std.specs.Prelude.{◌≡◌, ℕ, ◌+◌, ◌-◌, ◌^◌, ◌<◌, ◌≤◌, [], Some, None, IsSome, OnOk, length, slice_set, vec_len};
ghost use Rattle.std.specs.Vec.{vec_capacity};
ghost use Rattle.std.specs.Borrow.{Lends, sem};
ghost use Rattle.seg_pool.specs.Pool.{node_at, used, SameNodes};
ghost use Rattle.seg_pool.specs.Slots.{IsSound, SameSlots};

mod slot;

use crate::slot::Slot;
use std::alloc::{AllocError, Global};
use std::marker::Model;
use std::mem;

/// The place of a node in a pool.
#[derive(Debug, Clone, Copy, PartialEq, Eq, Drop)]
pub struct NodeNo(pub u32);

// Names no place: the last vacant place is followed by it.
const NOWHERE: u32 = u32::MAX;

/// Nodes at numbered places.
///
/// Vacant places are linked into a list, so `take` and `give` look at one place each.
#[derive(Debug, Drop)]
pub struct SegPool<N> {
    slots: Vec<Slot<N>>,
    // The first vacant place, `NOWHERE` where there is none.
    head: u32,
    // How many places are vacant.
    spare: u32,
}

impl<N> Model for SegPool<N> {
    ghost use Rattle.std.specs.Prelude.{map};
    ghost use Rattle.seg_pool.specs.Pool.{Pool, pool_code};

    ghost Value = { Pool N };

    ghost coded = { pool_code N.code };

    ghost use Rattle.seg_pool.specs.Slots.{node_of, IsSound};

    ghost view = { λ p. record { nodes = map node_of p.slots.items; spare = p.spare } };

    ghost invariant = { λ p. IsSound p.slots.items p.spare p.head };
}

/// Links so many vacant places more into the list, and tells its first then. There is memory for them.
fn link_vacant<N>(slots: &mut Vec<Slot<N>>, spare: u32, head: u32, more: u32) -> u32
    requires sound { IsSound slots.old.items spare head }
    requires fits { vec_len slots.old + more ≤ 2 ^ 24 }
    requires room { vec_len slots.old + more ≤ vec_capacity slots.old }
    ensures sound { IsSound slots.new.items (spare + more) result }
    ensures nodes { SameSlots slots.old.items slots.new.items }
{
    let mut first = head;
    for _ in 0..more {
        let place = slots.len() as u32;
        slots.push_reserved(Slot::Vacant(first));
        first = place;
    }
    first
}

impl<N: Copy> SegPool<N> {
    ghost use Rattle.seg_pool.specs.Lends.{lends_node};

    /// A pool without places, which takes no memory.
    pub fn new(alloc: Global) -> Self
        ensures { result ≡ record { nodes = []; spare = 0 } }
    {
        SegPool {
            slots: Vec::new(alloc),
            head: NOWHERE,
            spare: 0,
        }
    }

    /// Takes memory, so that at least `n` nodes can be taken without any. After an error no node has changed.
    pub fn reserve(&mut self, n: u32) -> Result<(), AllocError>
        requires { used self.old + n ≤ 2 ^ 24 }
        ensures enough { OnOk result (n ≤ self.new.spare) }
        ensures spare { self.old.spare ≤ self.new.spare }
        ensures nodes { SameNodes self.old self.new }
    {
        let more = n.saturating_sub(self.spare);
        self.slots.reserve(more as usize)?;
        self.head = link_vacant(&mut self.slots, self.spare, self.head, more);
        self.spare += more;
        Ok(())
    }

    /// Puts a node into a vacant place.
    pub fn take(&mut self, node: N) -> NodeNo
        requires { 1 ≤ self.old.spare }
        ensures vacant { node_at self.old result.0 ≡ None }
        ensures place { result.0 < length self.old.nodes }
        ensures taken { self.new ≡ record { nodes = slice_set self.old.nodes result.0 (Some node); spare = self.old.spare - 1 } }
    {
        let no = self.head;
        match mem::replace(&mut self.slots[no as usize], Slot::Used(node)) {
            Slot::Vacant(next) => self.head = next,
            Slot::Used(_) => unreachable!(),
        }
        self.spare -= 1;
        NodeNo(no)
    }

    /// Gives a node back: its place is vacant then.
    pub fn give(&mut self, no: NodeNo) -> N
        requires { IsSome (node_at self.old no.0) }
        ensures node { node_at self.old no.0 ≡ Some result }
        ensures given { self.new ≡ record { nodes = slice_set self.old.nodes no.0 None; spare = self.old.spare + 1 } }
    {
        let vacant = Slot::Vacant(self.head);
        match mem::replace(&mut self.slots[no.0 as usize], vacant) {
            Slot::Used(node) => {
                self.head = no.0;
                self.spare += 1;
                node
            }
            Slot::Vacant(_) => unreachable!(),
        }
    }

    /// The node at a place.
    pub fn node(&self, no: NodeNo) -> &N
        requires { IsSome (node_at self.now no.0) }
        ensures node { node_at self.now no.0 ≡ Some result.now }
        ensures places { length self.now.nodes ≤ 2 ^ 24 }
    {
        match &self.slots[no.0 as usize] {
            Slot::Used(node) => node,
            Slot::Vacant(_) => unreachable!(),
        }
    }

    /// The node at a place, for writing.
    pub fn node_mut(&mut self, no: NodeNo) -> &mut N
        requires { IsSome (node_at self.old no.0) }
        ensures* lends { sem 𝓛 (lends_node N.row self.entry no.0 result) }
        ensures node { node_at self.old no.0 ≡ Some result.now }
    {
        self.slots[no.0 as usize].node_mut()
    }

    /// How many nodes can be taken without memory.
    pub fn spare(&self) -> u32
        ensures { result ≡ self.now.spare }
    {
        self.spare
    }
}
