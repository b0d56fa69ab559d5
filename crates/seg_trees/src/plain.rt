ghost use Rattle.std.specs.Prelude.{◌≡◌, ℕ, ◌+◌, ◌-◌, ◌^◌, ◌<◌, ◌≤◌, ◌≢◌, not, ◌&&◌, ◌||◌, length, slice_index_or, slice_set, OnOk};
ghost use Rattle.std.specs.List.{All};
ghost use Rattle.zms_units.specs.declared.segments.Seg.{Seg};
ghost use Rattle.zms_units.specs.Segments.{covers, covered};
ghost use Rattle.seg_trees.specs.Sets.{nodes_of, IsSegment, AreDisjoint, OthersStayBut, TakesNone};
ghost use Rattle.seg_trees.specs.OneSet.{OneSet, IsWhole};
ghost use Rattle.seg_trees.specs.Kept.{sets_of, lists_of, runs_in};

use crate::run_vec::RunVec;
use crate::{SegTrees, Steps, TREES};
use std::alloc::{AllocError, Global};
use std::marker::Model;
use std::mem;
use std::sync::ledger::Ledger;
use zms_units::{Histogram, Seg};

/// The plain form: each tree is a vector of its maximal runs by rising start, with room for all runs in use and spare.
///
/// Searches by place are binary. `best` and `largest` look at each run of the tree, `add` and `remove` move those behind
/// the place, and `vacate` goes once through both trees. Steps stay as they were.
#[derive(Debug, Drop)]
pub struct PlainTrees {
    trees: [RunVec; TREES as usize],
    // What `vacate` writes the merged runs into.
    buffer: RunVec,
    // For how many runs each tree and the buffer have memory.
    limit: u32,
}

impl Model for PlainTrees {
    ghost use Rattle.std.specs.Prelude.{◌-◌};
    ghost use Rattle.seg_trees.specs.Kept.{TreeLists, HasRoom, lists_of, runs_in};

    ghost Value = { TreeLists };

    ghost view = { λ p. record { lists = lists_of p.trees; spare = p.limit - runs_in p.trees } };

    ghost invariant = { λ p. HasRoom p.trees p.buffer p.limit };
}

/// How many runs trees have together.
fn total(trees: &[RunVec]) -> u32
    requires { runs_in trees.now ≤ 2 ^ 24 }
    ensures sum { result ≡ runs_in trees.now }
    ensures nodes { All IsWhole trees.now }
{
    let mut count = 0;
    for tree in trees {
        count += tree.nodes() as u32;
    }
    count
}

/// Takes memory for so many runs in each tree.
fn reserve_each(trees: &mut [RunVec], runs: u32) -> Result<(), AllocError>
    ensures ok { OnOk result (All (λ (t : OneSet). runs ≤ t.capacity) trees.new) }
    ensures lists { lists_of trees.new ≡ lists_of trees.old }
    ensures capacity { (least : ℕ) → All (λ (t : OneSet). least ≤ t.capacity) trees.old → All (λ (t : OneSet). least ≤ t.capacity) trees.new }
{
    for tree in trees.iter_mut() {
        tree.reserve(runs)?;
    }
    Ok(())
}

/// Writes the runs of two trees that share no unit into another.
fn merge_two(trees: &[RunVec], from: usize, into: usize, out: &mut RunVec)
    requires from { from < length trees.now }
    requires into { into < length trees.now }
    requires differ { from ≢ into }
    requires disjoint { AreDisjoint (sets_of (lists_of trees.now) from) (sets_of (lists_of trees.now) into) }
    requires room { runs_in trees.now ≤ out.old.capacity }
    ensures set { (u : ℕ) → covered out.new.runs u ≡ (sets_of (lists_of trees.now) from u || sets_of (lists_of trees.now) into u) }
    ensures nodes { (d : OneSet) → length out.new.runs ≤ length (slice_index_or trees.now from d).runs + length (slice_index_or trees.now into d).runs }
    ensures whole { IsWhole out.new }
    ensures capacity { out.new.capacity ≡ out.old.capacity }
{
    out.merge(&trees[from], &trees[into]);
}

/// Exchanges a tree with one that stands apart.
fn exchange(trees: &mut [RunVec], index: usize, other: &mut RunVec)
    requires { index < length trees.old }
    ensures trees { trees.new ≡ slice_set trees.old index other.old }
    ensures other { other.new ≡ slice_index_or trees.old index other.new }
{
    mem::swap(&mut trees[index], other);
}

impl SegTrees for PlainTrees {
    ghost set = { λ p tree u. sets_of p.lists tree u };

    ghost spare = { λ p. p.spare };

    ghost descent = { λ _. 0 };

    fn new(alloc: Global) -> Self {
        PlainTrees {
            trees: std::array::from_fn(|_| RunVec::new(alloc)),
            buffer: RunVec::new(alloc),
            limit: 0,
        }
    }

    fn reserve(&mut self, n: u32) -> Result<(), AllocError> {
        let limit = self.limit.max(total(&self.trees) + n);
        reserve_each(&mut self.trees, limit)?;
        self.buffer.reserve(limit)?;
        self.limit = limit;
        Ok(())
    }

    fn spare(&self) -> u32 {
        self.limit - total(&self.trees)
    }

    fn add<L: Ledger>(&mut self, tree: u8, seg: Seg, _steps: &mut Steps<L>) {
        self.trees[tree as usize].add(seg);
    }

    fn remove<L: Ledger>(&mut self, tree: u8, seg: Seg, _steps: &mut Steps<L>) {
        self.trees[tree as usize].remove(seg);
    }

    fn covers<L: Ledger>(&self, tree: u8, seg: Seg, _steps: &mut Steps<L>) -> bool {
        self.trees[tree as usize].covers(seg)
    }

    fn meets<L: Ledger>(&self, tree: u8, seg: Seg, _steps: &mut Steps<L>) -> Option<u32> {
        self.trees[tree as usize].meets(seg)
    }

    fn first_from<L: Ledger>(
        &self,
        tree: u8,
        count: u32,
        at: u32,
        _steps: &mut Steps<L>,
    ) -> Option<Seg> {
        self.trees[tree as usize].first_from(count, at)
    }

    fn best<L: Ledger>(&self, tree: u8, count: u32, _steps: &mut Steps<L>) -> Option<Seg> {
        self.trees[tree as usize].best(count)
    }

    fn largest(&self, tree: u8) -> u32 {
        self.trees[tree as usize].largest()
    }

    fn swap(&mut self, first: u8, second: u8) {
        self.trees.swap(first as usize, second as usize);
    }

    fn vacate(&mut self, from: u8, into: u8) {
        let (from, into) = (from as usize, into as usize);
        merge_two(&self.trees, from, into, &mut self.buffer);
        exchange(&mut self.trees, into, &mut self.buffer);
        self.trees[from].clear();
    }

    fn clear(&mut self, tree: u8) {
        self.trees[tree as usize].clear();
    }

    fn xor_into(&mut self, seg: Seg, from: u8, into: u8) {
        let end = seg.start + seg.count;
        let mut at = seg.start;
        while at < end {
            let rest = Seg {
                start: at,
                count: end - at,
            };
            at += self.xor_front(rest, from, into);
        }
    }

    fn units(&self, tree: u8) -> u32 {
        self.trees[tree as usize].units()
    }

    fn nodes(&self, tree: u8) -> u32 {
        self.trees[tree as usize].nodes() as u32
    }

    fn histogram(&self, tree: u8, ashift: u8) -> Histogram {
        self.trees[tree as usize].histogram(ashift)
    }
}

impl PlainTrees {
    /// The step of `xor_into` for the units at the front of a segment that are all in `from`, or all not: how many they
    /// are.
    fn xor_front(&mut self, seg: Seg, from: u8, into: u8) -> u32
        requires trees { (from < TREES) × (into < TREES) }
        requires differ { from ≢ into }
        requires segment { IsSegment seg }
        requires spare { 1 ≤ self.old.spare }
        ensures some { 0 < result }
        ensures within { result ≤ seg.count }
        ensures from { (u : ℕ) → sets_of self.new.lists from u ≡ (not (covers (record { start = seg.start; count = result }) u) && sets_of self.old.lists from u) }
        ensures into { (u : ℕ) → sets_of self.new.lists into u ≡ ((covers (record { start = seg.start; count = result }) u && not (sets_of self.old.lists from u)) || sets_of self.old.lists into u) }
        ensures others { OthersStayBut (sets_of self.old.lists) (sets_of self.new.lists) from into }
        ensures spare { self.old.spare ≤ self.new.spare + 1 }
        ensures memory { TakesNone self.old.spare (sets_of self.old.lists) self.new.spare (sets_of self.new.lists) }
    {
        let (count, held) = self.trees[from as usize].front(seg);
        let front = Seg {
            start: seg.start,
            count,
        };
        if held {
            self.trees[from as usize].remove(front);
        } else {
            self.trees[into as usize].add(front);
        }
        count
    }
}
