//! Thirteen trees over one pool.
ghost use Rattle.std.specs.Prelude.{◌≡◌, ℕ, ◌+◌, ◌*◌, ◌<◌, ◌≤◌, ◌≢◌, false, not, ◌&&◌, ◌||◌, IfSome, IfNone};
ghost use Rattle.zms_units.specs.declared.segments.Seg.{Seg};
ghost use Rattle.zms_units.specs.Segments.{covers, Covers};
ghost use Rattle.zms_units.specs.Runs.{IsBest, NoneFrom, IsFirstFrom};
ghost use Rattle.seg_trees.specs.Kept.{sets_of};
ghost use Rattle.seg_trees.specs.Sets.{nodes_of, HoldsAll, HoldsNone, IsSegment, OthersStayBut, TakesNone};
ghost use Rattle.range_tree.specs.Descents.{descent};
ghost use Rattle.range_tree.specs.Thirteen.{ChangesOne, LosesRun};

use crate::changing;
use crate::looking::{best, front, holder, largest, lowest};
use crate::node::RunNode;
use crate::seeking::first_from;
use crate::tree::Tree;
use seg_pool::SegPool;
use seg_trees::{SegTrees, Steps, TREES};
use std::alloc::{AllocError, Global};
use std::marker::Model;
use std::sync::ledger::Ledger;
use zms_units::{Histogram, Seg};

/// The form that costs the logarithm: each run of each tree is one node of a pool, linked into two balanced orders, by
/// place and by size.
///
/// `best`, `covers` and `meets` make one descent, `first_from` two, `add` and `remove` at most eight, and `steps` counts
/// each node that they visit. `largest`, `units`, `nodes` and `histogram` are kept up to date, and visit the root at most.
/// `swap` exchanges two roots. `clear` makes two descents for each run that leaves, and `vacate` ten at most, since each
/// node is given back before the next is taken. `xor_into` makes ten at most for each stretch of its segment that is alike
/// in both trees: at most one more than twice the runs of both that it meets.
#[derive(Drop)]
pub struct RangeTrees {
    pool: SegPool<RunNode>,
    trees: [Tree; TREES as usize],
}

impl Model for RangeTrees {
    ghost use Rattle.std.specs.Prelude.{map};
    ghost use Rattle.seg_trees.specs.Kept.{TreeLists};
    ghost use Rattle.range_tree.specs.Kept.{runs_of};
    ghost use Rattle.range_tree.specs.Thirteen.{AreTrees};

    ghost Value = { TreeLists };

    ghost view = { λ t. record { lists = map (runs_of t.pool) t.trees; spare = t.pool.spare } };

    ghost invariant = { λ t. AreTrees t.pool t.trees };
}

/// Counts so many visits.
fn count<L: Ledger>(visits: u32, steps: &mut Steps<L>)
    ensures { steps.new ≡ steps.old + visits }
{
    for _ in 0..visits {
        steps.tick();
    }
}

impl RangeTrees {
    /// Adds a segment that meets nothing in a tree, and tells how many nodes were visited.
    fn put(&mut self, tree: u8, seg: Seg) -> u32
        requires tree { tree < TREES }
        requires segment { IsSegment seg }
        requires apart { HoldsNone (sets_of self.old.lists tree) seg }
        requires spare { 1 ≤ self.old.spare }
        ensures added { (u : ℕ) → sets_of self.new.lists tree u ≡ (covers seg u || sets_of self.old.lists tree u) }
        ensures changes { ChangesOne self.old self.new tree }
        ensures spare { self.old.spare ≤ self.new.spare + 1 }
        ensures visits { result ≤ 8 * descent (nodes_of (sets_of self.old.lists tree)) }
    {
        changing::add(&mut self.pool, &mut self.trees[tree as usize], seg)
    }

    /// Takes a segment away that a tree covers, and tells how many nodes were visited.
    fn take(&mut self, tree: u8, seg: Seg) -> u32
        requires tree { tree < TREES }
        requires segment { IsSegment seg }
        requires covered { HoldsAll (sets_of self.old.lists tree) seg }
        requires spare { 1 ≤ self.old.spare }
        ensures removed { (u : ℕ) → sets_of self.new.lists tree u ≡ (not (covers seg u) && sets_of self.old.lists tree u) }
        ensures changes { ChangesOne self.old self.new tree }
        ensures spare { self.old.spare ≤ self.new.spare + 1 }
        ensures visits { result ≤ 8 * descent (nodes_of (sets_of self.old.lists tree)) }
    {
        changing::remove(&mut self.pool, &mut self.trees[tree as usize], seg)
    }

    /// Takes the run on top of a tree out, where there is one. Its node is spare then.
    fn take_run(&mut self, tree: u8) -> Option<Seg>
        requires { tree < TREES }
        ensures some { IfSome result (LosesRun self.old self.new tree) }
        ensures none { IfNone result ((u : ℕ) → sets_of self.old.lists tree u ≡ false) }
        ensures stays { IfNone result (self.new ≡ self.old) }
    {
        if self.nodes(tree) == 0 {
            return None;
        }
        Some(self.trees[tree as usize].take_top(&mut self.pool))
    }

    /// How many units at the front of a segment are all in a tree, or all not, and which of the two.
    fn front(&self, tree: u8, seg: Seg) -> (u32, bool)
        requires tree { tree < TREES }
        requires segment { IsSegment seg }
        ensures some { 0 < result.0 }
        ensures within { result.0 ≤ seg.count }
        ensures alike { (u : ℕ) → Covers (record { start = seg.start; count = result.0 }) u → sets_of self.now.lists tree u ≡ result.1 }
    {
        front(&self.pool, &self.trees[tree as usize], seg)
    }

    /// Adds the units at the front of a segment that are all in a tree already, or all not, and tells how many they are.
    fn put_front(&mut self, tree: u8, seg: Seg) -> u32
        requires tree { tree < TREES }
        requires segment { IsSegment seg }
        requires spare { 1 ≤ self.old.spare }
        ensures some { 0 < result }
        ensures within { result ≤ seg.count }
        ensures added { (u : ℕ) → sets_of self.new.lists tree u ≡ (covers (record { start = seg.start; count = result }) u || sets_of self.old.lists tree u) }
        ensures changes { ChangesOne self.old self.new tree }
        ensures spare { self.old.spare ≤ self.new.spare + 1 }
    {
        let (count, held) = self.front(tree, seg);
        if !held {
            let missing = Seg {
                start: seg.start,
                count,
            };
            self.put(tree, missing);
        }
        count
    }

    /// The step of `xor_into` for some units at the front of a segment: how many they are.
    fn xor_front(&mut self, seg: Seg, from: u8, into: u8) -> u32
        requires trees { (from < TREES) × (into < TREES) }
        requires differ { from ≢ into }
        requires segment { IsSegment seg }
        requires spare { 1 ≤ self.old.spare }
        ensures some { 0 < result }
        ensures within { result ≤ seg.count }
        ensures from { (u : ℕ) → sets_of self.new.lists from u ≡ (not (covers (record { start = seg.start; count = result }) u) && sets_of self.old.lists from u) }
        ensures into { (u : ℕ) → sets_of self.new.lists into u ≡ ((covers (record { start = seg.start; count = result }) u && not (sets_of self.old.lists from u)) || sets_of self.old.lists into u) }
        ensures others { OthersStayBut (sets_of self.old.lists) (sets_of self.new.lists) from into }
        ensures spare { self.old.spare ≤ self.new.spare + 1 }
        ensures memory { TakesNone self.old.spare (sets_of self.old.lists) self.new.spare (sets_of self.new.lists) }
    {
        let (count, held) = self.front(from, seg);
        let part = Seg {
            start: seg.start,
            count,
        };
        if !held {
            return self.put_front(into, part);
        }
        self.take(from, part);
        count
    }
}

impl SegTrees for RangeTrees {
    ghost set = { λ t tree u. sets_of t.lists tree u };

    ghost spare = { λ t. t.spare };

    ghost descent = { λ nodes. descent nodes };

    fn new(alloc: Global) -> Self {
        RangeTrees {
            pool: SegPool::new(alloc),
            trees: std::array::from_fn(|_| Tree::new()),
        }
    }

    fn reserve(&mut self, n: u32) -> Result<(), AllocError> {
        self.pool.reserve(n)
    }

    fn spare(&self) -> u32 {
        self.pool.spare()
    }

    fn add<L: Ledger>(&mut self, tree: u8, seg: Seg, steps: &mut Steps<L>) {
        let visits = self.put(tree, seg);
        count(visits, steps);
    }

    fn remove<L: Ledger>(&mut self, tree: u8, seg: Seg, steps: &mut Steps<L>) {
        let visits = self.take(tree, seg);
        count(visits, steps);
    }

    fn covers<L: Ledger>(&self, tree: u8, seg: Seg, steps: &mut Steps<L>) -> bool {
        let (found, visits) = holder(&self.pool, &self.trees[tree as usize], seg);
        count(visits, steps);
        found.is_some()
    }

    fn meets<L: Ledger>(&self, tree: u8, seg: Seg, steps: &mut Steps<L>) -> Option<u32> {
        let (found, visits) = lowest(&self.pool, &self.trees[tree as usize], seg);
        count(visits, steps);
        found
    }

    fn first_from<L: Ledger>(
        &self,
        tree: u8,
        count: u32,
        at: u32,
        steps: &mut Steps<L>,
    ) -> Option<Seg> {
        let (found, visits) = first_from(&self.pool, &self.trees[tree as usize], count, at);
        self::count(visits, steps);
        found
    }

    fn best<L: Ledger>(&self, tree: u8, count: u32, steps: &mut Steps<L>) -> Option<Seg> {
        let (found, visits) = best(&self.pool, &self.trees[tree as usize], count);
        self::count(visits, steps);
        found
    }

    fn largest(&self, tree: u8) -> u32 {
        largest(&self.pool, &self.trees[tree as usize])
    }

    fn swap(&mut self, first: u8, second: u8) {
        self.trees.swap(first as usize, second as usize);
    }

    fn vacate(&mut self, from: u8, into: u8) {
        while let Some(run) = self.take_run(from) {
            self.put(into, run);
        }
    }

    fn clear(&mut self, tree: u8) {
        while let Some(_) = self.take_run(tree) {}
    }

    fn xor_into(&mut self, seg: Seg, from: u8, into: u8) {
        let end = seg.start + seg.count;
        let mut at = seg.start;
        while at < end {
            let rest = Seg {
                start: at,
                count: end - at,
            };
            at += self.xor_front(rest, from, into);
        }
    }

    fn units(&self, tree: u8) -> u32 {
        self.trees[tree as usize].units()
    }

    fn nodes(&self, tree: u8) -> u32 {
        self.trees[tree as usize].nodes()
    }

    fn histogram(&self, tree: u8, ashift: u8) -> Histogram {
        self.trees[tree as usize].histogram(ashift)
    }
}
