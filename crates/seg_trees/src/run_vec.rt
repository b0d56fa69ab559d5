ghost use Rattle.std.specs.Prelude.{◌≡◌, ℕ, ◌+◌, ◌<◌, ◌≤◌, ◌↔◌, false, not, ◌&&◌, ◌||◌, length, IsTrue, OnOk, IfSome, IfNone};
ghost use Rattle.std.specs.Vec.{vec_capacity};
ghost use Rattle.zms_units.specs.declared.segments.Seg.{Seg};
ghost use Rattle.zms_units.specs.Segments.{covers, covered, Covers};
ghost use Rattle.zms_units.specs.Apart.{AreApartFrom};
ghost use Rattle.zms_units.specs.Limits.{IsShift};
ghost use Rattle.zms_units.specs.Weights.{IsHistogramOf};
ghost use Rattle.zms_units.specs.Runs.{IsFirstFrom, NoneFrom, IsBest, IsLargest};
ghost use Rattle.seg_trees.specs.OneSet.{IsWhole};
ghost use Rattle.seg_trees.specs.Sets.{HoldsAll, HoldsNone, IsLowest, IsSegment, AreDisjoint, size_of, nodes_of};

use crate::runs::{carve, first_after, front_of, histogram_of, holder, join, lowest, merge};
use std::alloc::{AllocError, Global};
use std::marker::Model;
use zms_units::{FreeRuns, Histogram, MAX_UNITS, PlainRuns, Seg, unit_count};

/// One tree: a set of units, as the vector of its maximal runs, by rising start.
#[derive(Debug, Drop)]
pub(crate) struct RunVec {
    runs: Vec<Seg>,
}

impl Model for RunVec {
    ghost use Rattle.std.specs.Prelude.{◌+◌};
    ghost use Rattle.std.specs.Vec.{vec_capacity};
    ghost use Rattle.zms_units.specs.Apart.{AreApartFrom};
    ghost use Rattle.zms_units.specs.Limits.{MAX_UNITS};
    ghost use Rattle.seg_trees.specs.OneSet.{OneSet};

    ghost Value = { OneSet };

    ghost view = { λ v. record { runs = v.runs.items; capacity = vec_capacity v.runs } };

    ghost invariant = { λ v. AreApartFrom 0 (MAX_UNITS + 1) v.runs.items };
}

impl RunVec {
    /// An empty tree, which takes no memory.
    pub(crate) fn new(alloc: Global) -> Self
        ensures set { (u : ℕ) → covered result.runs u ≡ false }
        ensures nodes { length result.runs ≡ 0 }
    {
        RunVec {
            runs: Vec::new(alloc),
        }
    }

    /// Takes memory for so many runs in all.
    pub(crate) fn reserve(&mut self, runs: u32) -> Result<(), AllocError>
        ensures ok { OnOk result (runs ≤ self.new.capacity) }
        ensures capacity { self.old.capacity ≤ self.new.capacity }
        ensures runs { self.new.runs ≡ self.old.runs }
    {
        let more = (runs as usize).saturating_sub(self.runs.len());
        self.runs.reserve(more)
    }

    /// How many runs there are.
    pub(crate) fn nodes(&self) -> usize
        ensures nodes { result ≡ length self.now.runs }
        ensures set { result ≡ nodes_of (covered self.now.runs) }
    {
        self.runs.len()
    }

    /// How many units there are.
    pub(crate) fn units(&self) -> u32
        ensures { result ≡ size_of (covered self.now.runs) }
    {
        unit_count(&self.runs)
    }

    pub(crate) fn covers(&self, seg: Seg) -> bool
        requires { IsSegment seg }
        ensures { IsTrue result ↔ HoldsAll (covered self.now.runs) seg }
    {
        holder(&self.runs, seg).is_some()
    }

    pub(crate) fn meets(&self, seg: Seg) -> Option<u32>
        requires { IsSegment seg }
        ensures lowest { IfSome result (IsLowest (covered self.now.runs) seg) }
        ensures none { IfNone result (HoldsNone (covered self.now.runs) seg) }
    {
        lowest(&self.runs, seg)
    }

    pub(crate) fn first_from(&self, count: u32, at: u32) -> Option<Seg>
        ensures first { IfSome result (IsFirstFrom (covered self.now.runs) MAX_UNITS count at) }
        ensures none { IfNone result (NoneFrom (covered self.now.runs) MAX_UNITS count at) }
    {
        first_after(&self.runs, count, at)
    }

    /// Adds the units of a segment. Those that are there already stay.
    pub(crate) fn add(&mut self, seg: Seg)
        requires segment { IsSegment seg }
        requires room { length self.old.runs < self.old.capacity }
        ensures set { (u : ℕ) → covered self.new.runs u ≡ (covers seg u || covered self.old.runs u) }
        ensures nodes { length self.new.runs ≤ length self.old.runs + 1 }
        ensures whole { IsWhole self.new }
        ensures capacity { self.new.capacity ≡ self.old.capacity }
    {
        join(&mut self.runs, seg);
    }

    /// Takes the units of a segment away, which are all there.
    pub(crate) fn remove(&mut self, seg: Seg)
        requires segment { IsSegment seg }
        requires covered { HoldsAll (covered self.old.runs) seg }
        requires room { length self.old.runs < self.old.capacity }
        ensures set { (u : ℕ) → covered self.new.runs u ≡ (not (covers seg u) && covered self.old.runs u) }
        ensures nodes { length self.new.runs ≤ length self.old.runs + 1 }
        ensures whole { IsWhole self.new }
        ensures capacity { self.new.capacity ≡ self.old.capacity }
    {
        carve(&mut self.runs, seg);
    }

    pub(crate) fn clear(&mut self)
        ensures set { (u : ℕ) → covered self.new.runs u ≡ false }
        ensures nodes { length self.new.runs ≡ 0 }
        ensures capacity { self.new.capacity ≡ self.old.capacity }
    {
        self.runs.clear();
    }

    /// Takes the units of two trees that share none, in the place of its own.
    pub(crate) fn merge(&mut self, first: &RunVec, second: &RunVec)
        requires disjoint { AreDisjoint (covered first.now.runs) (covered second.now.runs) }
        requires room { length first.now.runs + length second.now.runs ≤ self.old.capacity }
        ensures set { (u : ℕ) → covered self.new.runs u ≡ (covered first.now.runs u || covered second.now.runs u) }
        ensures nodes { length self.new.runs ≤ length first.now.runs + length second.now.runs }
        ensures whole { IsWhole self.new }
        ensures capacity { self.new.capacity ≡ self.old.capacity }
    {
        merge(&first.runs, &second.runs, &mut self.runs);
    }

    /// How many units at the front of a segment are all there, or all missing, and which of the two.
    pub(crate) fn front(&self, seg: Seg) -> (u32, bool)
        requires { IsSegment seg }
        ensures some { 0 < result.0 }
        ensures within { result.0 ≤ seg.count }
        ensures alike { (u : ℕ) → Covers (record { start = seg.start; count = result.0 }) u → covered self.now.runs u ≡ result.1 }
    {
        front_of(&self.runs, seg)
    }

    pub(crate) fn best(&self, count: u32) -> Option<Seg>
        ensures best { IfSome result (IsBest (covered self.now.runs) MAX_UNITS count) }
        ensures none { IfNone result (NoneFrom (covered self.now.runs) MAX_UNITS count 0) }
    {
        PlainRuns::new(&self.runs, MAX_UNITS).best(count)
    }

    pub(crate) fn largest(&self) -> u32
        ensures { IsLargest (covered self.now.runs) MAX_UNITS result }
    {
        PlainRuns::new(&self.runs, MAX_UNITS).largest()
    }

    /// How many runs there are of each length in bytes, by its highest set bit.
    pub(crate) fn histogram(&self, ashift: u8) -> Histogram
        requires { IsShift ashift }
        ensures { IsHistogramOf (covered self.now.runs) MAX_UNITS ashift result }
    {
        histogram_of(&self.runs, ashift)
    }
}
