//! The calls on trees, each by its name. The layers above ask for no count of steps, so each call that counts them begins
//! a fresh one.
ghost use Rattle.std.specs.Prelude.{◌≡◌, ℕ, ◌+◌, ◌<◌, ◌≤◌, ◌≢◌, false, not, ◌&&◌, ◌||◌, IfSome, IfNone};
ghost use Rattle.zms_units.specs.Segments.{covers};
ghost use Rattle.zms_units.specs.Runs.{IsFirstFrom, NoneFrom, IsBest};
ghost use Rattle.zms_units.specs.Weights.{IsHistogramOf};
ghost use Rattle.seg_trees.specs.Sets.{HoldsAll, HoldsNone, IsLowest, IsSegment, OthersStay, OthersStayBut, AreDisjoint, TakesNone, nodes_of, size_of};
ghost use Rattle.ms_core.specs.Mirrors.{Adds, CanMove, Clears, Moves, number_of};

use crate::tree::Tree;
use seg_trees::{SegTrees, Steps};
use std::marker::Brand;
use std::sync::ledger::{Blank, Ledger};
use zms_units::{Histogram, MAX_UNITS, Seg};

/// Adds a segment that meets nothing in the tree.
pub(crate) fn add<R: SegTrees>(trees: &mut R, tree: Tree, seg: Seg)
    requires segment { IsSegment seg }
    requires apart { HoldsNone (R.set trees.old (number_of tree)) seg }
    requires spare { 1 ≤ R.spare trees.old }
    ensures adds { Adds (R.set trees.old) (R.set trees.new) (number_of tree) seg }
    ensures spare { R.spare trees.old ≤ R.spare trees.new + 1 }
    ensures memory { TakesNone (R.spare trees.old) (R.set trees.old) (R.spare trees.new) (R.set trees.new) }
{
    add_counted::<Brand, R>(Blank::new(1), trees, tree, seg);
}

fn add_counted<L: Ledger, R: SegTrees>(blank: Blank, trees: &mut R, tree: Tree, seg: Seg)
    requires name { blank.name ≡ L.name }
    requires parts { (blank.parts ≡ L.parts) × (0 < blank.parts) }
    requires segment { IsSegment seg }
    requires apart { HoldsNone (R.set trees.old (number_of tree)) seg }
    requires spare { 1 ≤ R.spare trees.old }
    ensures adds { Adds (R.set trees.old) (R.set trees.new) (number_of tree) seg }
    ensures spare { R.spare trees.old ≤ R.spare trees.new + 1 }
    ensures memory { TakesNone (R.spare trees.old) (R.set trees.old) (R.spare trees.new) (R.set trees.new) }
{
    let mut steps = Steps::<L>::new(blank);
    trees.add(tree.number(), seg, &mut steps);
}

/// Takes a segment away that the tree covers.
pub(crate) fn remove<R: SegTrees>(trees: &mut R, tree: Tree, seg: Seg)
    requires segment { IsSegment seg }
    requires covered { HoldsAll (R.set trees.old (number_of tree)) seg }
    requires spare { 1 ≤ R.spare trees.old }
    ensures removed { (u : ℕ) → R.set trees.new (number_of tree) u ≡ (not (covers seg u) && R.set trees.old (number_of tree) u) }
    ensures others { OthersStay (R.set trees.old) (R.set trees.new) (number_of tree) }
    ensures spare { R.spare trees.old ≤ R.spare trees.new + 1 }
    ensures memory { TakesNone (R.spare trees.old) (R.set trees.old) (R.spare trees.new) (R.set trees.new) }
{
    remove_counted::<Brand, R>(Blank::new(1), trees, tree, seg);
}

fn remove_counted<L: Ledger, R: SegTrees>(blank: Blank, trees: &mut R, tree: Tree, seg: Seg)
    requires name { blank.name ≡ L.name }
    requires parts { (blank.parts ≡ L.parts) × (0 < blank.parts) }
    requires segment { IsSegment seg }
    requires covered { HoldsAll (R.set trees.old (number_of tree)) seg }
    requires spare { 1 ≤ R.spare trees.old }
    ensures removed { (u : ℕ) → R.set trees.new (number_of tree) u ≡ (not (covers seg u) && R.set trees.old (number_of tree) u) }
    ensures others { OthersStay (R.set trees.old) (R.set trees.new) (number_of tree) }
    ensures spare { R.spare trees.old ≤ R.spare trees.new + 1 }
    ensures memory { TakesNone (R.spare trees.old) (R.set trees.old) (R.spare trees.new) (R.set trees.new) }
{
    let mut steps = Steps::<L>::new(blank);
    trees.remove(tree.number(), seg, &mut steps);
}

/// Moves a segment from a tree that covers it to one that holds none of it.
pub(crate) fn move_seg<R: SegTrees>(trees: &mut R, from: Tree, into: Tree, seg: Seg)
    requires can { CanMove (R.set trees.old) (number_of from) (number_of into) seg }
    requires spare { 2 ≤ R.spare trees.old }
    ensures moves { Moves (R.set trees.old) (R.set trees.new) (number_of from) (number_of into) seg }
    ensures spare { R.spare trees.old ≤ R.spare trees.new + 2 }
    ensures memory { TakesNone (R.spare trees.old) (R.set trees.old) (R.spare trees.new) (R.set trees.new) }
{
    remove(trees, from, seg);
    add(trees, into, seg);
}

/// The lowest unit of the segment that is in the tree.
pub(crate) fn meets<R: SegTrees>(trees: &R, tree: Tree, seg: Seg) -> Option<u32>
    requires segment { IsSegment seg }
    ensures lowest { IfSome result (IsLowest (R.set trees.now (number_of tree)) seg) }
    ensures none { IfNone result (HoldsNone (R.set trees.now (number_of tree)) seg) }
{
    meets_counted::<Brand, R>(Blank::new(1), trees, tree, seg)
}

fn meets_counted<L: Ledger, R: SegTrees>(
    blank: Blank,
    trees: &R,
    tree: Tree,
    seg: Seg,
) -> Option<u32>
    requires name { blank.name ≡ L.name }
    requires parts { (blank.parts ≡ L.parts) × (0 < blank.parts) }
    requires segment { IsSegment seg }
    ensures lowest { IfSome result (IsLowest (R.set trees.now (number_of tree)) seg) }
    ensures none { IfNone result (HoldsNone (R.set trees.now (number_of tree)) seg) }
{
    let mut steps = Steps::<L>::new(blank);
    trees.meets(tree.number(), seg, &mut steps)
}

/// The lowest run of at least `count` units that starts at `at` or after it.
pub(crate) fn first_from<R: SegTrees>(trees: &R, tree: Tree, count: u32, at: u32) -> Option<Seg>
    ensures first { IfSome result (IsFirstFrom (R.set trees.now (number_of tree)) MAX_UNITS count at) }
    ensures none { IfNone result (NoneFrom (R.set trees.now (number_of tree)) MAX_UNITS count at) }
{
    first_counted::<Brand, R>(Blank::new(1), trees, tree, count, at)
}

fn first_counted<L: Ledger, R: SegTrees>(
    blank: Blank,
    trees: &R,
    tree: Tree,
    count: u32,
    at: u32,
) -> Option<Seg>
    requires name { blank.name ≡ L.name }
    requires parts { (blank.parts ≡ L.parts) × (0 < blank.parts) }
    ensures first { IfSome result (IsFirstFrom (R.set trees.now (number_of tree)) MAX_UNITS count at) }
    ensures none { IfNone result (NoneFrom (R.set trees.now (number_of tree)) MAX_UNITS count at) }
{
    let mut steps = Steps::<L>::new(blank);
    trees.first_from(tree.number(), count, at, &mut steps)
}

/// The shortest run of at least `count` units, and the lowest of these.
pub(crate) fn best<R: SegTrees>(trees: &R, tree: Tree, count: u32) -> Option<Seg>
    ensures best { IfSome result (IsBest (R.set trees.now (number_of tree)) MAX_UNITS count) }
    ensures none { IfNone result (NoneFrom (R.set trees.now (number_of tree)) MAX_UNITS count 0) }
{
    best_counted::<Brand, R>(Blank::new(1), trees, tree, count)
}

fn best_counted<L: Ledger, R: SegTrees>(
    blank: Blank,
    trees: &R,
    tree: Tree,
    count: u32,
) -> Option<Seg>
    requires name { blank.name ≡ L.name }
    requires parts { (blank.parts ≡ L.parts) × (0 < blank.parts) }
    ensures best { IfSome result (IsBest (R.set trees.now (number_of tree)) MAX_UNITS count) }
    ensures none { IfNone result (NoneFrom (R.set trees.now (number_of tree)) MAX_UNITS count 0) }
{
    let mut steps = Steps::<L>::new(blank);
    trees.best(tree.number(), count, &mut steps)
}

/// Moves all units of one tree into another, which holds none of them.
pub(crate) fn vacate<R: SegTrees>(trees: &mut R, from: Tree, into: Tree)
    requires differ { number_of from ≢ number_of into }
    requires disjoint { AreDisjoint (R.set trees.old (number_of from)) (R.set trees.old (number_of into)) }
    ensures into { (u : ℕ) → R.set trees.new (number_of into) u ≡ (R.set trees.old (number_of from) u || R.set trees.old (number_of into) u) }
    ensures from { (u : ℕ) → R.set trees.new (number_of from) u ≡ false }
    ensures others { OthersStayBut (R.set trees.old) (R.set trees.new) (number_of from) (number_of into) }
    ensures spare { R.spare trees.old ≤ R.spare trees.new }
    ensures memory { TakesNone (R.spare trees.old) (R.set trees.old) (R.spare trees.new) (R.set trees.new) }
{
    trees.vacate(from.number(), into.number());
}

/// Empties a tree.
pub(crate) fn clear<R: SegTrees>(trees: &mut R, tree: Tree)
    ensures clears { Clears (R.set trees.old) (R.set trees.new) (number_of tree) }
    ensures spare { R.spare trees.old ≤ R.spare trees.new }
    ensures memory { TakesNone (R.spare trees.old) (R.set trees.old) (R.spare trees.new) (R.set trees.new) }
{
    trees.clear(tree.number());
}

/// How many units a tree has.
pub(crate) fn units<R: SegTrees>(trees: &R, tree: Tree) -> u32
    ensures { result ≡ size_of (R.set trees.now (number_of tree)) }
{
    trees.units(tree.number())
}

/// How many runs a tree has.
pub(crate) fn nodes<R: SegTrees>(trees: &R, tree: Tree) -> u32
    ensures nodes { result ≡ nodes_of (R.set trees.now (number_of tree)) }
    ensures few { result ≤ MAX_UNITS }
{
    trees.nodes(tree.number())
}

/// How many runs a tree has of each length in bytes, by its highest set bit.
pub(crate) fn histogram<R: SegTrees>(trees: &R, tree: Tree, ashift: u8) -> Histogram
    requires { (9 ≤ ashift) × (ashift ≤ 12) }
    ensures { IsHistogramOf (R.set trees.now (number_of tree)) MAX_UNITS ashift result }
{
    trees.histogram(tree.number(), ashift)
}
