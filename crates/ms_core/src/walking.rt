//! What is made of all runs of a tree, from run to run by rising offset, and of a list of segments.
ghost use Rattle.std.specs.Prelude.{◌≡◌, ℕ, ◌+◌, ◌*◌, ◌^◌, ◌<◌, ◌≤◌, ◌==◌, false, not, ◌&&◌, List, [], ◌++◌, ◌∷◌, length, slice_index, nat_lt, if◌then◌else◌};
ghost use Rattle.std.specs.Vec.{vec_len, vec_capacity};
ghost use Rattle.zms_units.specs.Segments.{end_of, covered, AreSegs};
ghost use Rattle.zms_units.specs.Limits.{IsShift};
ghost use Rattle.zms_units.specs.Runs.{AreMaximalRuns};
ghost use Rattle.zms_units.specs.Weights.{IsHistogramOf};
ghost use Rattle.seg_trees.specs.Sets.{nodes_of, OthersStay, TakesNone};
ghost use Rattle.ms_core.specs.Mirrors.{Fills, number_of};

use crate::stepping;
use crate::tree::Tree;
use seg_trees::SegTrees;
use zms_units::{Histogram, MAX_UNITS, Seg};

/// Writes the runs of a tree into an empty list, which has room for them.
pub(crate) fn push_runs<R: SegTrees>(trees: &R, tree: Tree, units: u32, out: &mut Vec<Seg>)
    requires units { units ≤ MAX_UNITS }
    requires within { (u : ℕ) → units ≤ u → R.set trees.now (number_of tree) u ≡ false }
    requires empty { out.old.items ≡ [] }
    requires room { nodes_of (R.set trees.now (number_of tree)) ≤ vec_capacity out.old }
    ensures runs { AreMaximalRuns (R.set trees.now (number_of tree)) units out.new.items }
    ensures capacity { vec_capacity out.new ≡ vec_capacity out.old }
{
    let mut at = 0;
    while let Some(run) = stepping::first_from(trees, tree, 1, at) {
        out.push_reserved(run);
        at = run.start + run.count;
    }
}

/// The histogram of so many units in one run, of none where there are none.
pub(crate) fn one_run(count: u32, ashift: u8, units: u32) -> Histogram
    requires shift { IsShift ashift }
    requires count { count ≤ units }
    requires units { units ≤ MAX_UNITS }
    ensures { IsHistogramOf (λ u. nat_lt u count) units ashift result }
{
    let mut hist = Histogram::empty();
    if count > 0 {
        hist.add(Seg { start: 0, count }, ashift);
    }
    hist
}

/// Adds what rising segments leave of the units to what may be handed out, of which nothing is there yet: first all units,
/// and then each segment is taken away.
pub(crate) fn add_gaps<R: SegTrees>(trees: &mut R, held: &[Seg], units: u32)
    requires segs { AreSegs units held.now }
    requires units { (0 < units) × (units ≤ MAX_UNITS) }
    requires empty { (u : ℕ) → R.set trees.old 0 u ≡ false }
    requires spare { length held.now + 1 ≤ R.spare trees.old }
    ensures fills { Fills (R.set trees.old) (R.set trees.new) units held.now }
    ensures spare { R.spare trees.old ≤ R.spare trees.new + (length held.now + 1) }
    ensures memory { TakesNone (R.spare trees.old) (R.set trees.old) (R.spare trees.new) (R.set trees.new) }
{
    let all = Seg {
        start: 0,
        count: units,
    };
    stepping::add(trees, Tree::Allocatable, all);
    for seg in held {
        stepping::remove(trees, Tree::Allocatable, *seg);
    }
}
