//! The trees that cost the logarithm.

ghost use Rattle.std.specs.Prelude.{◌≡◌, ◌≤◌, true};
ghost use Rattle.seg_trees.specs.Kept.{sets_of};
ghost use Rattle.seg_trees.specs.Sets.{nodes_of, IsSegment, RisesAtMost};

use range_tree::RangeTrees;
use seg_trees::{SegTrees, Steps};
use std::alloc::{AllocError, Global};
use std::sync::ledger::Ledger;
use zms_units::{MAX_UNITS, Seg};

/// The most runs that a row asks for.
pub const MOST: u32 = 40_000;

/// Whether a segment is not empty and within the largest metaslab.
pub fn is_segment(seg: Seg) -> bool
    ensures { result ≡ true → IsSegment seg }
{
    seg.count > 0 && seg.count <= MAX_UNITS && seg.start <= MAX_UNITS - seg.count
}

/// `ROOM`: how many nodes are spare in new trees, and after memory was taken.
pub fn spare_after(alloc: Global, room: u32) -> Result<Option<String>, AllocError> {
    if room > MOST {
        return Ok(None);
    }
    let mut trees = RangeTrees::new(alloc);
    let before = trees.spare();
    trees.reserve(room)?;
    let after = trees.spare();
    let answer = format!(in alloc; "spare {before} {after}")?;
    Ok(Some(answer))
}

/// Adds a segment, where it is one that the tree has nothing of and a node is spare.
fn add_new<L: Ledger>(trees: &mut RangeTrees, seg: Seg, steps: &mut Steps<L>) {
    if is_segment(seg) && trees.spare() > 0 && trees.meets(0, seg, steps).is_none() {
        trees.add(0, seg, steps);
    }
}

/// The shortest run of at least `count` units, in a tree of a thousand runs at most: 22 nodes are visited at most.
fn best_of_thousand<L: Ledger>(trees: &RangeTrees, count: u32, steps: &mut Steps<L>) -> Option<Seg>
    requires { nodes_of (sets_of trees.now.lists 0) ≤ 1000 }
    ensures { RisesAtMost steps.old steps.new 22 }
{
    trees.best(0, count, steps)
}

/// `RUNS COUNT`: so many runs of one unit at every third, and the shortest run of at least `count` units.
pub fn best_of_many<L: Ledger>(
    alloc: Global,
    runs: u32,
    count: u32,
    steps: &mut Steps<L>,
) -> Result<Option<String>, AllocError> {
    if runs > MOST {
        return Ok(None);
    }
    let mut trees = RangeTrees::new(alloc);
    trees.reserve(runs)?;
    for run in 0..runs {
        let seg = Seg {
            start: 3 * run,
            count: 1,
        };
        add_new(&mut trees, seg, steps);
    }
    let nodes = trees.nodes(0);
    let found = if nodes <= 1000 {
        best_of_thousand(&trees, count, steps)
    } else {
        trees.best(0, count, steps)
    };
    let answer = match found {
        Some(run) => format!(in alloc; "nodes {nodes} best {}:{}", run.start, run.count)?,
        None => format!(in alloc; "nodes {nodes} best none")?,
    };
    Ok(Some(answer))
}

/// Two segments of four units in two trees, of which the first is moved to the second.
pub fn vacate<L: Ledger>(
    alloc: Global,
    first: Seg,
    second: Seg,
    steps: &mut Steps<L>,
) -> Result<Option<String>, AllocError> {
    if !is_segment(first) || !is_segment(second) || first.start + first.count > second.start {
        return Ok(None);
    }
    let mut trees = RangeTrees::new(alloc);
    trees.reserve(2)?;
    trees.add(1, first, steps);
    trees.add(2, second, steps);
    let before = trees.spare();
    trees.vacate(1, 2);
    let after = trees.spare();
    let answer = format!(in alloc;
        "runs {} {} units {} {} spare {before} {after}",
        trees.nodes(1),
        trees.nodes(2),
        trees.units(1),
        trees.units(2)
    )?;
    Ok(Some(answer))
}
