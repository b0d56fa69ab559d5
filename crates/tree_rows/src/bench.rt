//! What calls cost, measured over one form of the trees: no row, since it depends on the machine.

ghost use Rattle.std.specs.Prelude.{◌<◌};

use crate::random::Random;
use crate::runs::is_segment;
use seg_trees::{SegTrees, Steps};
use std::io;
use std::rt::Clock;
use std::sync::ledger::Ledger;
use std::time::Instant;
use zms_units::Seg;

/// Every second unit is a run, as many as are measured.
const RUNS: u32 = 65_000;

/// One unit, of which the trees have every second.
fn unit(number: u32) -> Seg
    requires { number < RUNS }
{
    Seg {
        start: 2 * number,
        count: 1,
    }
}

/// Adds one unit, where it is not there.
fn add<T: SegTrees, L: Ledger>(trees: &mut T, seg: Seg, steps: &mut Steps<L>) {
    if is_segment(seg) && trees.spare() > 0 && trees.meets(0, seg, steps).is_none() {
        trees.add(0, seg, steps);
    }
}

/// Takes one unit away, where it is there.
fn remove<T: SegTrees, L: Ledger>(trees: &mut T, seg: Seg, steps: &mut Steps<L>) {
    if is_segment(seg) && trees.spare() > 0 && trees.covers(0, seg, steps) {
        trees.remove(0, seg, steps);
    }
}

/// Prints how many nanoseconds one call took.
fn tell<R: Print + Clock>(
    rt: &R,
    form: &str,
    call: &str,
    calls: u32,
    start: &Instant,
) -> io::Result<()> {
    let took = start.elapsed(rt)?.as_nanos() / u128::from(calls.max(1));
    println!(rt; "{form} {call}: {took} ns a call, of {calls}")
}

/// So many calls of each kind on a tree of 65,000 runs: a unit away and back, a look for the best run and for the first
/// from a place.
pub fn measure<T: SegTrees + Drop, L: Ledger, R: Print + Clock + AllocGlobal>(
    rt: &R,
    form: &str,
    calls: u32,
    steps: &mut Steps<L>,
) -> io::Result<()> {
    let mut trees = T::new(rt.alloc());
    trees.reserve(RUNS + 8)?;
    let start = Instant::now(rt)?;
    for number in 0..RUNS {
        add(&mut trees, unit(number), steps);
    }
    tell(rt, form, "meets and add", RUNS, &start)?;
    let mut random = Random::new(1);
    let start = Instant::now(rt)?;
    for _ in 0..calls {
        let seg = unit(random.below(RUNS));
        remove(&mut trees, seg, steps);
        add(&mut trees, seg, steps);
    }
    tell(rt, form, "covers, remove, meets and add", calls, &start)?;
    let mut found: u32 = 0;
    let start = Instant::now(rt)?;
    for _ in 0..calls {
        let count = 1 + random.below(2);
        if trees.best(0, count, steps).is_some() {
            found = found.saturating_add(1);
        }
    }
    tell(rt, form, "best", calls, &start)?;
    let start = Instant::now(rt)?;
    for _ in 0..calls {
        let from = random.below(2 * RUNS);
        if trees.first_from(0, 1, from, steps).is_some() {
            found = found.saturating_add(1);
        }
    }
    tell(rt, form, "first_from", calls, &start)?;
    println!(rt; "{form} found {found}, runs {}", trees.nodes(0))
}
