//! The fit: by which run of free units a metaslab answers a request.
//!
//! Where space is ample, a first fit that goes on from the request's cursor; where it is scarce, the best fit. To the
//! layer above it promises that `fit` answers exactly the fit as `zms_units` defines it, for every `FreeRuns`, and
//! `None` exactly where no so many free units stand in a row; and by `one_fit` that a question has no second fit.
//! That it makes a constant number of calls, at most five, is seen in the code and not proved.
#![tactic(auto)]

ghost use Rattle.std.specs.Prelude.{◌≤◌, IfSome, IfNone, slice_index};
ghost use Rattle.std.specs.Bool.{OnTrue, OnFalse};
ghost use Rattle.zms_units.specs.Limits.{IsShift};
ghost use Rattle.zms_units.specs.Runs.{IsAmple, IsNext, IsBest, NoneFrom, IsFit, NoneInRow};
ghost use Rattle.zms_units.specs.Cursors.{cursor_of};
ghost use Rattle.fit_rule.specs.Laws.{OneFit};

use zms_units::{
    AMPLE_BYTES, AMPLE_SHARE, CURSORS, FreeRuns, MAX_ASHIFT, MAX_UNITS, Seg, bytes_of, cursor_place,
};

/// The `count` units by which a metaslab answers a request, in units of `2^ashift` bytes.
///
/// Where space is ample, the first units of the next run that is long enough: the lowest from the cursor on, or else
/// the lowest of all. Where it is scarce, those of the shortest run that is long enough, and of the lowest of these.
/// `None` where no run is long enough.
///
/// The cursor is the one of the count's lowest set bit. After OpenZFS's `metaslab_df_alloc`, whose `ms_lbas` are the
/// cursors. Makes at most five calls on the runs.
pub fn fit<F: FreeRuns>(free: &F, ashift: u8, cursors: &[u32; CURSORS], count: u32) -> Option<Seg>
    requires shift { IsShift ashift }
    requires count { (1 ≤ count) × (count ≤ MAX_UNITS) }
    ensures fit { IfSome result (IsFit (F.free free.now).has (F.free free.now).range ashift (slice_index cursors.now (cursor_of count)) count) }
    ensures none { IfNone result (NoneInRow (F.free free.now).has (F.free free.now).range count) }
{
    let cursor = cursors[cursor_place(count)];
    let run = chosen_run(free, ashift, cursor, count)?;
    Some(Seg {
        start: run.start,
        count,
    })
}

/// The run whose first units are the fit.
fn chosen_run<F: FreeRuns>(free: &F, ashift: u8, cursor: u32, count: u32) -> Option<Seg>
    requires { ashift ≤ MAX_ASHIFT }
    ensures ample { IfSome result (λ run. IsAmple (F.free free.now).has (F.free free.now).range ashift → IsNext (F.free free.now).has (F.free free.now).range cursor count run) }
    ensures scarce { IfSome result (λ run. (IsAmple (F.free free.now).has (F.free free.now).range ashift → ⊥) → IsBest (F.free free.now).has (F.free free.now).range count run) }
    ensures none { IfNone result (NoneFrom (F.free free.now).has (F.free free.now).range count 0) }
{
    if is_ample(free, ashift) {
        next_run(free, cursor, count)
    } else {
        free.best(count)
    }
}

/// Is space ample?
fn is_ample<F: FreeRuns>(free: &F, ashift: u8) -> bool
    requires { ashift ≤ MAX_ASHIFT }
    ensures yes { OnTrue result (IsAmple (F.free free.now).has (F.free free.now).range ashift) }
    ensures no { OnFalse result (IsAmple (F.free free.now).has (F.free free.now).range ashift → ⊥) }
{
    let largest = bytes_of(free.largest(), ashift);
    largest >= AMPLE_BYTES as u64 && AMPLE_SHARE as u64 * free.units() as u64 >= free.range() as u64
}

/// The next run of at least `count` units from a cursor on.
fn next_run<F: FreeRuns>(free: &F, cursor: u32, count: u32) -> Option<Seg>
    ensures next { IfSome result (IsNext (F.free free.now).has (F.free free.now).range cursor count) }
    ensures none { IfNone result (NoneFrom (F.free free.now).has (F.free free.now).range count 0) }
{
    match free.first_from(count, cursor) {
        Some(run) => Some(run),
        None => free.first_from(count, 0),
    }
}

/// The law that a question has one answer: two fits of the same set, range, shift, cursor and count are the same.
pub fn one_fit()
    ensures { OneFit }
{}
