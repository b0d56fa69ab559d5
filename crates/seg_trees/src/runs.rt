ghost use Rattle.std.specs.Prelude.{◌≡◌, ℕ, ◌+◌, ◌<◌, ◌≤◌, ◌⊎◌, true, false, not, ◌&&◌, ◌||◌, ◌++◌, take, drop, length, ◌^◌, ◌*◌, slice_index, IfSome, IfNone};
ghost use Rattle.std.specs.List.{All, AllWithin, HoldsAt, sum_by, count_by};
ghost use Rattle.std.specs.Vec.{vec_len, vec_capacity};
ghost use Rattle.zms_units.specs.declared.segments.Seg.{Seg};
ghost use Rattle.zms_units.specs.Segments.{end_of, covers, covered, Covers};
ghost use Rattle.zms_units.specs.Apart.{AreApartFrom};
ghost use Rattle.zms_units.specs.Limits.{IsShift};
ghost use Rattle.zms_units.specs.Weights.{is_in_bucket};
ghost use Rattle.zms_units.specs.Runs.{IsFirstFrom, NoneFrom};
ghost use Rattle.seg_trees.specs.Pieces.{runs_of, IsHolder, Touches, IsNextRun};
ghost use Rattle.seg_trees.specs.Sets.{HoldsAll, HoldsNone, IsLowest, IsSegment, AreDisjoint};

use zms_units::{BUCKETS, Histogram, MAX_UNITS, Seg};

/// How many runs end at a unit or before it.
fn ended(runs: &[Seg], unit: u32) -> usize
    requires { AreApartFrom 0 (MAX_UNITS + 1) runs.now }
    ensures bound { result ≤ length runs.now }
    ensures below { AllWithin (λ (run : Seg). end_of run ≤ unit) runs.now 0 result }
    ensures above { AllWithin (λ (run : Seg). unit < end_of run) runs.now result (length runs.now) }
{
    runs.partition_point(|run| run.start <= unit && run.count <= unit - run.start)
}

/// How many runs begin before a unit.
fn begun(runs: &[Seg], unit: u32) -> usize
    requires { AreApartFrom 0 (MAX_UNITS + 1) runs.now }
    ensures bound { result ≤ length runs.now }
    ensures below { AllWithin (λ (run : Seg). run.start < unit) runs.now 0 result }
    ensures above { AllWithin (λ (run : Seg). unit ≤ run.start) runs.now result (length runs.now) }
{
    runs.partition_point(|run| run.start < unit)
}

/// The place of the first run of at least `count` units.
fn first_long(runs: &[Seg], count: u32) -> Option<usize>
    ensures found { IfSome result (λ index. (index < length runs.now) × (HoldsAt (λ (run : Seg). count ≤ run.count) runs.now index × AllWithin (λ (run : Seg). run.count < count) runs.now 0 index)) }
    ensures none { IfNone result (All (λ (run : Seg). run.count < count) runs.now) }
{
    runs.iter().position(|run| run.count >= count)
}

/// Takes the runs from one place up to another away.
fn cut(runs: &mut Vec<Seg>, low: usize, high: usize)
    requires order { low ≤ high }
    requires within { high ≤ vec_len runs.old }
    ensures items { runs.new.items ≡ take low runs.old.items ++ drop high runs.old.items }
    ensures len { vec_len runs.new + high ≡ vec_len runs.old + low }
    ensures capacity { vec_capacity runs.new ≡ vec_capacity runs.old }
{
    runs.drain(low..high);
}

/// The place of the run that covers a segment whole.
pub(crate) fn holder(runs: &[Seg], seg: Seg) -> Option<usize>
    requires apart { AreApartFrom 0 (MAX_UNITS + 1) runs.now }
    requires segment { IsSegment seg }
    ensures some { IfSome result (IsHolder runs.now seg) }
    ensures none { IfNone result (HoldsAll (covered runs.now) seg → ⊥) }
{
    let index = ended(runs, seg.start);
    if index == runs.len() {
        return None;
    }
    let run = runs[index];
    if seg.start < run.start {
        return None;
    }
    if run.start + run.count < seg.start + seg.count {
        return None;
    }
    Some(index)
}

/// Puts what two segments cover in the place of a run.
fn split(runs: &mut Vec<Seg>, index: usize, left: Seg, right: Seg)
    requires index { index < vec_len runs.old }
    requires room { vec_len runs.old < vec_capacity runs.old }
    ensures items { runs.new.items ≡ take index runs.old.items ++ (runs_of left ++ (runs_of right ++ drop (index + 1) runs.old.items)) }
    ensures len { vec_len runs.new ≤ vec_len runs.old + 1 }
    ensures capacity { vec_capacity runs.new ≡ vec_capacity runs.old }
{
    if left.count > 0 {
        runs[index] = left;
        if right.count > 0 {
            runs.insert(index + 1, right).unwrap();
        }
    } else if right.count > 0 {
        runs[index] = right;
    } else {
        runs.remove(index);
    }
}

/// From which place to which a segment touches runs: it overlaps them, or ends where they begin, or begins where they
/// end.
fn touched(runs: &[Seg], seg: Seg) -> (usize, usize)
    requires apart { AreApartFrom 0 (MAX_UNITS + 1) runs.now }
    requires segment { IsSegment seg }
    ensures { Touches runs.now seg result.0 result.1 }
{
    let low = ended(runs, seg.start.saturating_sub(1));
    let high = begun(runs, seg.start + seg.count + 1);
    (low, high)
}

/// Joins a segment and the runs that it touches into one run.
pub(crate) fn join(runs: &mut Vec<Seg>, seg: Seg)
    requires apart { AreApartFrom 0 (MAX_UNITS + 1) runs.old.items }
    requires segment { IsSegment seg }
    requires room { vec_len runs.old < vec_capacity runs.old }
    ensures apart { AreApartFrom 0 (MAX_UNITS + 1) runs.new.items }
    ensures units { (u : ℕ) → covered runs.new.items u ≡ (covers seg u || covered runs.old.items u) }
    ensures len { vec_len runs.new ≤ vec_len runs.old + 1 }
    ensures capacity { vec_capacity runs.new ≡ vec_capacity runs.old }
{
    let (low, high) = touched(runs, seg);
    if low == high {
        runs.insert(low, seg).unwrap();
        return;
    }
    let first = runs[low];
    let last = runs[high - 1];
    let start = seg.start.min(first.start);
    let end = (seg.start + seg.count).max(last.start + last.count);
    runs[low] = Seg {
        start,
        count: end - start,
    };
    cut(runs, low + 1, high);
}

/// Cuts a segment out of the run that covers it.
pub(crate) fn carve(runs: &mut Vec<Seg>, seg: Seg)
    requires apart { AreApartFrom 0 (MAX_UNITS + 1) runs.old.items }
    requires segment { IsSegment seg }
    requires covered { HoldsAll (covered runs.old.items) seg }
    requires room { vec_len runs.old < vec_capacity runs.old }
    ensures apart { AreApartFrom 0 (MAX_UNITS + 1) runs.new.items }
    ensures units { (u : ℕ) → covered runs.new.items u ≡ (not (covers seg u) && covered runs.old.items u) }
    ensures len { vec_len runs.new ≤ vec_len runs.old + 1 }
    ensures capacity { vec_capacity runs.new ≡ vec_capacity runs.old }
{
    let index = holder(runs, seg).unwrap();
    let run = runs[index];
    let end = seg.start + seg.count;
    let left = Seg {
        start: run.start,
        count: seg.start - run.start,
    };
    let right = Seg {
        start: end,
        count: run.start + run.count - end,
    };
    split(runs, index, left, right);
}

/// The lowest unit of a segment that runs cover.
pub(crate) fn lowest(runs: &[Seg], seg: Seg) -> Option<u32>
    requires apart { AreApartFrom 0 (MAX_UNITS + 1) runs.now }
    requires segment { IsSegment seg }
    ensures lowest { IfSome result (IsLowest (covered runs.now) seg) }
    ensures none { IfNone result (HoldsNone (covered runs.now) seg) }
{
    let index = ended(runs, seg.start);
    if index == runs.len() {
        return None;
    }
    let run = runs[index];
    if seg.start + seg.count <= run.start {
        return None;
    }
    Some(seg.start.max(run.start))
}

/// The lowest run of at least `count` units that starts at `at` or after it.
pub(crate) fn first_after(runs: &[Seg], count: u32, at: u32) -> Option<Seg>
    requires { AreApartFrom 0 (MAX_UNITS + 1) runs.now }
    ensures first { IfSome result (IsFirstFrom (covered runs.now) MAX_UNITS count at) }
    ensures none { IfNone result (NoneFrom (covered runs.now) MAX_UNITS count at) }
{
    let from = begun(runs, at);
    let Some(index) = first_long(&runs[from..], count) else {
        return None;
    };
    Some(runs[from + index])
}

/// Adds a run behind the others, joined to the last one where it begins at its end.
fn push_joined(out: &mut Vec<Seg>, run: Seg)
    requires apart { AreApartFrom 0 (run.start + 1) out.old.items }
    requires segment { IsSegment run }
    requires room { vec_len out.old < vec_capacity out.old }
    ensures apart { AreApartFrom 0 (end_of run + 1) out.new.items }
    ensures units { (u : ℕ) → covered out.new.items u ≡ (covers run u || covered out.old.items u) }
    ensures len { vec_len out.new ≤ vec_len out.old + 1 }
    ensures capacity { vec_capacity out.new ≡ vec_capacity out.old }
{
    let len = out.len();
    if len > 0 {
        let last = out[len - 1];
        if last.start + last.count == run.start {
            out[len - 1] = Seg {
                start: last.start,
                count: last.count + run.count,
            };
            return;
        }
    }
    out.push_reserved(run);
}

/// Does the next run of the first list come before that of the second?
fn comes_first(first: &[Seg], taken: usize, second: &[Seg], used: usize) -> bool
    requires left { (taken < length first.now) ⊎ (used < length second.now) }
    requires taken { taken ≤ length first.now }
    requires used { used ≤ length second.now }
    ensures yes { result ≡ true → IsNextRun first.now taken second.now used }
    ensures not { result ≡ false → IsNextRun second.now used first.now taken }
{
    if taken == first.len() {
        return false;
    }
    if used == second.len() {
        return true;
    }
    first[taken].start <= second[used].start
}

/// Writes the runs of two lists that share no unit in the place of a third one's, joined where they touch.
pub(crate) fn merge(first: &[Seg], second: &[Seg], out: &mut Vec<Seg>)
    requires first { AreApartFrom 0 (MAX_UNITS + 1) first.now }
    requires second { AreApartFrom 0 (MAX_UNITS + 1) second.now }
    requires disjoint { AreDisjoint (covered first.now) (covered second.now) }
    requires room { length first.now + length second.now ≤ vec_capacity out.old }
    ensures apart { AreApartFrom 0 (MAX_UNITS + 1) out.new.items }
    ensures units { (u : ℕ) → covered out.new.items u ≡ (covered first.now u || covered second.now u) }
    ensures len { vec_len out.new ≤ length first.now + length second.now }
    ensures capacity { vec_capacity out.new ≡ vec_capacity out.old }
{
    out.clear();
    let mut taken = 0;
    let mut used = 0;
    while taken < first.len() || used < second.len() {
        if comes_first(first, taken, second, used) {
            push_joined(out, first[taken]);
            taken += 1;
        } else {
            push_joined(out, second[used]);
            used += 1;
        }
    }
}

/// How many units at the front of a segment are all covered, or all not, and which of the two.
pub(crate) fn front_of(runs: &[Seg], seg: Seg) -> (u32, bool)
    requires apart { AreApartFrom 0 (MAX_UNITS + 1) runs.now }
    requires segment { IsSegment seg }
    ensures some { 0 < result.0 }
    ensures within { result.0 ≤ seg.count }
    ensures alike { (u : ℕ) → Covers (record { start = seg.start; count = result.0 }) u → covered runs.now u ≡ result.1 }
{
    let index = ended(runs, seg.start);
    if index == runs.len() {
        return (seg.count, false);
    }
    let run = runs[index];
    if seg.start < run.start {
        return (seg.count.min(run.start - seg.start), false);
    }
    (seg.count.min(run.start + run.count - seg.start), true)
}

/// How many runs are in each bucket.
pub(crate) fn histogram_of(runs: &[Seg], ashift: u8) -> Histogram
    requires apart { AreApartFrom 0 (MAX_UNITS + 1) runs.now }
    requires ashift { IsShift ashift }
    ensures { (bucket : ℕ) → bucket < BUCKETS → slice_index result.runs bucket ≡ count_by (is_in_bucket ashift bucket) runs.now }
{
    let mut hist = Histogram::empty();
    for run in runs {
        hist.add(*run, ashift);
    }
    hist
}
