//! Plain looks at the units of a metaslab, for the runs that are vacant.

ghost use Rattle.std.specs.Prelude.{◌≡◌, ℕ, ◌+◌, ◌<◌, ◌≤◌, true, false, length, slice_index, IfSome, IfNone};
ghost use Rattle.zms_units.specs.Runs.{units_in, IsMaximalRun, IsAmple, IsNext, IsBest, IsFit, NoneInRow};
ghost use Rattle.zms_units.specs.Cursors.{cursor_of};
ghost use Rattle.zms_units.specs.Limits.{IsShift};
ghost use Rattle.zms_units.specs.declared.segments.Seg.{Seg};
ghost use Rattle.ms_model.specs.Legal.{IsWithin};
ghost use Rattle.ms_model.specs.Checking.{Decides, LiesBetween, vacant_in};

use crate::checking::Checker;
use zms_units::{AMPLE_BYTES, AMPLE_SHARE, MAX_UNITS, Seg, cursor_place};

/// Which runs are looked for: those of `least` to `most` units that start at `from` or after it, and before `below`.
#[derive(Clone, Copy, Debug)]
struct Sought {
    least: u32,
    most: u32,
    from: u32,
    below: u32,
}

impl Sought {
    /// The runs of at least so many units.
    fn long(least: u32) -> Sought
        ensures least { result.least ≡ least }
        ensures most { result.most ≡ MAX_UNITS }
        ensures from { result.from ≡ 0 }
        ensures below { result.below ≡ MAX_UNITS }
    {
        Sought {
            least,
            most: MAX_UNITS,
            from: 0,
            below: MAX_UNITS,
        }
    }

    fn takes(&self, run: Seg) -> bool
        ensures { Decides result (LiesBetween self.now.least self.now.most self.now.from self.now.below run) }
    {
        run.count >= self.least
            && run.count <= self.most
            && run.start >= self.from
            && run.start < self.below
    }
}

impl Checker {
    /// How many vacant units stand in a row from a unit on.
    fn run_length(&self, start: u32) -> u32
        requires start { start < length self.now.lasts.items }
        requires most { length self.now.lasts.items ≤ MAX_UNITS }
        ensures within { start + result ≤ length self.now.lasts.items }
        ensures inside { (u : ℕ) → start ≤ u → u < start + result → vacant_in self.now u ≡ true }
        ensures after { start + result < length self.now.lasts.items → vacant_in self.now (start + result) ≡ false }
    {
        for unit in start..self.units() {
            if !self.is_vacant(unit) {
                return unit - start;
            }
        }
        self.units() - start
    }

    /// The maximal vacant run that starts at a unit.
    fn run_at(&self, start: u32) -> Option<Seg>
        requires start { start < length self.now.lasts.items }
        requires most { length self.now.lasts.items ≤ MAX_UNITS }
        ensures run { IfSome result (λ run. IsMaximalRun (vacant_in self.now) (length self.now.lasts.items) run × (run.start ≡ start)) }
        ensures none { IfNone result ((run : Seg) → IsMaximalRun (vacant_in self.now) (length self.now.lasts.items) run → run.start ≡ start → ⊥) }
    {
        if !self.is_vacant(start) || (start > 0 && self.is_vacant(start - 1)) {
            return None;
        }
        Some(Seg {
            start,
            count: self.run_length(start),
        })
    }

    /// Is there such a maximal vacant run?
    fn has_run(&self, sought: Sought) -> bool
        requires { length self.now.lasts.items ≤ MAX_UNITS }
        ensures { Decides result ((run : Seg) × (IsMaximalRun (vacant_in self.now) (length self.now.lasts.items) run × LiesBetween sought.least sought.most sought.from sought.below run)) }
    {
        for start in 0..self.units() {
            if let Some(run) = self.run_at(start) {
                if sought.takes(run) {
                    return true;
                }
            }
        }
        false
    }

    /// How many units are vacant.
    fn vacant_count(&self) -> u32
        requires { length self.now.lasts.items ≤ MAX_UNITS }
        ensures { result ≡ units_in (vacant_in self.now) (length self.now.lasts.items) }
    {
        let mut count = 0;
        for unit in 0..self.units() {
            if self.is_vacant(unit) {
                count += 1;
            }
        }
        count
    }

    /// Is space ample?
    fn is_ample(&self) -> bool
        requires most { length self.now.lasts.items ≤ MAX_UNITS }
        requires shift { IsShift self.now.ashift }
        ensures { Decides result (IsAmple (vacant_in self.now) (length self.now.lasts.items) self.now.ashift) }
    {
        self.has_run(Sought::long(AMPLE_BYTES >> self.ashift))
            && self.units() <= AMPLE_SHARE * self.vacant_count()
    }

    /// Is a run, long enough for the count, the next one that is, at the cursor or else from the start?
    fn is_next_run(&self, run: Seg, count: u32) -> bool
        requires most { length self.now.lasts.items ≤ MAX_UNITS }
        requires count { (1 ≤ count) × (count ≤ run.count) }
        requires run { IsMaximalRun (vacant_in self.now) (length self.now.lasts.items) run }
        ensures { Decides result (IsNext (vacant_in self.now) (length self.now.lasts.items) (slice_index self.now.cursors (cursor_of count)) count run) }
    {
        let cursor = self.cursors[cursor_place(count)];
        let long = Sought::long(count);
        if cursor <= run.start {
            return !self.has_run(Sought {
                from: cursor,
                below: run.start,
                ..long
            });
        }
        let lower = Sought {
            below: run.start,
            ..long
        };
        let later = Sought {
            from: cursor,
            ..long
        };
        !self.has_run(later) && !self.has_run(lower)
    }

    /// Is a run, long enough for the count, the shortest one that is, and the lowest of these?
    fn is_best_run(&self, run: Seg, count: u32) -> bool
        requires most { length self.now.lasts.items ≤ MAX_UNITS }
        requires count { (1 ≤ count) × (count ≤ run.count) }
        requires run { IsMaximalRun (vacant_in self.now) (length self.now.lasts.items) run }
        ensures { Decides result (IsBest (vacant_in self.now) (length self.now.lasts.items) count run) }
    {
        let shorter = Sought {
            most: run.count - 1,
            ..Sought::long(count)
        };
        let lower = Sought {
            most: run.count,
            below: run.start,
            ..Sought::long(run.count)
        };
        !self.has_run(shorter) && !self.has_run(lower)
    }

    /// Is the segment the one that the fit names for its count?
    pub(crate) fn is_fit(&self, seg: Seg) -> bool
        requires most { length self.now.lasts.items ≤ MAX_UNITS }
        requires shift { IsShift self.now.ashift }
        requires within { IsWithin (length self.now.lasts.items) seg }
        ensures { Decides result (IsFit (vacant_in self.now) (length self.now.lasts.items) self.now.ashift (slice_index self.now.cursors (cursor_of seg.count)) seg.count seg) }
    {
        let Some(run) = self.run_at(seg.start) else {
            return false;
        };
        if run.count < seg.count {
            return false;
        }
        if self.is_ample() {
            self.is_next_run(run, seg.count)
        } else {
            self.is_best_run(run, seg.count)
        }
    }

    /// Do no so many vacant units stand in a row?
    pub(crate) fn has_no_row(&self, count: u32) -> bool
        requires { length self.now.lasts.items ≤ MAX_UNITS }
        ensures { Decides result (NoneInRow (vacant_in self.now) (length self.now.lasts.items) count) }
    {
        count > 0 && !self.has_run(Sought::long(count))
    }
}
