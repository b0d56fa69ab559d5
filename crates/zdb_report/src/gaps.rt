//! The runs that are vacant: what the held runs of a metaslab leave of its units.

ghost use Rattle.std.specs.Prelude.{◌≡◌, ℕ, ◌+◌, ◌<◌, ◌≤◌, not};
ghost use Rattle.zms_units.specs.Limits.{IsShift};
ghost use Rattle.zms_units.specs.Segments.{covered, AreSegs};
ghost use Rattle.zms_units.specs.Weights.{IsHistogramOf};
ghost use Rattle.zdb_report.specs.Gaps.{AreFew, AddsGap};

use zms_units::{Histogram, MAX_UNITS, Seg};

/// Counts the units from one to another as a run, where there are any.
fn add_gap(hist: &mut Histogram, from: u32, to: u32, ashift: u8)
    requires shift { IsShift ashift }
    requires order { from ≤ to }
    requires most { to ≤ MAX_UNITS }
    requires few { AreFew hist.old }
    ensures { AddsGap hist.old hist.new from to ashift }
{
    if from < to {
        let gap = Seg {
            start: from,
            count: to - from,
        };
        hist.add(gap, ashift);
    }
}

/// The histogram of the units that rising segments do not cover, of so many. Linear in the segments. After the free runs
/// that `space_map_load` leaves.
pub(crate) fn vacant_histogram(held: &[Seg], units: u32, ashift: u8) -> Histogram
    requires shift { IsShift ashift }
    requires most { units ≤ MAX_UNITS }
    requires segs { AreSegs units held.now }
    ensures { IsHistogramOf (λ u. not (covered held.now u)) units ashift result }
{
    let mut hist = Histogram::empty();
    let mut at = 0;
    for seg in held {
        add_gap(&mut hist, at, seg.start, ashift);
        at = seg.start + seg.count;
    }
    add_gap(&mut hist, at, units, ashift);
    hist
}
