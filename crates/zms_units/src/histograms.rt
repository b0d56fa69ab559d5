ghost use Rattle.std.specs.Prelude.{◌≡◌, ℕ, ◌+◌, ◌*◌, ◌^◌, ◌<◌, ◌≤◌, slice_index, if◌then◌else◌};
ghost use Rattle.zms_units.specs.Limits.{IsShift};
ghost use Rattle.zms_units.specs.Weights.{is_in_bucket, IsEmpty};

use crate::{BUCKETS, MAX_UNITS, Seg, bytes_of};

/// How many free runs there are of each size: `runs[b]` counts those whose length in bytes has bit `b` as its
/// highest set bit. After `range_tree_stat` and the histograms that `zdb -m` prints.
#[derive(Clone, Copy, Debug, PartialEq, Eq)]
pub struct Histogram {
    pub runs: [u32; BUCKETS],
}

impl Histogram {
    pub fn empty() -> Histogram
        ensures { IsEmpty result }
    {
        Histogram { runs: [0; BUCKETS] }
    }

    /// Counts a run in its bucket. The runs are of units of `2^ashift` bytes.
    pub fn add(&mut self, run: Seg, ashift: u8)
        requires shift { IsShift ashift }
        requires run { (1 ≤ run.count) × (run.count ≤ MAX_UNITS) }
        requires few { (bucket : ℕ) → bucket < BUCKETS → slice_index self.old.runs bucket ≤ MAX_UNITS }
        ensures { (bucket : ℕ) → bucket < BUCKETS → slice_index self.new.runs bucket ≡ slice_index self.old.runs bucket + (if is_in_bucket ashift bucket run then 1 else 0) }
    {
        self.runs[bucket_of(run, ashift)] += 1;
    }
}

/// The bucket of a run: the place of the highest set bit of its length in bytes.
fn bucket_of(run: Seg, ashift: u8) -> usize
    requires shift { IsShift ashift }
    requires run { (1 ≤ run.count) × (run.count ≤ MAX_UNITS) }
    ensures bound { result < BUCKETS }
    ensures least { 2 ^ result ≤ run.count * 2 ^ ashift }
    ensures most { run.count * 2 ^ ashift < 2 ^ (result + 1) }
{
    bytes_of(run.count, ashift).ilog2() as usize
}
