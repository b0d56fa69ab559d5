//! The weight of a metaslab: one word, from the lengths of its free runs, by which metaslabs are compared.
//!
//! A weight is a hint: it orders the search, and passes over a metaslab that cannot have a long enough run. To the
//! layer above it promises that `weight_of` and `passes_over` are exactly what `zms_units` defines, and by
//! `never_passed_over` that the weight of a set's histogram never passes over a length that one of its runs has. That
//! a given histogram is that of a set is for its maker to prove.
#![tactic(auto)]

ghost use Rattle.std.specs.Prelude.{◌↔◌, ◌^◌, ◌<◌, ◌≤◌, IsTrue, IfSome, IfNone};
ghost use Rattle.zms_units.specs.Weights.{IsGreatest, IsEmpty, IsWeightOf, PassesOver};
ghost use Rattle.ms_weight.specs.Laws.{NeverPassedOver};

use zms_units::Histogram;

/// The weight of a histogram of free runs: the number of its greatest bucket that is not empty in the high ten bits, and
/// the count of that bucket in the low 54; 0 where all buckets are empty.
///
/// After OpenZFS's segment-based weight of `metaslab_segment_weight`, without its type bits.
pub fn weight_of(hist: &Histogram) -> u64
    ensures { IsWeightOf hist.now result }
{
    match greatest_bucket(hist) {
        Some(bucket) => ((bucket as u64) << 54) + hist.runs[bucket] as u64,
        None => 0,
    }
}

/// The greatest bucket that is not empty.
fn greatest_bucket(hist: &Histogram) -> Option<usize>
    ensures bound { IfSome result (λ bucket. bucket < 64) }
    ensures greatest { IfSome result (IsGreatest hist.now) }
    ensures none { IfNone result (IsEmpty hist.now) }
{
    hist.runs.iter().rposition(|count| *count != 0)
}

/// Does a weight tell that no run has so many bytes? True where it is 0, and where the bytes are at least
/// `2^(bucket + 1)`, which no run of its bucket has.
///
/// After OpenZFS's `metaslab_should_allocate`.
pub fn passes_over(weight: u64, bytes: u64) -> bool
    ensures { IsTrue result ↔ PassesOver weight bytes }
{
    weight == 0 || reaches(bytes, (weight >> 54) + 1)
}

/// Are there at least `2^power` bytes?
fn reaches(bytes: u64, power: u64) -> bool
    ensures { IsTrue result ↔ (2 ^ power ≤ bytes) }
{
    power < 64 && bytes >> power != 0
}

/// The law that a metaslab with a maximal run of at least so many bytes is not passed over by the weight of its
/// histogram.
pub fn never_passed_over()
    ensures { NeverPassedOver }
{}
