//! How fragmented free space is, in percent.

ghost use Rattle.std.specs.Prelude.{◌≡◌, ℕ, ◌*◌, ◌^◌, ◌<◌, ◌≤◌};
ghost use Rattle.zdb_report.specs.Fragmentation.{bucket_fragmentation, fragmentation_of};

use zms_units::Histogram;

/// How fragmented runs of 512 bytes are, of 1024, and so on: OpenZFS's `zfs_frag_table`, in percent.
const FRAGMENTATIONS: [u64; 16] = [
    100, 100, 98, 95, 90, 80, 70, 60, 50, 40, 30, 20, 15, 10, 5, 0,
];

/// How fragmented runs of a bucket are, in percent.
fn bucket_fragmentation(bucket: usize) -> u64
    ensures value { result ≡ bucket_fragmentation bucket }
    ensures most { result ≤ 100 }
{
    let place = bucket.saturating_sub(9);
    if place < 16 { FRAGMENTATIONS[place] } else { 0 }
}

/// The bytes of so many runs of a bucket, each taken as the power of two.
fn run_bytes(count: u32, bucket: usize) -> u128
    requires { bucket < 64 }
    ensures value { result ≡ count * 2 ^ bucket }
    ensures few { result ≤ 2 ^ 95 }
{
    u128::from(count) << bucket
}

/// The mean of the fragmentation of the runs of a histogram, by their sizes as powers of two, in percent and rounded down;
/// 0 where there are no runs. After OpenZFS's `metaslab_set_fragmentation`.
pub(crate) fn fragmentation_of(hist: &Histogram) -> u64
    ensures { result ≡ fragmentation_of hist.now }
{
    let mut all = 0u128;
    let mut fragmented = 0u128;
    for bucket in 0..64usize {
        let bytes = run_bytes(hist.runs[bucket], bucket);
        all += bytes;
        fragmented += u128::from(bucket_fragmentation(bucket)) * bytes;
    }
    if all == 0 {
        return 0;
    }
    (fragmented / all) as u64
}
