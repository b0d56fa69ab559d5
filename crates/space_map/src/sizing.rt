ghost use Rattle.std.specs.Prelude.{◌≡◌, ◌<◌, ◌≤◌, ◌+◌, ◌*◌, ◌^◌, ℕ, length};
ghost use Rattle.zms_units.specs.Segments.{AreSegs};
ghost use Rattle.sm_entry.specs.declared.SmType.{SmType};
ghost use Rattle.space_map.specs.Layout.{placed, laid_out, sizes};
ghost use Rattle.space_map.specs.Batches.{batch, condensed, entry_of};
ghost use Rattle.space_map.specs.declared.places.Place.TheVariants.{Side};

use crate::reading::{LONGEST_IN_ONE, ends_block};
use zms_units::Seg;

/// How many words a run of a side takes at a word.
fn run_size(at: u64, run: Seg) -> u64
    ensures size { (before : ℕ) (kind : SmType) → result ≡ sizes (placed at (entry_of (Side before) kind run)) }
    ensures few { result ≤ 3 }
{
    if u64::from(run.count) <= LONGEST_IN_ONE {
        1
    } else if ends_block(at) {
        3
    } else {
        2
    }
}

/// How many words a batch of a side takes from a word on.
fn batch_size(at: u64, runs: &[Seg]) -> u64
    requires { at + 3 * (length runs.now + 1) < 2 ^ 64 }
    ensures size { (before group : ℕ) (kind : SmType) → result ≡ sizes (laid_out at (batch (Side before) group kind runs.now)) }
    ensures few { result ≤ 3 * (length runs.now + 1) }
{
    if runs.is_empty() {
        return 0;
    }
    let mut size = 1;
    for run in runs {
        size += run_size(at + size, *run);
    }
    size
}

/// How many words a side has that is written anew: its whole range as allocated, and then the free runs as freed, with
/// the debug words and the fillers of blocks. What `space_map_estimate_optimal_size` estimates, exactly. One pass over
/// the runs; takes no memory.
pub fn best_size(free: &[Seg], units: u32) -> u64
    requires some { 0 < units }
    requires free { AreSegs units free.now }
    ensures { (group : ℕ) → result ≡ sizes (laid_out 0 (condensed group units free.now)) }
{
    let whole = Seg {
        start: 0,
        count: units,
    };
    let allocated = batch_size(0, &[whole]);
    allocated + batch_size(allocated, free)
}
