// The words of a metaslab in the next group.
ghost use Rattle.std.specs.Prelude.{◌≡◌, ℕ, ◌+◌, ◌<◌, ◌≤◌, ◌^◌, not, false, true, if◌then◌else◌, length, slice_index_or, IfOk};
ghost use Rattle.zms_units.specs.Segments.{covered, AreSegs};
ghost use Rattle.space_map.specs.Batches.{condensed};
ghost use Rattle.space_map.specs.Layout.{laid_out, words_of};
ghost use Rattle.meta_store.specs.NextWords.{is_held_after, AreFreeAfter};

use crate::runs::{maximal_runs, put_range};
use sm_entry::SmType;
use space_map::{AppendFault, Place, append};
use std::alloc::{AllocError, Global};
use zms_units::{Group, Seg};

/// Writes a value for each unit of segments.
fn put_segs(marks: &mut [bool], segs: &[Seg], value: bool)
    requires { AreSegs (length marks.old) segs.now }
    ensures { (u : ℕ) → slice_index_or marks.new u false ≡ (if covered segs.now u then value else slice_index_or marks.old u false) }
{
    for seg in segs {
        let start = seg.start as usize;
        put_range(marks, start, start + seg.count as usize, value);
    }
}

/// Which of so many units are free after a batch: what it frees, and what is neither held nor allocated.
fn free_units(
    alloc: Global,
    held: &[Seg],
    allocs: &[Seg],
    frees: &[Seg],
    units: u32,
) -> Result<Vec<bool>, AllocError>
    requires held { AreSegs units held.now }
    requires allocs { AreSegs units allocs.now }
    requires frees { AreSegs units frees.now }
    ensures len { IfOk result (λ free. length free.items ≡ units) }
    ensures free { IfOk result (λ free. (u : ℕ) → u < units → slice_index_or free.items u false ≡ not (is_held_after allocs.now frees.now u (covered held.now u))) }
{
    let mut free = Vec::new(alloc);
    free.resize(units as usize, true)?;
    put_segs(&mut free, held, false);
    put_segs(&mut free, allocs, false);
    put_segs(&mut free, frees, true);
    Ok(free)
}

/// The maximal runs of the units that are free after a batch. Linear in the units.
pub(crate) fn free_runs(
    alloc: Global,
    held: &[Seg],
    allocs: &[Seg],
    frees: &[Seg],
    units: u32,
) -> Result<Vec<Seg>, AllocError>
    requires few { units ≤ 131072 }
    requires held { AreSegs units held.now }
    requires allocs { AreSegs units allocs.now }
    requires frees { AreSegs units frees.now }
    ensures { IfOk result (λ free. AreFreeAfter held.now allocs.now frees.now units free.items) }
{
    let free = free_units(alloc, held, allocs, frees, units)?;
    maximal_runs(alloc, &free)
}

/// The words of a side that is written anew: its whole range as allocated, and then the free runs as freed, rising. Linear
/// in the runs.
pub(crate) fn side_words(
    alloc: Global,
    group: Group,
    units: u32,
    free: &[Seg],
) -> Result<Vec<u64>, AppendFault>
    requires named { group.0 < 2 ^ 50 }
    requires some { 0 < units }
    requires free { AreSegs units free.now }
    ensures words { IfOk result (λ words. words.items ≡ words_of (laid_out 0 (condensed group.0 units free.now))) }
    ensures some { IfOk result (λ words. 0 < length words.items) }
    ensures room { IfOk result (λ words. length words.items ≤ units + 64) }
{
    let mut words = Vec::new(alloc);
    let whole = Seg {
        start: 0,
        count: units,
    };
    let place = Place::Side { before: 0 };
    append(&mut words, group, SmType::Alloc, &[whole], &place)?;
    append(&mut words, group, SmType::Free, free, &place)?;
    Ok(words)
}
