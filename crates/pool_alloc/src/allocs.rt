//! Granting a block.
ghost use Rattle.std.specs.Prelude.{◌≡◌, ◌<◌, length};
ghost use Rattle.zms_units.specs.Limits.{IsBlockSize};
ghost use Rattle.lane_passes.specs.Lanes.{IsSeated, Acted};
ghost use Rattle.pool_alloc.specs.Allocs.{IsCopyCount, AllocLine, InnerLine};
ghost use Rattle.pool_alloc.specs.Cuts.{AllLaid};
ghost use Rattle.pool_alloc.specs.Ends.{refusal_of, kept_of, CutShort};
ghost use Rattle.pool_alloc.specs.Loads.{CountsAlloc};

use crate::answers::AllocFault;
use crate::looks::Cut;
use crate::placing::{Found, place_copy};
use crate::turns;
use crate::undoing::take_copies_back;
use class_group::Classes;
use lane_passes::LanePasses;
use ms_cell::{Cells, Loader};
use seg_trees::SegTrees;
use std::alloc::Global;
use std::sync::Wait;
use zms_units::{Block, Class, Copies, Group, MAX_BLOCK_SIZE};

/// Grants a block of `size` bytes in a class, in one to three copies, each on another vdev where there are enough, after
/// `metaslab_alloc`. A copy for which the class has no space is placed on normal. Where one copy has no place none is
/// granted: what was is taken back. `BadSize` and `BadCopies` come first, in this order, and do nothing.
///
/// A load refusal ends the call and is its answer, but where memory runs out while copies are taken back.
///
/// Holds the open group from the first act to the last. Takes no memory but what each turn needs for its note. Costs what its
/// looks cost: one at a metaslab that fits, one at each metaslab of the class and of normal where there is none.
pub fn alloc<R: SegTrees, L: Loader<R>, W: Wait>(
    rt: &W,
    alloc_from: Global,
    cells: &Cells<R>,
    classes: &Classes,
    loader: &mut L,
    passes: &mut LanePasses<R>,
    size: u64,
    class: Class,
    copies: u8,
) -> Result<Block, AllocFault>
    requires seated { IsSeated cells.now classes.now passes.old }
    requires serves { L.serves loader.old passes.old.lane cells.now }
    ensures acted { Acted cells.now (AllocLine passes.old.lane size class copies result) passes.old passes.new }
    ensures follows { L.follows loader.old loader.new }
    ensures counts { CountsAlloc result (L.refusals loader.old) (L.last loader.old) (L.refusals loader.new) (L.last loader.new) }
{
    if size == 0 || size > MAX_BLOCK_SIZE {
        return Err(AllocFault::BadSize);
    }
    if copies == 0 || copies > 3 {
        return Err(AllocFault::BadCopies);
    }
    let hold = turns::hold(rt, cells, passes);
    let group = hold.group;
    let result = place_copies(
        rt, alloc_from, cells, classes, loader, passes, group, size, class, copies,
    );
    turns::release(rt, cells, passes, hold);
    result
}

/// Places the copies of a block in the group of the hold.
fn place_copies<R: SegTrees, L: Loader<R>, W: Wait>(
    rt: &W,
    alloc_from: Global,
    cells: &Cells<R>,
    classes: &Classes,
    loader: &mut L,
    passes: &mut LanePasses<R>,
    group: Group,
    size: u64,
    class: Class,
    copies: u8,
) -> Result<Block, AllocFault>
    requires size { IsBlockSize size }
    requires copies { IsCopyCount copies }
    requires seated { IsSeated cells.now classes.now passes.old }
    requires serves { L.serves loader.old passes.old.lane cells.now }
    ensures acted { Acted cells.now (InnerLine (record { lane = passes.old.lane; group = group; size = size }) class copies result) passes.old passes.new }
    ensures follows { L.follows loader.old loader.new }
    ensures counts { CountsAlloc result (L.refusals loader.old) (L.last loader.old) (L.refusals loader.new) (L.last loader.new) }
{
    let mut placed = Copies::new(alloc_from);
    for _ in 0..copies {
        match place_copy(
            rt, alloc_from, cells, classes, loader, passes, group, size, class, &placed,
        ) {
            Ok(Found::Placed(dva)) => placed.push(dva),
            Ok(Found::Full { looked }) => {
                let refusal = AllocFault::NoSpace { looked };
                return Err(take_copies_back(
                    rt, alloc_from, cells, classes, passes, group, &placed, refusal,
                ));
            }
            Err(cut) => {
                return Err(cut_short(rt, alloc_from, cells, classes, passes, group, placed, cut));
            }
        }
    }
    Ok(Block {
        group,
        copies: placed,
    })
}

/// Ends an allocation whose search for the next copy's place was cut short: the copies before it are taken back, but where
/// memory ran out they stay.
fn cut_short<R: SegTrees, W: Wait>(
    rt: &W,
    alloc: Global,
    cells: &Cells<R>,
    classes: &Classes,
    passes: &mut LanePasses<R>,
    group: Group,
    placed: Copies,
    cut: Cut,
) -> AllocFault
    requires few { length placed < 3 }
    requires laid { AllLaid cells.now.vdevs placed }
    requires seated { IsSeated cells.now classes.now passes.old }
    ensures { Acted cells.now (CutShort cut passes.old.lane group placed result) passes.old passes.new }
{
    match refusal_of(cut) {
        Some(refusal) => take_copies_back(
            rt, alloc, cells, classes, passes, group, &placed, refusal,
        ),
        None => AllocFault::Memory {
            kept: kept_of(placed, cut),
        },
    }
}

/// The refusal that a cut tells of. Want of memory is none.
fn refusal_of(cut: Cut) -> Option<AllocFault>
    ensures { result ≡ refusal_of cut }
{
    match cut {
        Cut::Late { group, collected } => Some(AllocFault::Late { group, collected }),
        Cut::Device { before, after } => Some(AllocFault::Device { before, after }),
        Cut::Damaged { id, damage } => Some(AllocFault::Damaged { id, damage }),
        Cut::Suspended { first } => Some(AllocFault::Suspended { first }),
        Cut::Memory | Cut::Unposted(_) => None,
    }
}

/// The copies that are granted, with one that was not posted.
fn kept_of(mut placed: Copies, cut: Cut) -> Copies
    requires { length placed < 3 }
    ensures { result ≡ kept_of placed cut }
{
    if let Cut::Unposted(dva) = cut {
        placed.push(dva);
    }
    placed
}
