//! One look at a metaslab for a copy.
ghost use Rattle.std.specs.Prelude.{◌≡◌, ℕ, ◌<◌, ◌≤◌, IfOk, IfErr, Ok};
ghost use Rattle.zms_units.specs.Limits.{IsBlockSize};
ghost use Rattle.vdev_map.specs.Numbers.{IsIn};
ghost use Rattle.lane_passes.specs.Lanes.{IsSeated, Acted};
ghost use Rattle.pool_alloc.specs.Cuts.{LookLine, LoadLine, AreLaid, load_of_cut};
ghost use Rattle.pool_alloc.specs.Loads.{of_result, CountsOne};

use crate::places::{dva_of, units_on};
use crate::turns::{self, Post};
use class_group::Classes;
use lane_passes::LanePasses;
use ms_cell::{CellFault, Cells, LoadFault, Loader, Look};
use ms_core::MsFault;
use seg_trees::SegTrees;
use std::sync::Wait;
use zms_units::{Damage, Dva, First, Group, MsId};

/// How a look at a metaslab went.
#[derive(Clone, Copy, Debug, PartialEq, Eq)]
pub(crate) enum Looked {
    /// The copy lies there.
    Placed(Dva),
    /// It has no run long enough, or a worker had shut it.
    Failed,
    /// It is loaded, and can be looked at again.
    Loaded,
}

/// Why the search for a copy's place was cut short.
#[derive(Clone, Copy, Debug, PartialEq, Eq)]
pub(crate) enum Cut {
    /// The group of the hold was collected already.
    Late { group: Group, collected: Group },
    /// Why a load was refused.
    Device { before: u64, after: u64 },
    Damaged { id: MsId, damage: Damage },
    Suspended { first: First },
    /// Memory ran out, and nothing of the copy was granted.
    Memory,
    /// Memory ran out once the copy was granted, before that was posted.
    Unposted(Dva),
}

/// Loads a metaslab that is not in memory, and posts its weight.
fn load<R: SegTrees, L: Loader<R>, W: Wait>(
    rt: &W,
    cells: &Cells<R>,
    classes: &Classes,
    loader: &mut L,
    passes: &mut LanePasses<R>,
    id: MsId,
) -> Result<(), Cut>
    requires id { IsIn cells.now.vdevs id }
    requires seated { IsSeated cells.now classes.now passes.old }
    requires serves { L.serves loader.old passes.old.lane cells.now }
    ensures acted { Acted cells.now (LoadLine passes.old.lane id result) passes.old passes.new }
    ensures follows { L.follows loader.old loader.new }
    ensures counts { CountsOne (of_result load_of_cut result) (L.refusals loader.old) (L.last loader.old) (L.refusals loader.new) (L.last loader.new) }
{
    match loader.load(rt, cells, &mut passes.cells, passes.lane, id) {
        Ok(()) => match turns::post_weight(rt, cells, classes, passes, id, Post::Weigh) {
            Ok(()) => Ok(()),
            Err(_) => Err(Cut::Memory),
        },
        Err(LoadFault::Device { before, after }) => Err(Cut::Device { before, after }),
        Err(LoadFault::Damaged { id, damage }) => Err(Cut::Damaged { id, damage }),
        Err(LoadFault::Suspended { first }) => Err(Cut::Suspended { first }),
        Err(LoadFault::Memory) => Err(Cut::Memory),
    }
}

/// Looks at a metaslab for a copy, in the group of the hold, and posts what comes of it to its class, after
/// `metaslab_group_alloc_normal`.
pub(crate) fn look<R: SegTrees, L: Loader<R>, W: Wait>(
    rt: &W,
    cells: &Cells<R>,
    classes: &Classes,
    loader: &mut L,
    passes: &mut LanePasses<R>,
    id: MsId,
    group: Group,
    size: u64,
) -> Result<Looked, Cut>
    requires id { IsIn cells.now.vdevs id }
    requires size { IsBlockSize size }
    requires seated { IsSeated cells.now classes.now passes.old }
    requires serves { L.serves loader.old passes.old.lane cells.now }
    ensures acted { Acted cells.now (LookLine (record { lane = passes.old.lane; group = group; size = size }) id result) passes.old passes.new }
    ensures follows { L.follows loader.old loader.new }
    ensures counts { CountsOne (of_result load_of_cut result) (L.refusals loader.old) (L.last loader.old) (L.refusals loader.new) (L.last loader.new) }
    ensures laid { AreLaid cells.now.vdevs result }
{
    // It is one of the cells.
    let _ = cells.place_of(id);
    let count = units_on(cells, id.vdev, size);
    match turns::grant(rt, cells, passes, id, group, count) {
        Ok(Look::Granted(seg)) => {
            let dva = dva_of(cells, id, seg);
            let post = Post::Granted { bytes: dva.size };
            match turns::post_weight(rt, cells, classes, passes, id, post) {
                Ok(()) => Ok(Looked::Placed(dva)),
                Err(_) => Err(Cut::Unposted(dva)),
            }
        }
        Ok(Look::Miss) => match turns::post_weight(rt, cells, classes, passes, id, Post::Missed) {
            Ok(()) => Ok(Looked::Failed),
            Err(_) => Err(Cut::Memory),
        },
        Ok(Look::Shut) => Ok(Looked::Failed),
        Ok(Look::NotLoaded) => match load(rt, cells, classes, loader, passes, id) {
            Ok(()) => Ok(Looked::Loaded),
            Err(cut) => Err(cut),
        },
        Err(CellFault::Ms(MsFault::Late { group, collected })) => {
            Err(Cut::Late { group, collected })
        }
        Err(_) => Err(Cut::Memory),
    }
}
