//! The command `free`.

ghost use Rattle.std.specs.Prelude.{◌≡◌, ℕ, ◌+◌, ◌<◌, ◌≤◌, false, IfOk, IfSome, OnErr};
ghost use Rattle.zms_units.specs.Limits.{IsLane};
ghost use Rattle.zms_units.specs.Segments.{covered, AreSegs};
ghost use Rattle.ms_model.specs.Legal.{IsWithin};
ghost use Rattle.ms_model.specs.Units.{held, is_loaded};
ghost use Rattle.ms_core.specs.State.{origin_of, settled_of, collected_of, StaysButNotes};
ghost use Rattle.zms_top.specs.Answers.{IsOfFree};
ghost use Rattle.zms_top.specs.Lines.{FreeLine};
ghost use Rattle.zms_top.specs.Names.{copies_at};
ghost use Rattle.zms_top.specs.Looks.{IsGivenBack};
ghost use Rattle.zms_top.specs.Sound.{shape_of, MayLoad};
ghost use Rattle.zms_top.specs.Pools.{Acted, IsPool, LeavesSettled};

use crate::Answer;
use crate::look::load_first;
use crate::pool::{ASHIFT, FIRST_METASLAB, Pool};
use ms_core::{Metaslab, MsFault};
use seg_trees::PlainTrees;
use std::alloc::AllocError;
use txg_gate::Hold;
use zms_units::{Seg, bytes_of};

/// Frees a segment in the group of a hold that is in hand, bringing free space into memory first where it is not there. Where some unit of it is not handed out
/// in a group of at most this one, it frees nothing and answers the lowest such unit. After an error the metaslab may be
/// loaded.
fn give_back(
    metaslab: &mut Metaslab<PlainTrees>,
    base: &[Seg],
    lane: u8,
    hold: &Hold,
    seg: Seg,
) -> Result<Option<u32>, AllocError>
    requires lane { IsLane lane }
    requires above { collected_of metaslab.old < hold.now.group.0 }
    requires near { hold.now.group.0 ≤ settled_of metaslab.old + 3 }
    requires segment { IsWithin metaslab.old.units seg }
    requires segs { AreSegs metaslab.old.units base.now }
    requires held { is_loaded metaslab.old.notes ≡ false → (u : ℕ) → u < metaslab.old.units → covered base.now u ≡ held (origin_of metaslab.old) metaslab.old.notes (settled_of metaslab.old) u }
    ensures given { IfOk result (λ refused. IsGivenBack (origin_of metaslab.old) lane hold.now.group seg metaslab.old.notes metaslab.new.notes refused) }
    ensures err { OnErr result (MayLoad lane metaslab.old.notes metaslab.new.notes) }
    ensures stays { StaysButNotes metaslab.old metaslab.new }
{
    load_first(metaslab, base, lane)?;
    metaslab.ready()?;
    match metaslab.free(lane, hold.group, seg) {
        Ok(()) => Ok(None),
        Err(MsFault::NotLive { unit }) => Ok(Some(unit)),
        Err(_) => unreachable!(),
    }
}

/// Gives back the block that lies there, as `metaslab_free` does: `placed` is where the lane was granted it, if it was. Its
/// units are vacant again from the second settle after that of the open group.
pub(crate) fn free(pool: &mut Pool, lane: u8, placed: Option<Seg>) -> Result<Answer, AllocError>
    requires pool { IsPool pool.old }
    requires lane { IsLane lane }
    requires within { IfSome placed (IsWithin pool.old.metaslab.units) }
    ensures acted { IfOk result (λ answer. Acted pool.old pool.new lane (FreeLine (shape_of (origin_of pool.old.metaslab)) lane (copies_at (shape_of (origin_of pool.old.metaslab)) placed) answer)) }
    ensures answer { IfOk result IsOfFree }
    // Whatever is answered.
    ensures leaves { LeavesSettled pool.old pool.new }
    ensures first { pool.new.first ≡ pool.old.first }
    ensures stays { StaysButNotes pool.old.metaslab pool.new.metaslab }
    ensures gate { pool.new.gate.opened ≡ pool.old.gate.opened }
{
    let Some(seg) = placed else {
        return Ok(Answer::NoName);
    };
    let hold = pool.gate.hold();
    let refused = give_back(&mut pool.metaslab, &pool.base, lane, &hold, seg);
    let group = hold.group;
    pool.gate.release(hold);
    match refused? {
        None => Ok(Answer::Done { group }),
        Some(unit) => Ok(Answer::NotLive {
            vdev: FIRST_METASLAB.vdev,
            offset: bytes_of(unit, ASHIFT),
        }),
    }
}
