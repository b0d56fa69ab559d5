//! The command `alloc`.

ghost use Rattle.std.specs.Prelude.{◌≡◌, ℕ, ◌+◌, ◌^◌, ◌<◌, ◌≤◌, [], ◌∷◌, IfOk};
ghost use Rattle.zms_units.specs.Limits.{IsLane};
ghost use Rattle.ms_model.specs.Gates.{open_group};
ghost use Rattle.ms_core.specs.State.{origin_of, StaysButNotes};
ghost use Rattle.zms_top.specs.Answers.{IsOfAlloc};
ghost use Rattle.cmd_text.specs.declared.script.What.TheVariants.{Alloc as AllocOf};
ghost use Rattle.zms_units.specs.declared.places.Class.{Class};
ghost use Rattle.zms_top.specs.Lines.{Shape, AllocLine, dva_at};
ghost use Rattle.zms_top.specs.Names.{Learns};
ghost use Rattle.zms_top.specs.Sound.{shape_of};
ghost use Rattle.zms_top.specs.Pools.{Acted, IsPool, LeavesSettled};

use crate::Answer;
use crate::blocks::add_block;
use crate::look::look;
use crate::pool::{ASHIFT, Pool};
use std::alloc::{AllocError, Global};
use std::collections::HashMap;
use zms_units::{Class, Copies, Dva, Seg, bytes_of, units_of};

/// Where a segment of the pool's one metaslab lies.
fn place_of(seg: Seg) -> Dva
    requires { seg.start + seg.count < 2 ^ 32 }
    ensures { (pool : Shape) → pool.ashift ≡ 12 → result ≡ dva_at pool 0 seg }
{
    Dva {
        class: Class::Normal,
        vdev: 0,
        offset: bytes_of(seg.start, ASHIFT),
        size: bytes_of(seg.count, ASHIFT),
    }
}

/// One copy of a block of class normal, as `metaslab_alloc` grants it, which is known by its name from then on. A size that
/// no block may have looks at nothing.
pub(crate) fn alloc<'a>(
    alloc: Global,
    pool: &mut Pool,
    blocks: &mut HashMap<&'a str, Seg>,
    lane: u8,
    name: &'a str,
    size: u64,
) -> Result<Answer, AllocError>
    requires pool { IsPool pool.old }
    requires lane { IsLane lane }
    ensures acted { IfOk result (λ answer. Acted pool.old pool.new lane (AllocLine (shape_of (origin_of pool.old.metaslab)) lane size answer)) }
    ensures answer { IfOk result IsOfAlloc }
    ensures learns { (class : Class) → (copies : ℕ) → IfOk result (λ answer. Learns (shape_of (origin_of pool.old.metaslab)) (AllocOf name.now size class copies) answer blocks.old blocks.new) }
    // Whatever is answered.
    ensures leaves { LeavesSettled pool.old pool.new }
    ensures first { pool.new.first ≡ pool.old.first }
    ensures stays { StaysButNotes pool.old.metaslab pool.new.metaslab }
    ensures gate { pool.new.gate.opened ≡ pool.old.gate.opened }
{
    let Ok(count) = units_of(size, ASHIFT) else {
        return Ok(Answer::BadSize);
    };
    let hold = pool.gate.hold();
    let found = look(&mut pool.metaslab, &pool.base, lane, &hold, count);
    let group = hold.group;
    pool.gate.release(hold);
    let Some(seg) = found? else {
        return Ok(Answer::NoSpace { looked: 1 });
    };
    add_block(blocks, name, seg)?;
    let mut copies = Copies::new(alloc);
    copies.push(place_of(seg));
    Ok(Answer::Granted { group, copies })
}
