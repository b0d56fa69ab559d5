//! The gate by itself, and under a turn.
ghost use Rattle.std.specs.Prelude.{◌≡◌, ◌+◌, ◌<◌, ◌≤◌, length};

use ms_model::GateNote;
use std::alloc::Global;
use turn_cell::Turn;
use txg_gate::{Gate, TooMany};
use zms_units::Group;

/// Closes the open group, after `ready`; none where there is no memory.
fn close_next(gate: &mut Gate, lane: u8) -> Option<Result<Group, TooMany>>
    requires lane { (1 ≤ lane) × (lane ≤ 16) }
    requires few { length gate.old.notes < 200000 }
    ensures { length gate.new.notes ≤ length gate.old.notes + 1 }
{
    match gate.ready() {
        Ok(()) => Some(gate.close_open(lane)),
        Err(_) => None,
    }
}

/// Two groups are closed, and a third is refused while none of them is settled.
pub fn third_waits(alloc: Global) -> bool {
    let mut gate = Gate::new(alloc, Group(4));
    let busy = TooMany {
        open_group: Group(7),
        synced: Group(4),
    };
    let first = close_next(&mut gate, 1);
    let second = close_next(&mut gate, 1);
    let third = close_next(&mut gate, 1);
    first == Some(Ok(Group(5))) && second == Some(Ok(Group(6))) && third == Some(Err(busy))
}

/// A closed group that is held is quiesced once its hold is given back, and the notes are those of the closing and the
/// settling.
pub fn held_is_not_quiesced(alloc: Global) -> bool {
    let mut gate = Gate::new(alloc, Group(4));
    let hold = gate.hold();
    let group = hold.group;
    let closed = close_next(&mut gate, 1);
    let waits = !gate.quiesced(Group(5));
    gate.release(hold);
    let quiet = gate.quiesced(Group(5)) && !gate.quiesced(Group(6));
    let counts = gate.open_group() == Group(6) && gate.synced() == Group(4);
    let opened = gate.opened() == Group(4);
    let next = Group(gate.synced().0 + 1);
    if next < gate.open_group() {
        gate.settled(next);
    }
    let notes = gate.into_notes();
    let want = [
        GateNote::Closed {
            lane: 1,
            group: Group(5),
        },
        GateNote::Settled { group: Group(5) },
    ];
    let noted = notes.as_slice() == want.as_slice();
    let answered = group == Group(5) && closed == Some(Ok(Group(5)));
    answered && waits && quiet && counts && opened && noted
}

pub fn stands_under_a_turn(alloc: Global) -> bool {
    let Ok((turn, mut pass)) = Turn::new(alloc, Gate::new(alloc, Group(4))) else {
        return false;
    };
    turn.learn(&mut pass);
    turn.close(pass).is_ok()
}
