//! What a holder does at the gate, in one turn.
ghost use Rattle.std.specs.Prelude.{◌≡◌, ◌↔◌, ℕ, ◌+◌, ◌<◌, ◌≤◌, None, IsTrue};
ghost use Rattle.zms_units.specs.Limits.{IsLane, MAX_COMMANDS};
ghost use Rattle.ms_model.specs.Gates.{open_group, synced_group};
ghost use Rattle.txg_gate.specs.Closings.{closings_of};
ghost use Rattle.txg_gate.specs.GateState.{GateState, IsQuiesced};
ghost use Rattle.ms_cell.specs.Passes.{Seated};
ghost use Rattle.ms_cell.specs.Journey.{TurnedGate};
ghost use Rattle.ms_cell.specs.GateAnswers.{CloseAnswer, SettledAnswer, QuiescedAnswer, IsClosedBefore};

use crate::answers::CloseFault;
use crate::cells::{CellPasses, Cells};
use ms_model::GateNote;
use seg_trees::SegTrees;
use std::sync::Wait;
use txg_gate::Hold;
use zms_units::Group;

/// Holds the open group.
pub fn hold_at<R: SegTrees, W: Wait>(rt: &W, cells: &Cells<R>, passes: &mut CellPasses<R>) -> Hold
    requires { (right : ℕ) × Seated right cells.now passes.old }
    ensures { (right : ℕ) → Seated right cells.now passes.old → TurnedGate right (λ h note. (note ≡ None) × (result.group.0 ≡ open_group cells.now.opened h)) passes.old passes.new }
{
    let mut held = cells.gate.take(rt, &mut passes.gate);
    let hold = held.value_mut().hold();
    cells.gate.give(held, &mut passes.gate, None);
    hold
}

/// Gives a hold up.
pub fn release_at<R: SegTrees, W: Wait>(
    rt: &W,
    cells: &Cells<R>,
    passes: &mut CellPasses<R>,
    hold: Hold,
)
    requires { (right : ℕ) × Seated right cells.now passes.old }
    ensures { (right : ℕ) → Seated right cells.now passes.old → TurnedGate right (λ h note. note ≡ None) passes.old passes.new }
{
    let mut held = cells.gate.take(rt, &mut passes.gate);
    held.value_mut().release(hold);
    cells.gate.give(held, &mut passes.gate, None);
}

/// Closes the open group and answers it, as `Gate::close_open`. The lane has each of its closings among its own notes, so it
/// knows how many they are.
pub fn close_open_at<R: SegTrees, W: Wait>(
    rt: &W,
    cells: &Cells<R>,
    passes: &mut CellPasses<R>,
    lane: u8,
) -> Result<Group, CloseFault>
    requires lane { IsLane lane }
    requires few { closings_of lane passes.old.gate.seen < MAX_COMMANDS }
    requires seated { Seated lane cells.now passes.old }
    ensures { TurnedGate lane (CloseAnswer cells.now.opened lane result) passes.old passes.new }
{
    let mut held = cells.gate.take(rt, &mut passes.gate);
    let gate = held.value_mut();
    if gate.ready().is_err() {
        cells.gate.give(held, &mut passes.gate, None);
        return Err(CloseFault::Memory);
    }
    // The open group is at most the third above the settled one.
    let _ = gate.synced();
    match gate.close_open(lane) {
        Ok(group) => {
            let note = GateNote::Closed { lane, group };
            cells.gate.give(held, &mut passes.gate, Some(note));
            Ok(group)
        }
        Err(many) => {
            cells.gate.give(held, &mut passes.gate, None);
            Err(CloseFault::TooMany(many))
        }
    }
}

/// Whether the group is closed, and neither it nor an earlier one is held.
pub fn quiesced_at<R: SegTrees, W: Wait>(
    rt: &W,
    cells: &Cells<R>,
    passes: &mut CellPasses<R>,
    group: Group,
) -> bool
    requires { (right : ℕ) × Seated right cells.now passes.old }
    ensures { (right : ℕ) → Seated right cells.now passes.old → TurnedGate right (QuiescedAnswer cells.now.opened group result) passes.old passes.new }
{
    let held = cells.gate.take(rt, &mut passes.gate);
    let gate = held.value();
    // The open group is above the settled one, and small.
    let _ = (gate.synced(), gate.open_group());
    let quiesced = gate.quiesced(group);
    cells.gate.give(held, &mut passes.gate, None);
    quiesced
}

/// Settles the next closed group. The keeper has every settling among its own notes, so it knows which group is next; that it
/// is closed it has seen, as from `quiesced_at`. Takes no memory.
pub fn settled_at<R: SegTrees, W: Wait>(
    rt: &W,
    cells: &Cells<R>,
    passes: &mut CellPasses<R>,
    group: Group,
)
    requires next { group.0 ≡ synced_group cells.now.opened passes.old.gate.seen + 1 }
    requires closed { IsClosedBefore cells.now.opened group.0 passes.old.gate.seen }
    requires seated { Seated 0 cells.now passes.old }
    ensures { TurnedGate 0 (SettledAnswer cells.now.opened group) passes.old passes.new }
{
    let mut held = cells.gate.take(rt, &mut passes.gate);
    prove!(held.value().synced().0 < group.0);
    held.value_mut().settled(group);
    let note = GateNote::Settled { group };
    cells.gate.give(held, &mut passes.gate, Some(note));
}
