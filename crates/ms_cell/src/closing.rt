//! The cells, closed at the end.
ghost use Rattle.std.specs.Prelude.{◌≡◌, ◌≤◌, [], length, vec_capacity};
ghost use Rattle.std.specs.List.{All};
ghost use Rattle.ms_cell.specs.Passes.{AreIdle};
ghost use Rattle.ms_cell.specs.Closed.{AreClosed, IsLawful};

use crate::cells::{CellPasses, Cells};
use ms_core::Metaslab;
use seg_trees::SegTrees;
use std::sync::Wait;
use turn_passes::{close_turn, close_turns};
use txg_gate::Gate;

/// Ends every turn, once all passes are back, and gives the gate and the metaslabs into a list that has room for them.
pub fn close_cells<R: SegTrees + Drop, W: Wait>(
    rt: &W,
    cells: Cells<R>,
    passes: CellPasses<R>,
    room: Vec<Metaslab<R>>,
) -> (Gate, Vec<Metaslab<R>>)
    requires idle { AreIdle cells passes }
    requires room { (room.items ≡ []) × (length cells.metaslabs ≤ vec_capacity room) }
    ensures { AreClosed cells passes result.0 result.1.items }
{
    let Cells {
        gate,
        metaslabs,
        ..
    } = cells;
    let CellPasses {
        gate: pass,
        metaslabs: rest,
    } = passes;
    let gate = close_turn(rt, gate, pass);
    let metaslabs = close_turns(rt, metaslabs, rest, room);
    // The gate keeps its journal legal, and each metaslab its own.
    let _ = gate.synced();
    look_over(metaslabs.as_slice());
    (gate, metaslabs)
}

// Each journal is legal and of lanes, as each metaslab tells.
fn look_over<R: SegTrees>(metaslabs: &[Metaslab<R>])
    ensures { All IsLawful metaslabs.now }
{
    for metaslab in metaslabs {
        let _ = metaslab.settled();
    }
}
