//! Metaslabs and the gate under turns, for lanes that run at once: each call here takes one turn at one cell, makes one
//! action there and gives the turn back, with at most one note.
//!
//! To the layers above: the clause of each call says which step the holder took, at which journal (`before`), with which
//! note, and that it took none at any other cell; and what it answers is the metaslab's answer on that journal, with the
//! exact cause of each refusal (`specs/Journey.antt`, `specs/Answers.antt`). So what a lane knows afterwards holds
//! whatever other lanes did meanwhile. A holder is a lane, with the right of its number, or the keeper, with right 0.
//!
//! `make_cells` makes the cells of a layout, each metaslab from its base. `next_cells` splits the passes of one right off the
//! rest, `join_cells` puts passes together, and `tell_at` and `tell_gate` hand on what one holder has seen. `close_cells`
//! ends every turn, and says of which rights each journal has all notes (`specs/Closed.antt`). No call takes two turns at
//! once. What the closed journals say of each holder is in `laws`.
#![tactic(auto)]

mod acts;
mod answers;
mod cells;
mod closing;
mod gates;
mod keeper;
mod lanes;
pub mod laws;
mod loader;
mod making;
mod opening;
mod turns;

pub use answers::{CellFault, CloseFault, Look};
pub use cells::{CellPasses, Cells, MsCell};
pub use closing::close_cells;
pub use gates::{close_open_at, hold_at, quiesced_at, release_at, settled_at};
pub use keeper::{collect_at, load_at, settle_at};
pub use lanes::{free_at, grant_at, look_at, try_free_at, try_grant_at, unalloc_at};
pub use loader::{LoadFault, Loader};
pub use making::{join_cells, next_cells, tell_at, tell_gate};
pub use opening::make_cells;
