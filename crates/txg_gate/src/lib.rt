//! The gate: which transaction group is open, which are closed, and which is settled. After OpenZFS's `txg.c`.
//!
//! What it promises to the layer above. At most three groups above the settled one are known at a time: `close_open`
//! answers `TooMany` exactly where the open group is the third above it (`many`). A lane holds the open group while
//! it works in it; a group that is closed takes no more holds, and `quiesced` is true exactly where the group is
//! closed and neither it nor an earlier one is held. The journal has each closing, with its lane, and each settling,
//! and is always legal (`into_notes`, `legal`): each closing is of the group that was open, each settling of the next
//! closed group. The open and the settled group are read off the journal alone (`open_group` and `synced_group` of
//! the model).
//!
//! It can be kept under a turn (`impl Kept for Gate`), with the opened group as its fixed part: a closing needs the
//! right of its lane, a settling right 0. A run of today has the gate to itself. Who waits for a group to be
//! quiesced, and for how long, is not its part.
#![tactic(auto)]

mod gate;
mod kept;

pub use gate::{Gate, Hold, TooMany};
