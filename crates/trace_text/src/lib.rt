//! The trace: the text of a pool's journals, and the law that it fixes them.
//!
//! To the layer above it promises that `write_trace` hands exactly this text (`specs/Traces.antt`) to a sink, or a
//! front of it where the sink failed, and that the texts of different journals differ (`laws`), of any two values, so
//! that who has a trace has the journals. `write_metaslab_trace` is the form for pools whose classes and keeper have no
//! journals yet, with the same law for what it prints. It is what a run of the program writes today.
//!
//! `Printed`, by which texts are put together and handed to a sink, serves the replies and totals too. Nothing here
//! takes memory.
#![tactic(auto)]

mod classes;
mod held;
pub mod laws;
mod lines;
mod metaslabs;
mod pieces;
mod places;
mod printed;
mod traces;

pub use metaslabs::write_metaslab_trace;
pub use pieces::{Piece, write_pieces};
pub use printed::{Each, Printed};
pub use traces::write_trace;
