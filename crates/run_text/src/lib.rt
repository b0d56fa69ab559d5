//! The text that a run prints: a line for each command with its reply, and then the totals.
//!
//! To the layer above it promises that `write_run` hands exactly this text (`text_of`, `specs/Texts.antt`) to a sink, or a
//! front of it where the sink failed: a function of the commands and their answers, of the vdevs, of what was counted on each
//! metaslab, and of the last group. `class_tally` and `pool_tally` are the sums in bytes that it prints (`specs/Tallies.antt`),
//! and of the vdevs that a pool may have they fit in 64 bits (`laws`). Nothing here takes memory.
#![tactic(auto)]

mod answers;
mod commands;
pub mod laws;
mod metaslabs;
mod printing;
mod replies;
mod tallies;
mod totals;
mod vdevs;

pub use printing::write_run;
pub use tallies::{Share, Tally, class_tally, pool_tally};
