//! Thirteen numbered trees of runs, after OpenZFS's range trees: what a metaslab knows of its units.
//!
//! To the layer above each tree is a set of units, and nothing more: `SegTrees` says of each call exactly what it
//! answers, which units it adds, moves or takes away, and that it leaves the other trees as they were. Memory is
//! taken by `reserve` alone, and `spare` says for how many calls of `add` or `remove` it lasts; `swap`, `vacate` and
//! `clear` take none. `steps` counts the nodes that searches visit, with a bound that each form gives (`descent`).
//!
//! How the runs are kept is left to the forms. `PlainTrees` keeps sorted vectors of maximal runs, meets every clause,
//! and leaves the steps as they were. Searches by place are binary; `best`, `largest` and `units` look at each run,
//! which is told and not proved.
#![tactic(auto)]

mod plain;
mod run_vec;
mod runs;
mod steps;
mod trees;

pub use plain::PlainTrees;
pub use steps::Steps;
pub use trees::{SegTrees, TREES};
