//! What one lane holds of a pool that other lanes share: its number, and its passes of the cells and of the classes.
//!
//! To the layers above: what a lane does is one list of events, in the lane's own order, each at the gate, at a metaslab or at
//! a class (`specs/Lanes.antt`). `Journey` says that between two moments a lane took just these steps, and `Acted` that they
//! are as a fact says, by what each metaslab and each class was when the pool was opened (`Ground`). That stays, so facts of
//! calls that follow one another join (`laws`).
#![tactic(auto)]

pub mod laws;
mod passes;

pub use passes::LanePasses;
