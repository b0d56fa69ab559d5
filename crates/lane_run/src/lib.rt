//! One lane of a pool: its commands in order, each with its reply.
//!
//! To the layer above: `run_lane` takes a lane's passes and its part of the keeper from one state to another, and what it did
//! there, in its own order, is the parts of its commands, one behind the other (`ran`, over `Lines` of `specs/Lines.antt`).
//! Each part is as the answer to its command says, in the words of `pool_alloc` and `pool_keeper`. So it holds whatever other
//! lanes did meanwhile.
#![tactic(auto)]

mod allocs;
mod blocks;
mod frees;
mod lane;
mod loads;
mod replies;
mod syncs;

pub use lane::run_lane;
pub use replies::{Answer, Reply};
