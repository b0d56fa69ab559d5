//! Blocks: what a client of the pool is granted, copies of a size in a class, and gives back.
//!
//! To the layer above: each call is a list of the lane's steps in all journals, as `AllocLine` and `FreeLine` say
//! (`specs/Allocs.antt`, `specs/Frees.antt`): which metaslabs it looked at, in which order and why (`Walks`), which units it
//! was granted, what it took back, and the exact cause of each refusal, by the journals as its turns found them. So it holds
//! whatever other lanes did meanwhile. The open group is held from the first act to the last.
#![tactic(auto)]

mod allocs;
mod answers;
mod frees;
mod looks;
mod places;
mod placing;
mod turns;
mod undoing;

pub use allocs::alloc;
pub use answers::{AllocFault, FreeFault};
pub use frees::{free_block, free_seg};
