//! The lanes of a pool: one to sixteen threads that run the commands of a file over the cells, the classes and the keeper of one
//! store, each lane its own commands in their order.
//!
//! To the layer above: `run_lanes` hands back the journals of the closed pool, the device, and one reply a command. Whatever the
//! lanes' timing, each journal is legal, holds each lane's steps once and in order, and backs its replies line by line; and
//! wherever the device was stopped, each retained group opens and finds what the closed journals say that it holds
//! (`specs/Lanes.antt`). After want of memory there are no replies, and so nothing is said of a lane's steps; the journals are
//! legal all the same, and the device opens as they say.
#![tactic(auto)]

mod lanes;
mod merging;
mod returning;
mod rooms;
mod running;
mod telling;

pub use lanes::{Lanes, run_lanes};
