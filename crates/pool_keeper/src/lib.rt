//! The keeper of a pool: one value in a turn, which alone reads and writes the metadata of the pool's metaslabs.
//!
//! It commits one group at a time: what each metaslab says changed up to the group's end is gathered, laid down as one batch of
//! the store, and settled in each metaslab. It remembers of each metaslab what a committed group holds; a commit that stops keeps
//! its first fault, and from then on nothing is committed (the laws `held_stays` and `remembers_at_end` carry this to the
//! journal's end). A lane loads metaslabs by its `LaneKeeper`, which is a loader; what it noted in the keeper's journal says why a
//! load was refused.
//!
//! `sync` is a lane's call: it closes the open group, has the keeper commit it, and posts the weights of the loaded metaslabs.
//! `SyncDid` says which turns it took at the gate, the metaslabs and the classes, and at the keeper, for each answer.
#![tactic(auto)]

mod committing;
mod faults;
mod gathering;
mod keeper;
mod kept;
mod lane_keeper;
pub mod laws;
mod loading;
mod places;
mod settling;
mod syncing;
mod syncs;
mod telling;

pub use faults::SyncFault;
pub use keeper::{Keeper, Start};
pub use lane_keeper::LaneKeeper;
pub use syncs::sync;
