//! What the journal of an allocation class says, and when it is legal: definitions and laws.
//!
//! To the layers above it gives the words for OpenZFS's `metaslab_class`: the weight of each metaslab, the active
//! metaslab of each vdev, allocator and kind of copy, and the rotor over the vdevs, each as a look at the notes so far
//! (`specs/Replay.antt`); which metaslab a pick gives (`specs/Picks.antt`); and when each note may follow those before it
//! (`specs/Legal.antt`). The laws are that a pick has one answer; that a metaslab is active for one pair at most; that what
//! is active or picked is a metaslab of its vdev; that the rotor is a vdev of the class; and that a walk over a vdev visits each metaslab at most once, in falling order, and ends.
#![tactic(auto)]

pub mod laws;
mod origin;

pub use origin::{ClassOrigin, ClassVdev};
