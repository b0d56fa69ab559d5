//! The store of a pool: its groups on the pool device, each of which opens to what it holds at whatever moment the device
//! is stopped.
//!
//! To the layer above, `open` gives the group that is asked for, or exactly the first cause that the device shows why it
//! does not open, in the order in which causes are told (`opened`, `cause`). `found` gives the units of a metaslab that the
//! group holds, as runs that add up to the number in its row on every device (`runs`, `count`). `rewind` makes the group the
//! only valid one: from its first flush on a stop at each moment leaves it whole and valid, and no group that was not valid
//! before (`after_first`), and then the store is at rest (`at_rest`). `commit` makes the next group: at each moment a stop
//! leaves the group before or the next one as the newest, each group at most two below it finds what it found, and no slot
//! is valid that was not before but that of the next group (`any_moment`); after it a stop leaves the next one (`done`),
//! which holds what the one before held with the batches applied. `create` makes a pool on a device that has none, and
//! writes nothing where one is (`pool`): from its first flush on a stop at each moment leaves no valid slot, or the first
//! group with nothing held (`after_first`).
//!
//! What a group holds is defined once, over the bytes of a stopped device (`Finds`, `specs/Groups.antt`): a unit is held
//! where the words say so that the row of its metaslab names. What opening reads are the kept places of the group
//! (`IsKept`, `specs/Kept.antt`). Bytes elsewhere change neither what it finds nor why it is not opened
//! (`proofs/Keeping.antt`), so a write owes one fact: that it lies outside the kept places. The laws in `laws` say that what a
//! group finds is one thing, and that a device shows one cause, and none where it opens.
#![tactic(auto)]

mod causes;
mod commit_faults;
mod committing;
mod condensing;
mod create_faults;
mod creating;
mod finding;
mod heads;
pub mod laws;
mod laying;
mod opening;
mod rewinding;
mod runs;
mod side_bytes;
mod store;
mod words;

pub use causes::{At, FoundFault, OpenCause, OpenFault};
pub use commit_faults::CommitFault;
pub use create_faults::CreateFault;
pub use creating::create;
pub use opening::open;
pub use store::MetaStore;
