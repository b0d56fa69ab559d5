//! The outside as the layers above see it, and its forms in memory.
//!
//! `Disk` is the pool device, with the images that a stop at any moment may leave; `Data` is the device of one vdev;
//! `Source` and `Sink` are streams of bytes; `Meet` is where the lanes of a run meet. Each object that can fail
//! counts its faults, so that every `Failed` has a cause outside the program (`cause`, `failed`). Nothing is claimed
//! of the bytes of an object that does not tell them, as a file of the system.
//!
//! `put` writes and flushes: a stop then leaves what a read gives (`durable`), and nothing outside the range is
//! touched, at any moment of the call (`spares`). `read_part` gives the bytes with zeros behind the end, and writes
//! nothing (`part`, `rests`). `read_text` and `write_whole` move whole texts (`text`, `whole`), and a text that was
//! written has met no failed call (`steady`).
//!
//! `MemDisk`, `MemData`, `MemSource` and `MemSink` meet the traits and tell all; `MemDisk::stopped` gives bytes that
//! a stop after any of its calls may leave (`image`, `since`, `how`). The lemmas of `proofs/` on kept and spared
//! places are stated over any set of byte ranges.
#![tactic(auto)]

mod data;
mod disk;
mod failed;
mod filling;
mod meet;
mod memory;
mod runs;
mod stream;
mod texts;

pub use data::Data;
pub use disk::Disk;
pub use failed::Failed;
pub use meet::Meet;
pub use memory::{
    Call, CallRecord, DiskRoom, MemData, MemDisk, MemSink, MemSource, NoMeet, Room, Unflushed,
};
pub use runs::{put, read_part};
pub use stream::{Sink, Source};
pub use texts::{ReadError, read_text, write_whole};
