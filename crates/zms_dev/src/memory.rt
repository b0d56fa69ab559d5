// The forms in memory: each takes all its memory as it is made, and fails just where it was told to.
mod bytes;
mod calls;
mod data;
mod disk;
mod script;
mod stop;
mod streams;

use crate::Meet;
pub use calls::{Call, CallRecord};
pub use data::MemData;
pub use disk::{DiskRoom, MemDisk};
pub use stop::Unflushed;
pub use streams::{MemSink, MemSource};

/// How much an object in memory has room for.
#[derive(Clone, Copy, Debug, PartialEq, Eq)]
pub struct Room {
    /// In bytes.
    pub bytes: usize,
    /// In calls.
    pub calls: usize,
}

/// Lanes that do not wait for each other.
#[derive(Clone, Copy, Debug, PartialEq, Eq)]
pub struct NoMeet;

impl Meet for NoMeet {
    fn here(&self, _lane: u8) {}
}
