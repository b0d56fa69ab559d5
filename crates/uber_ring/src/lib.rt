//! The ring of uberblocks, by which a group becomes openable in one write of one byte, and the table of a group.
//!
//! To the store above it promises: a slot that is being written is valid with what it held before or with what is
//! written, at every stop (`write_slot`); the newest group is the greatest of a valid slot (`newest`); a table that was
//! written is read again exactly, and whatever else stands in its place is told with its first cause (`read_table`).
//! What the bytes of a slot, a head and a table mean stands in `specs/`.
#![tactic(auto)]

mod decode;
mod encode;
mod faults;
mod fields;
mod front;
mod head;
mod ring;
mod rows;
mod slot;
mod table;

pub use faults::TableFault;
pub use head::{HeadFault, head_bytes, head_of};
pub use ring::{newest, valid, write_slot};
pub use slot::Uber;
pub use table::{read_table, write_table};
