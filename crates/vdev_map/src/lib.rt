//! Where everything lies on the pool device, and what a layout and the table of a group may be.
//!
//! The device has a head, a ring of 128 slots, eight table slots, the log slots, and then the words of each metaslab, in
//! order of vdev and index. `place_of` and `len_of` (`specs/Places.antt`) name all of these, and two different things
//! never overlap. A pool has one of two forms: in the first the words of a group lie whole in one of eight slots of the
//! metaslab, in the second a metaslab has two sides, which are written in turn, and each group has a log.
#![tactic(auto)]

mod ids;
mod layout;
mod limits;
mod places;
mod rows;
mod table;

pub use ids::{id_of, number_of};
pub use layout::{Batch, Form, Head, Layout, LayoutFault, Part};
pub use limits::check;
pub use places::{
    Piece, Span, log_len, log_place, room_of, row_place, slot_place, span_of, table_place,
};
pub use table::{LogRow, MsRow, Table};
