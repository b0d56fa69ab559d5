//! The report of a pool: what a group holds, as a text.
//!
//! To the layer above it promises that `report` hands exactly the report of the store's group to a sink (`printed`): a text
//! that is put together (`specs/Texts.antt`) of the layout, the table's rows, and for each metaslab of the units that its
//! words hold, which give its histogram, its weight and its fragmentation (`IsStats`, `specs/Stats.antt`). The device is
//! only read (`rests`), and each refusal has its cause: the sink's count of faults or the device's rose (`write`, `device`),
//! or the words of this metaslab are the first that show this damage (`damaged`).
//!
//! The runs of one metaslab at a time are in memory, and none of the text.
#![tactic(auto)]

mod classes;
mod faults;
mod fragmentation;
mod gaps;
mod lines;
mod placed;
mod printing;
mod stats;

pub use faults::ReportFault;
pub use printing::report;
