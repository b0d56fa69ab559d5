//! The words that every layer of the allocator shares: segments of a metaslab, groups, classes, places on a vdev, the
//! limits of a pool, and the small list types that public fields are made of.
//!
//! Their meaning is in `specs/`: `Segments.antt` says which units a segment covers, `Rounding.antt` how a size in
//! bytes becomes whole units, `Limits.antt` what a pool may have. `units_of` answers the least number of whole units
//! (`units`), and `BadSize` exactly for 0 and above `MAX_BLOCK_SIZE` (`bad`). `Items`, `Text` and `Copies` are lists
//! that contracts see as their items.
//!
//! The fit, cursors, histograms and weights are defined here over sets of units (`Runs.antt`, `Cursors.antt`,
//! `Weights.antt`), apart from how the units are kept. `FreeRuns` is a set of free units that is asked for its
//! maximal runs: its clauses say exactly what each call answers, and when none comes. `PlainRuns` meets them over a
//! list of runs that stand apart.
#![tactic(auto)]

mod blocks;
mod cursors;
mod faults;
mod free_runs;
mod histograms;
mod items;
mod limits;
mod places;
mod plain;
mod rounding;
mod segments;

pub use blocks::{Block, Copies, Dva};
pub use cursors::cursor_place;
pub use faults::{Damage, First, MapCause, MapFault};
pub use free_runs::FreeRuns;
pub use histograms::Histogram;
pub use items::{Items, Text};
pub use limits::{
    AMPLE_BYTES, AMPLE_SHARE, BUCKETS, CURSORS, FIRST_GROUP, GROUPS_END, MAX_ASHIFT,
    MAX_BLOCK_SIZE, MAX_COMMANDS, MAX_COMMANDS_TIMES_METASLABS, MAX_DEVICES, MAX_LANES,
    MAX_TEXT_BYTES, MAX_UNITS, MIN_ASHIFT, MIN_UNITS,
};
pub use places::{Class, MsId, VdevRow};
pub use plain::PlainRuns;
pub use rounding::{BadSize, bytes_of, units_of};
pub use segments::{Group, Seg, unit_count};
