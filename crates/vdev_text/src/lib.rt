//! The text by which the vdevs of a new pool are asked for: `CLASS:ASHIFT:UNITS:METASLABS` for each, with a comma between
//! each two.
//!
//! To the layer above it promises that `read_spec` is the inverse of the grammar (`specs/Specs.antt`): a text that asks for
//! vdevs within the limits of a pool gives just these, and any other gives none. It takes no memory.
#![tactic(auto)]

mod spec;
mod totals;
mod vdev;
mod vdevs;

pub use spec::read_spec;
pub use vdevs::Vdevs;
