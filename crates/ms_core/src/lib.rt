//! One metaslab: what its pool opened with, the journal of what was done since, and its vacant space.
//!
//! To the layer above it promises that the journal is a legal history at every moment (handed out by `into_journal`,
//! `legal`), that each call notes exactly what it did, and that each answer follows from the journal alone.
//! `specs/State.antt` says what a contract sees of a metaslab, over any `SegTrees`; `specs/Mirrors.antt` that its
//! trees are the sets of units that the journal names.
//!
//! `grant` takes just the fit of the vacant units at the journal's cursor (`granted`, `free`, `count`), notes it
//! (`grant_note`), answers none only where no so many vacant units stand in a row (`missed`, `miss_note`), and
//! refuses exactly where `late`, `not_loaded` and `taken` say. `free` notes exactly the frees that the model allows
//! (`freed`, `note`), and names the lowest unit that is not granted in a group of at most the free's, exactly where
//! there is one (`not_live`, `taken`); `unalloc` does the same for what this lane was granted in this group
//! (`taken_back`). A refusal changes nothing (`err`). `collect` gathers exactly what the group changed, as maximal
//! runs (`allocs`, `frees`), or answers `Short` exactly where the buffer is too small (`short`, `fits`). `settle`
//! makes vacant what was freed two groups before, and always succeeds; it and `load` note what they did. `counts` are
//! the totals of the journal, and `weight` the weight of its vacant units.
//!
//! Memory is taken ahead, by `Metaslab::ready` and `RunBuf::reserve`; the actions after them take none. Costs are
//! told and not proved. Workers and unloading are not made yet.
#![tactic(auto)]

mod buffer;
mod faults;
mod free_space;
mod holding;
mod kept;
mod looking;
mod metaslab;
mod stepping;
mod tree;
mod walking;

pub use buffer::RunBuf;
pub use faults::{Counts, MsFault};
pub use kept::Standing;
pub use metaslab::Metaslab;
