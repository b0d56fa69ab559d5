//! Where an allocation looks for one copy of a block, as OpenZFS's `metaslab_alloc_dva` does: a value that is asked what to
//! do next, and told what that gave.
//!
//! To the layer above: a walk stands for its plan, which are the pool's vdevs, a class, the vdev of its rotor and the
//! copies that the block has already, and it is told one step after the other. `next` answers the one thing that the
//! rules say of the plan and of the steps so far (`next`, `IsNext` in `specs/Nexts.antt`): a pick on a vdev with its
//! start, a look at a metaslab, or that there is none left. `picked` and `failed` add the one step that was asked for
//! (`told`), and `looked` counts the metaslabs at which looks failed, each once (`count`).
//!
//! What a pick gives is the class's business, and what a look finds the metaslab's. A metaslab that is not loaded is loaded
//! and looked at again by the caller, and the walk isn't told of it.
#![tactic(auto)]

pub mod laws;
mod marks;
mod next;
mod rounds;
mod route;
mod walk;

pub use next::Next;
pub use walk::Walk;
