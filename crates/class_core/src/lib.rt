//! The value of an allocation class: which metaslab an allocation looks at next, after OpenZFS's `metaslab_class_t`.
//!
//! To the layer above: each call answers exactly what the rules of `class_model` say of the journal so far (`picked`,
//! `begin`), and appends exactly one note, of the call and its answer (`noted`); after want of memory nothing changed
//! (`err`). At every time the journal is a legal class journal (`into_journal`, `legal`). What the class was when its pool
//! was opened is read off the layout and the weights alone (`new`, `origin`).
//!
//! The inactive metaslabs of each vdev are kept in an ordered set, by falling weight and rising index, as those of a
//! metaslab group are in OpenZFS's `mg_metaslab_tree`: a pick, a grant and a posted weight cost the logarithm of the
//! vdev's metaslabs. As weights fall in that order, a pick tests its first metaslab alone: where that one is passed over,
//! each one behind it is.
//!
//! It can be kept under a turn (`impl Kept for ClassCell`): it stands for its class, its vdevs and their first weights,
//! and each note needs the right of its lane. Who looks at the metaslab that was picked is not its part.
#![tactic(auto)]

mod cell;
mod group;
mod kept;
mod making;
mod picked;
mod ranking;
mod rotor;

pub use cell::{ClassCell, allocator};
pub use picked::Picked;
