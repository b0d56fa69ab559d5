//! The form of `SegTrees` that costs the logarithm, after OpenZFS's range trees.
//!
//! Each tree is a set of units, kept as its maximal runs. Each run is one node of a pool that all trees share, and is
//! linked into two balanced orders, by place and by size. A call on one tree says which units it has afterwards (`units`),
//! that the nodes of other trees stay (`touches`), and how many nodes were visited (`visits`), in terms of `descent`, the
//! most that one way down into a tree of so many runs visits. `RangeTrees` has thirteen of them, and counts the visits.
#![tactic(auto)]

mod changing;
mod looking;
mod node;
mod seeking;
mod tree;
mod trees;

pub use trees::RangeTrees;
