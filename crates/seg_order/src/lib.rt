//! One balanced order (AVL) over the nodes of a pool.
//!
//! To the layer above an order over a pool is the list of its nodes, sorted. The links of the order lie in the nodes, so
//! a pool can have several orders over the same nodes, each with links of its own, and a change of one leaves the others.
//! No call takes memory. Each call counts the nodes that its descent visits.
#![tactic(auto)]

mod joining;
mod links;
mod lowering;
mod order;
mod raising;
mod turning;

pub use links::{Links, Side};
pub use order::{Order, SegOrder};
