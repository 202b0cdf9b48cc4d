//! Where a save puts the nodes of a tree in the pages of a store.
//!
//! The crate stands on `node_places`, which gives places, and on the shapes of `mtree_node`.
//! [`lay`] is promised to give the layout of the definition: a node keeps its place where it can,
//! the others take the lowest free ones, and new pages come behind the last. [`refer`] puts the
//! references of the children into the shapes. [`laws`] says that pages filled so hold each node at
//! its reference and nothing else, and how many pages there are.
#![tactic(auto)]

pub mod laws;
mod laying;
mod rows;
#[cfg(test)]
mod tests;

pub use laying::{Layout, lay};
pub use rows::{inner_at, leaf_at, refer};
