//! The nodes of the tree, and what a tree of them is.
//!
//! A node is a leaf with numbered vectors, or an inner node whose entries each have a routing
//! object, a covering radius and a child (Ciaccia and others). The definitions of `specs/` say
//! which trees are well formed, what records a tree holds, and what a range query over it costs.
//! [`height`] is promised to give the number of levels, [`flatten`] to list the nodes in preorder,
//! [`build`] to make the tree of such a list or name the first place where it is none, and
//! [`retag`] to set the tags in preorder and nothing else. The crate stands on `vec_record` and
//! `items`.
#![tactic(auto)]

#[cfg(test)]
mod build_tests;
mod building;
mod flattening;
pub mod laws;
mod leaf_entries;
mod levels;
mod node;
mod progress;
mod retagging;
mod shape;
#[cfg(test)]
mod shape_tests;
#[cfg(test)]
mod tests;

pub use building::build;
pub use flattening::flatten;
pub use leaf_entries::LeafEntries;
pub use levels::height;
pub use node::{InnerEntry, LeafEntry, Node};
pub use retagging::retag;
pub use shape::{BadPlace, BadWhat, BuildFault, InnerShape, LeafShape, Shape, Shapes};
