//! The tree: an M-tree over numbered vectors.
//!
//! [`MTree`] is an index by distance (Ciaccia and others). Its type keeps the tree well formed. A
//! range query gives exactly the numbers within its radius, and counts exactly the distances that
//! the two pruning tests leave. The tree after an insertion or a removal is one function of the
//! tree before, which `specs/` states on plain trees: a vector goes below the nearest entry whose
//! radius isn't exceeded, else below the one whose radius grows least, and a node of 31 entries is
//! split; a node that is left with 6 joins a sibling. It stands on `vec_record`, `plain_dbscan`
//! for the trait `RangeIndex`, `mtree_split` for the parting, and `items` and `mtree_node` for the
//! nodes.
#![tactic(auto)]

mod entry;
#[cfg(test)]
mod expected;
mod insertion;
mod joining;
pub mod laws;
mod pruning;
mod query;
#[cfg(test)]
mod query_tests;
mod removal;
mod settle;
#[cfg(test)]
mod shape_tests;
mod shrinking;
mod split;
#[cfg(test)]
mod tests;
pub mod tree;
mod under;

pub use tree::MTree;
