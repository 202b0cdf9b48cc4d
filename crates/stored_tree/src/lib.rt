//! The tree that the body pages of a store hold.
//!
//! The crate stands on the list of nodes of `node_refs` and on the tree of `mtree_index`, and knows
//! no bytes. [`read_tree`] is promised to give exactly the tree that the definition says, over
//! exactly the records, or the page and the offset of the first field that fails, and to compute at
//! most eight distances for each record. [`laws`] says that a tree that was laid in pages is read
//! as that tree again.
#![tactic(auto)]

mod fault;
pub mod laws;
mod reading;
#[cfg(test)]
mod tests;

pub use fault::TreeFault;
pub use reading::read_tree;
