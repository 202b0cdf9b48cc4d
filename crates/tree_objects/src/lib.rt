//! What a tree's vectors and routing objects keep through changes: laws, and no code that works.
//!
//! A tree's vectors came in as records' vectors, and its routing objects are vectors that were in
//! it. So a property of all of them stays while it holds of each vector that comes in. The crate
//! stands on `mtree_node` and `mtree_index`, whose trees it speaks of. Each function of [`laws`]
//! carries one promise.
#![tactic(auto)]

pub mod laws;
