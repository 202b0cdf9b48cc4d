//! Walks over shapes and trees, seen under two distances.
//!
//! A store keeps a tree under one distance, and a program may compute another that agrees with it
//! on all vectors of the store's width. [`laws`] is promised to say that such distances lead to the
//! same walk, the same first failing place and the same trees. The crate stands on the definitions
//! of `mtree_node` and has no code of its own.
#![tactic(auto)]

pub mod laws;
