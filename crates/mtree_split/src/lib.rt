//! Promotion and parting: how an overfull node of the tree is split.
//!
//! A split promotes two of the node's entries, and each of the two takes its nearest entries in
//! turns. [`choose`] tries every pair and is promised to give the one whose greater radius is
//! least, with the sides and radii of its balanced parting. This is the M-tree's rule mM_RAD with
//! balanced parting (Ciaccia and others). The crate stands on no other crate and takes no memory.
#![tactic(auto)]

pub mod laws;
mod pair;
mod side;
#[cfg(test)]
mod tests;

pub use pair::{Parting, choose};
