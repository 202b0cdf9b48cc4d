//! How classes of joined cores grow from seeds, step by step, about chains alone.
//!
//! It stands on the chains of `plain_dbscan` and on the lists of `label_book`. The definitions of
//! `specs/` say how few steps lead from one core to another, and which members of a former cluster
//! a split may ask. [`laws`] says that the definition cuts off a part wherever there is a seed.
#![tactic(auto)]

pub mod laws;
