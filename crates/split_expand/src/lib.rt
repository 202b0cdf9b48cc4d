//! The classes of what is left of a cluster, grown from seeds and left off early.
//!
//! It stands on `vec_record`, on the definitions and the index of `plain_dbscan`, on the two books,
//! on the definitions of `update_seed` and `chain_growth`, and on the sets of `indexmap`.
//! [`expand`] is promised to answer groups that are classes of joined cores over all records,
//! though it asks members of the former cluster alone, and not all of them.
#![tactic(auto)]

mod growing;
mod members;
mod splitting;

pub use splitting::expand;
