//! The clusters of records, kept from change to change.
//!
//! [`Clusters`] holds a tree of the records and the two books as one value. It is promised to lead
//! from clusters that stand for the records to clusters that stand for the records after a change,
//! with exactly the events of the change, at no more than its price; and to answer what the marks
//! of the records say. It stands on the tree of `mtree_index`, on the books, and on `insert_case`
//! and `delete_case`, which change them.
#![tactic(auto)]

mod asking;
mod building;
mod clusters;
mod looking;
mod parts;
#[cfg(test)]
mod tests;

pub use building::{Built, build};
pub use clusters::Clusters;
