//! The clusters of the cores, and the label of each.
//!
//! It stands on `vec_record`, on the hashed map of `number_map` and on `slab`. [`LabelBook`] is
//! promised to be a finite map from cores to labels in which a label is the least of its members.
//! A core's label is written once for its cluster: a core knows its cluster and its place in the
//! cluster's list, and a cluster knows its label. So joining moves the smaller lists alone, and
//! parting touches the cores that leave alone. [`laws`] says what holds of every book, also after
//! want of memory.
#![tactic(auto)]

#[cfg(test)]
mod asked;
mod book;
mod cluster;
mod growing;
pub mod laws;
mod parting;
#[cfg(test)]
mod plain;
#[cfg(test)]
mod tests;

pub use book::LabelBook;
