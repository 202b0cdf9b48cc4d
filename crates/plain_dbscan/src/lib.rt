//! What density clusters are, and clustering by all pairs.
//!
//! The definitions of `specs/` say what a neighbourhood, a core, a cluster, a mark and a report
//! are. They look at all pairs of records. [`cluster_plain`] computes the marks from them and is
//! promised to give exactly theirs, for every lawful metric; [`laws`] ties the marks to the
//! relations that a reader believes. [`cases_plain`] gives the events of one change, from the
//! marks before and after it; [`push_growth`] and [`push_decline`] append those of one cluster.
//! [`find_mark`] looks up the mark of a number, and [`names_cluster`] says whether it is that of a
//! cluster's least core. [`RangeIndex`] is what an index by distance is. It stands on
//! `vec_record`.
#![tactic(auto)]

pub mod cases;
mod cores;
pub mod index;
mod labels;
pub mod laws;
pub mod marks;
pub mod plain;
mod points;
mod roots;
mod sizes;

pub use cases::{cases_plain, push_decline, push_growth};
pub use index::RangeIndex;
pub use marks::{Mark, Marks, find_mark, names_cluster};
pub use plain::cluster_plain;
