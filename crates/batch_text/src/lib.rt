//! Batches of changes, read from CSV text and checked against the records that they change.
//!
//! Stands on the records of `vec_record` and on the ported crate `csv`. [`read_batch`] is promised
//! to give exactly what the records of the whole body say, by the definitions in `specs/`;
//! [`check_batch`] answers the first change that cannot apply, [`apply_change`] applies one that
//! can, and [`apply_all`] applies changes that passed the check.
#![tactic(auto)]

pub mod apply;
pub mod check;
pub mod faults;
mod fields;
pub mod number;
pub mod read;
mod record;
mod rows;
#[cfg(test)]
mod tests;

pub use apply::{apply_all, apply_change};
pub use check::check_batch;
pub use faults::{CheckFault, LineFault};
pub use read::{ReadBatch, read_batch};
