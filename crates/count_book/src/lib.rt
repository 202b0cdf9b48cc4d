//! The count of neighbours and the anchor of each record, under its number.
//!
//! It stands on `vec_record` and on the hashed map of `number_map`. [`CountBook`] is promised to
//! be a finite map from numbers to counts and anchors beside `minpts`: each call changes the entry
//! that it names and no other. Every look-up is one in the hashed map, and only `enter` takes
//! memory.
#![tactic(auto)]

mod book;
mod row;
#[cfg(test)]
mod tests;

pub use book::CountBook;
pub use row::Row;
