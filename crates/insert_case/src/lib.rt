//! One record more: the clusters after it, by a few queries.
//!
//! It stands on `vec_record`, on the definitions and the index of `plain_dbscan`, on the two books
//! and on `update_seed`. [`insert_change`] is promised to lead from books and an index that fit the
//! records, or stand for them, to such for the records with the new one, at no more than the price
//! of the insertion.
#![tactic(auto)]

mod counting;
mod inserting;
mod joining;

pub use inserting::insert_change;
