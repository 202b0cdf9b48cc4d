//! One record less: the clusters after it, by a few queries.
//!
//! It stands on `vec_record`, on the definitions and the index of `plain_dbscan`, on the two books,
//! on `update_seed` and on `split_expand`. [`delete_change`] is promised to lead from books and an
//! index that fit the records, or stand for them, to such for the records without the one, at no
//! more than the price of the deletion, and to tell exactly its events.
#![tactic(auto)]

mod counting;
mod deleting;
mod hanging;
mod parting;
mod scene;

pub use deleting::delete_change;
