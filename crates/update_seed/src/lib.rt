//! Where a change can touch the clusters.
//!
//! It stands on `vec_record`, on the definitions and the index of `plain_dbscan`, on the hashed map
//! of `number_map` and on the two books. The definitions of `specs/` say when books fit the records
//! and when they stand for them, and what a change may cost. [`seeds_in`] is promised to give, for
//! new cores, the clusters that have one, by one query at each of them, and to offer each as an
//! anchor to what is near. [`seeds_out`] is promised to give, for lost cores, their former clusters
//! with the cores near them that are left, by one query at each of them, to set its anchor, and to
//! give the records that hung on a lost core.
#![tactic(auto)]

mod former;
mod found;
mod gathering;
mod groups;
mod labelled;
mod outgoing;
mod seeds;
mod ties;

pub use former::{Former, FormerList, OutSeeds};
pub use groups::{InGroup, InGroups};
pub use outgoing::seeds_out;
pub use seeds::{ask, seeds_in};
