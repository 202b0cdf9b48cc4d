//! The places that a save gives to records and to the nodes of a tree, in the pages of a store.
//!
//! It stands on `vec_record` alone and knows pages by their kinds only. [`record_slots`],
//! [`node_slots`] and [`kinds_after`] give what stands in the slots after a save and the pages that
//! are added for it, and [`refs_after`] the references of the nodes; [`laws`] says that each record
//! and each node stands in exactly one slot, and that no two nodes share a reference.
#![tactic(auto)]

mod after;
mod filling;
pub mod laws;
mod nodes;
mod records;
mod refs;
#[cfg(test)]
mod tests;

pub use after::{kinds_after, refs_after};
pub use nodes::{NodeSlots, Tagged, node_slots};
pub use records::record_slots;
