//! The warehouse: records, their clusters and their store, changed by one batch at a time.
//!
//! It stands on every layer below the top call. [`Warehouse::apply`] takes a batch as one step:
//! refused with everything as it was, or committed whole; at every moment of the call a crash
//! leaves the store before the batch or the one after it. The feed is told the events of each batch
//! that is accepted, after its commit. What a batch costs is what its changes cost the clusters that
//! are kept: no batch clusters anew.
#![tactic(auto)]

mod changing;
mod copying;
mod judging;
pub mod laws;
mod receipt;
pub mod refusal;
mod saving;
#[cfg(test)]
mod tests;
pub mod warehouse;

pub use refusal::Refusal;
pub use warehouse::Warehouse;
