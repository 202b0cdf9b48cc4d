//! Stores in pages: what a list of pages says as a store, and which pages a save changes.
//!
//! It stands on `page_gate` and `page_layout`, and on what is kept of clusters: `kept_clusters`,
//! `stored_lines`, `stored_tree` and `tree_layout`. [`load`] gives the head, the records and their
//! clusters as the pages have them, or the first check that fails; [`plan_save`] gives exactly the
//! pages that differ or are new after a batch; [`laws`] ties both to the content of a file.
#![tactic(auto)]

mod contents;
pub mod fault;
mod filling;
mod finding;
pub mod laws;
mod laws_saved;
mod layout;
pub mod loaded;
mod loading;
pub mod params;
mod plan;
mod sorted;

pub use fault::StoreFault;
pub use loaded::{Loaded, Places};
pub use loading::load;
pub use params::read_params;
pub use plan::plan_save;

#[cfg(test)]
mod tests;
