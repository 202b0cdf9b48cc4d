//! The nodes of a tree that body pages hold, listed from the root by their references.
//!
//! A leaf's reference is 64 for each page and its slot, an inner node's 64 for each page. The crate
//! knows no bytes: it takes body pages as values ([`NodePage`]) and lists the nodes below a root as
//! the shapes that `mtree_node::build` takes, with the reference of each. [`list_nodes`] is
//! promised to give the list of the definition: a child whose reference is refused gets a place
//! past the list, and the used places that aren't reached come last. [`place_of`] says to which
//! page and offset a bad place of such a list belongs, and [`first_used`] where the first used
//! place of all pages lies. The laws say that a tree that was laid in pages comes back, and that
//! pages whose list is a tree hold that tree. The crate stands on `mtree_node` and `items`.
#![tactic(auto)]

mod faults;
pub mod laws;
mod listing;
mod pages;
mod progress;
#[cfg(test)]
mod tests;
mod walking;

pub use faults::{first_used, place_of};
pub use listing::{Listed, is_root, list_nodes};
pub use pages::NodePage;
