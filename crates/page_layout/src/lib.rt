//! The bytes of a page of the store: the head page, and body pages.
//!
//! A body page has records, leaves or one inner node. The crate stands on `page_gate`, whose pages
//! it reads and fills, and on `mtree_node`, whose rows are those of leaves and inner nodes. A page
//! is read as a value exactly where it is the written form of that value; else the first field by
//! rising offset that isn't lawful is named. [`read_head`], [`read_body`], [`write_head`] and
//! [`write_body`] carry that promise, and [`laws`] the sentence about their definitions.
//! [`write_slot`], [`write_leaf`] and [`write_inner`] fill a page in place and take no memory.
#![tactic(auto)]

pub mod body;
pub mod fault;
mod field;
pub mod head;
pub mod inner;
pub mod laws;
pub mod leaves;
mod rows;
pub mod slot;
mod spelled;

pub use body::{Body, read_body, write_body};
pub use fault::LayoutFault;
pub use head::{Head, read_head, write_head};
pub use inner::{read_inner, write_inner};
pub use leaves::{LeafSlots, clear_leaves, read_leaves, write_leaf};
pub use slot::{Slot, SlotRows, SlotView, clear_slots, write_slot};

#[cfg(test)]
mod node_tests;
#[cfg(test)]
mod tests;
