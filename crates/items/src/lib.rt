//! A list and a box that contracts see as the list of their items and as the value.
//!
//! A tree whose nodes hold these two has no pointer and no room in what contracts see of it, so a
//! clause can say that it equals a tree that a definition computes. [`Items`] stands for a vector
//! and [`Boxed`] for a box. Both give their parts behind `&mut`, for work in place. The crate
//! stands on no other crate.
#![tactic(auto)]

mod boxed;
mod list;
#[cfg(test)]
mod tests;

pub use boxed::Boxed;
pub use list::Items;
