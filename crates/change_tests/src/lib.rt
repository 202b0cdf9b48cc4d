//! Changes of records, one after the other, over the tree and the two books.
//!
//! After each change the books must say what plain clustering says of the records then present, and
//! the events must be those that are due; groups that are grown from seeds must be classes. The
//! tests stand in a crate of their own, above the tree and the crates of the changes, which know no
//! tree.
#![tactic(auto)]

#[cfg(test)]
mod tests;
