//! Books from stored lines, and the line of each record in books.
//!
//! A stored line is what a slot keeps of a record beside its vector: its number, the count of its
//! neighbours, its anchor and its label. The crate stands on the two books and on the hashed map
//! of `number_map`. [`books`] is promised to give exactly the books that lawful lines say, or to
//! name the first line whose anchor is no core or whose label leads no cluster. [`line_of`] is
//! promised to give back the line of each number. [`laws`] says what form the books have, and that
//! books come back from their lines.
#![tactic(auto)]

#[cfg(test)]
mod asked;
mod checking;
mod fault;
mod grouping;
pub mod laws;
mod leading;
mod line;
mod pair;
mod reading;
#[cfg(test)]
mod tests;

pub use fault::{LinesFault, Loose};
pub use line::{Line, line_of};
pub use pair::Books;
pub use reading::books;
