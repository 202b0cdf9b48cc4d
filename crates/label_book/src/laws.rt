//! What holds of every label book. A law is the contract of a function that does nothing.

ghost use Rattle.label_book.specs.Labels.{HasLeast};

use crate::LabelBook;

/// Each label is the least of its members and one of them, whatever was called, and after want of
/// memory too.
pub fn labels_are_least(book: &LabelBook)
    ensures { HasLeast book.now }
{
    let _ = &book.places;
}
