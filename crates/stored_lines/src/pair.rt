//! The two books as one value.

use count_book::CountBook;
use label_book::LabelBook;

/// The two books: counts and anchors, and labels.
#[derive(Drop)]
pub struct Books {
    pub counts: CountBook,
    pub labels: LabelBook,
}
