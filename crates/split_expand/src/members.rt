//! The cores that are left of a cluster, looked up in the books.

ghost use Rattle.std.specs.Prelude.{◌≡◌, ◌↔◌, Some, IsTrue};
ghost use Rattle.std.specs.FinMap as map;
ghost use Rattle.label_book.specs.Labels.{IsMember};
ghost use Rattle.split_expand.specs.Remaining.{remaining};

use count_book::CountBook;
use label_book::LabelBook;
use std::marker::Model;
use vec_record::Number;

/// The cores that are left of a cluster, seen as a list that rises. They are looked up in the two
/// books, and no list of them is made.
#[derive(Drop)]
pub(crate) struct Members<'a> {
    counts: &'a CountBook,
    labels: &'a LabelBook,
    label: Number,
}

impl<'a> Model for Members<'a> {
    ghost use Rattle.std.specs.Prelude.{List, ℕ};
    ghost use Rattle.split_expand.specs.Remaining.{remaining};

    ghost Value = { List ℕ };

    ghost view = { λ m. remaining m.counts.now m.labels.now m.label };
}

impl<'a> Members<'a> {
    /// The numbers with this label that are core by their counts.
    pub(crate) fn new(counts: &'a CountBook, labels: &'a LabelBook, label: Number) -> Members<'a>
        ensures { result ≡ remaining counts.now labels.now label }
    {
        Members {
            counts,
            labels,
            label,
        }
    }

    /// True exactly where the number is one of them.
    pub(crate) fn has(&self, number: Number) -> bool
        ensures { IsTrue result ↔ IsMember self.now number }
    {
        self.counts.is_core(number) && has_label(self.labels, number, self.label)
    }
}

// True exactly where the number has this label.
fn has_label(labels: &LabelBook, number: Number, label: Number) -> bool
    ensures { IsTrue result ↔ (map.get labels.now number ≡ Some label) }
{
    match labels.label_of(number) {
        Some(other) => other == label,
        None => false,
    }
}
