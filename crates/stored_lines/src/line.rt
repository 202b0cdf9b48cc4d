//! A stored line, and the line of a record in books.

ghost use Rattle.std.specs.Prelude.{◌≡◌};
ghost use Rattle.stored_lines.specs.Lines.{line_in};

use count_book::CountBook;
use label_book::LabelBook;
use vec_record::Number;

/// What a slot keeps of a record beside its vector.
#[derive(Clone, Copy, Debug, PartialEq, Eq)]
pub struct Line {
    pub number: Number,
    /// The size of its neighbourhood.
    pub count: u32,
    /// Its anchor, or 0.
    pub anchor: Number,
    /// Its label, or 0.
    pub label: Number,
}

/// The line of a number in books, with 0 for what they don't have. It takes no memory.
pub fn line_of(counts: &CountBook, labels: &LabelBook, number: Number) -> Line
    ensures { result ≡ line_in counts.now labels.now number }
{
    Line {
        number,
        count: counts.count_of(number).unwrap_or(0),
        anchor: counts.anchor_of(number).unwrap_or(0),
        label: labels.label_of(number).unwrap_or(0),
    }
}
