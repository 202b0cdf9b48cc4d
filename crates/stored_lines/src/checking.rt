//! The first line that names what it mustn't.

ghost use Rattle.std.specs.Prelude.{◌≡◌, ◌==◌, ◌&&◌, not};
ghost use Rattle.stored_lines.specs.Lines.{loose_at, loose_from};
ghost use Rattle.stored_lines.specs.inside.Steps.{core_in, leads_in};

use crate::fault::Loose;
use crate::line::Line;
use count_book::CountBook;
use label_book::LabelBook;

/// The first line whose anchor is no core in the counts or whose label is no label.
pub(crate) fn loose_line(counts: &CountBook, labels: &LabelBook, lines: &[Line]) -> Option<Loose>
    ensures { result ≡ loose_from (core_in counts.now) (leads_in labels.now) 0 lines.now }
{
    for i in 0..lines.len() {
        let loose = loose_in(counts, labels, i, lines[i]);
        if loose.is_some() {
            return loose;
        }
    }
    None
}

// What a line names that it mustn't.
fn loose_in(counts: &CountBook, labels: &LabelBook, place: usize, line: Line) -> Option<Loose>
    ensures { result ≡ loose_at (core_in counts.now) (leads_in labels.now) place line }
{
    if has_loose_anchor(counts, line) {
        Some(Loose::Anchor(place))
    } else if has_loose_label(labels, line) {
        Some(Loose::Label(place))
    } else {
        None
    }
}

// Whether the anchor isn't 0, and no core.
fn has_loose_anchor(counts: &CountBook, line: Line) -> bool
    ensures { result ≡ (not (line.anchor == 0) && not (core_in counts.now line.anchor)) }
{
    line.anchor != 0 && !counts.is_core(line.anchor)
}

// Whether the label isn't 0, and no label.
fn has_loose_label(labels: &LabelBook, line: Line) -> bool
    ensures { result ≡ (not (line.label == 0) && not (leads_in labels.now line.label)) }
{
    line.label != 0 && labels.label_of(line.label) != Some(line.label)
}
