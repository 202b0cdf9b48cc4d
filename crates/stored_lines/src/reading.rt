//! The books of lines.

ghost use Rattle.std.specs.Prelude.{◌≡◌, None, IfOk, OnOk, IfErr, map};
ghost use Rattle.stored_lines.specs.Lines.{AreOnce, AreLines, number_of, rows_of, labels_of};
ghost use Rattle.stored_lines.specs.Lines.{first_loose, IsFault, named_by};

use crate::checking::loose_line;
use crate::fault::LinesFault;
use crate::leading::led;
use crate::line::Line;
use crate::pair::Books;
use count_book::CountBook;
use std::alloc::{AllocError, Global};
use vec_record::Number;

/// The books that the lines say, or the first line that names what it mustn't.
pub fn books(alloc: Global, minpts: u32, lines: &[Line]) -> Result<Books, LinesFault>
    requires { AreLines minpts lines.now }
    ensures counts { IfOk result (λ b. b.counts
        ≡ record { minpts = minpts; rows = rows_of lines.now }) }
    ensures labels { IfOk result (λ b. b.labels ≡ labels_of minpts lines.now) }
    ensures ok { OnOk result (first_loose minpts lines.now ≡ None) }
    ensures fault { IfErr result (IsFault minpts lines.now) }
{
    let counts = counted(alloc, minpts, lines)?;
    let labels = led(alloc, minpts, lines)?;
    match loose_line(&counts, &labels, lines) {
        Some(loose) => Err(LinesFault::Loose(loose)),
        None => Ok(Books { counts, labels }),
    }
}

// The counts and anchors of the lines.
fn counted(alloc: Global, minpts: u32, lines: &[Line]) -> Result<CountBook, AllocError>
    requires { AreOnce (map number_of lines.now) }
    ensures { IfOk result (λ b. b ≡ record { minpts = minpts; rows = rows_of lines.now }) }
{
    let mut counts = CountBook::new(alloc, minpts);
    for i in 0..lines.len() {
        let line = lines[i];
        counts.enter(line.number, line.count, named(line.anchor))?;
    }
    Ok(counts)
}

// A number, and none for 0.
fn named(number: Number) -> Option<Number>
    ensures { result ≡ named_by number }
{
    if number == 0 { None } else { Some(number) }
}
