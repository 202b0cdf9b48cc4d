//! What a test may ask: whether lines are lawful, as a test that runs.

ghost use Rattle.std.specs.Prelude.{◌≡◌, ◌==◌, IsTrue};
ghost use Rattle.std.specs.List.{list_any};
ghost use Rattle.stored_lines.specs.Lines.{IsLine, AreLines};

use crate::line::Line;
use vec_record::Number;

/// Whether the lines are lawful, no two of one number.
pub fn are_lines(minpts: u32, lines: &[Line]) -> bool
    ensures { IsTrue result → AreLines minpts lines.now }
{
    for i in 0..lines.len() {
        if !is_line(minpts, lines[i]) {
            return false;
        }
        if has_number(&lines[..i], lines[i].number) {
            return false;
        }
    }
    true
}

/// Whether a line is lawful.
fn is_line(minpts: u32, line: Line) -> bool
    ensures { IsTrue result → IsLine minpts line }
{
    if line.number == 0 || line.count == 0 {
        return false;
    }
    if minpts <= line.count {
        line.anchor == 0 && line.label != 0 && line.label <= line.number
    } else {
        line.label == 0
    }
}

/// Whether a line has this number.
fn has_number(lines: &[Line], number: Number) -> bool
    ensures { result ≡ list_any (λ line. line.number == number) lines.now }
{
    lines.iter().any(|line| line.number == number)
}
