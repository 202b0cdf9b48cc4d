//! Tables of lines, with the first that is loose.

use crate::asked::are_lines;
use crate::{Books, Line, LinesFault, Loose, books, line_of};
use std::alloc::{AllocError, Global};
use std::test::Fail;

/// Number, count, anchor and label of a record.
type Row = (u32, u32, u32, u32);

/// What came of lines.
#[derive(Clone, Copy, Debug, PartialEq, Eq)]
enum Outcome {
    Unlawful,
    First(Loose),
    Changed,
    Back,
}

use Outcome::{Back, First};

/// How many make a core, lines, and what comes of them.
const ROWS: [(u32, &[Row], Outcome); 8] = [
    (2, &[], Back),
    // a record alone
    (2, &[(1, 1, 0, 0)], Back),
    // two cores
    (2, &[(1, 2, 0, 1), (2, 2, 0, 1)], Back),
    // two clusters, one of them listed from behind, and a record that hangs on a core
    (
        3,
        &[(9, 4, 0, 5), (4, 2, 9, 0), (7, 3, 0, 7), (5, 3, 0, 5)],
        Back,
    ),
    // an anchor that names a record that isn't core, and none
    (
        3,
        &[(4, 2, 5, 0), (5, 2, 0, 0), (7, 3, 0, 7)],
        First(Loose::Anchor(0)),
    ),
    (3, &[(7, 3, 0, 7), (4, 2, 9, 0)], First(Loose::Anchor(1))),
    // a label that names a core with another label, and none
    (
        2,
        &[(1, 2, 0, 1), (2, 2, 0, 1), (3, 2, 0, 2), (4, 1, 5, 0)],
        First(Loose::Label(2)),
    ),
    (2, &[(9, 2, 0, 8)], First(Loose::Label(0))),
];

fn lines_of(alloc: Global, rows: &[Row]) -> Result<Vec<Line>, AllocError> {
    let mut lines = Vec::new(alloc);
    for (number, count, anchor, label) in rows {
        lines.push(Line {
            number: *number,
            count: *count,
            anchor: *anchor,
            label: *label,
        })?;
    }
    Ok(lines)
}

/// Whether the books give each line back.
fn come_back(books: &Books, lines: &[Line]) -> bool {
    for line in lines {
        if line_of(&books.counts, &books.labels, line.number) != *line {
            return false;
        }
    }
    true
}

fn outcome_of(alloc: Global, minpts: u32, rows: &[Row]) -> Result<Outcome, AllocError> {
    let lines = lines_of(alloc, rows)?;
    if !are_lines(minpts, &lines) {
        return Ok(Outcome::Unlawful);
    }
    match books(alloc, minpts, &lines) {
        Ok(read) => {
            if come_back(&read, &lines) {
                Ok(Outcome::Back)
            } else {
                Ok(Outcome::Changed)
            }
        }
        Err(LinesFault::Loose(loose)) => Ok(Outcome::First(loose)),
        Err(LinesFault::Memory) => Err(AllocError),
    }
}

#[test]
fn lines_come_back_or_the_first_loose_one_is_named(rt: HostRuntime) -> Result<(), Fail> {
    for (minpts, rows, outcome) in ROWS {
        assert_eq!(rt; outcome_of(rt.alloc(), minpts, rows)?, outcome);
    }
    Ok(())
}
