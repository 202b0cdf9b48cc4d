//! Tables of clusters that are founded, joined and parted, beside a plain table of labels.

use crate::LabelBook;
use crate::asked::{may_add, may_join, may_part};
use crate::plain::Plain;
use std::alloc::{AllocError, Global};
use std::test::Fail;
use vec_record::{Groups, Number, Numbers};

type List = &'static [Number];

/// A call, and what it is given.
enum Step {
    Found(List),
    Join(List, List),
    Part(Number, List, &'static [List]),
}

use Step::{Found, Join, Part};

fn numbers(alloc: Global, items: &[Number]) -> Result<Numbers, AllocError> {
    let mut list = Numbers::new(alloc);
    for item in items {
        list.push(*item)?;
    }
    Ok(list)
}

/// Founds a cluster. False where the book may not be asked so, or answers another label.
fn found(book: &mut LabelBook, plain: &mut Plain, cores: List) -> Result<bool, AllocError> {
    let list = numbers(book.alloc, cores)?;
    if list.len() == 0 {
        return Ok(false);
    }
    if !may_add(book, &list) {
        return Ok(false);
    }
    Ok(book.found(&list)? == plain.found(cores))
}

/// Joins clusters. False where the book may not be asked so, or answers another label.
fn join(
    book: &mut LabelBook,
    plain: &mut Plain,
    labels: List,
    cores: List,
) -> Result<bool, AllocError> {
    let old = numbers(book.alloc, labels)?;
    let added = numbers(book.alloc, cores)?;
    if !may_join(book, &old) {
        return Ok(false);
    }
    if !may_add(book, &added) {
        return Ok(false);
    }
    Ok(book.join(&old, &added)? == plain.join(labels, cores))
}

/// Parts a cluster. False where the book may not be asked so, or answers other labels.
fn part(
    book: &mut LabelBook,
    plain: &mut Plain,
    label: Number,
    lost: List,
    groups: &[List],
) -> Result<bool, AllocError> {
    let gone = numbers(book.alloc, lost)?;
    let mut parts = Groups::new(book.alloc);
    for group in groups {
        parts.push(numbers(book.alloc, group)?)?;
    }
    if !may_part(book, label, &gone, &parts) {
        return Ok(false);
    }
    let labels = book.part(label, &gone, &parts)?;
    let before = *plain;
    plain.part(label, lost, groups);
    Ok(plain.has_labels(&before, label, labels.as_slice()))
}

/// Does a step on both. False where they differ, or where after want of memory some label isn't the
/// least of its members.
fn agree(book: &mut LabelBook, plain: &mut Plain, step: &Step) -> Result<bool, AllocError> {
    let outcome = match step {
        Found(cores) => found(book, plain, cores),
        Join(labels, cores) => join(book, plain, labels, cores),
        Part(label, lost, groups) => part(book, plain, *label, lost, groups),
    };
    match outcome {
        Ok(same) => Ok(same && plain.is_seen(book)),
        Err(e) => {
            let seen = Plain::of(book);
            if seen.has_least() && seen.is_seen(book) {
                Err(e)
            } else {
                Ok(false)
            }
        }
    }
}

/// The steps of the engine on small sets of records on a line, and the labels of 1 to 15 in the
/// end.
const ROWS: [(&[Step], [Number; 16]); 7] = [
    // five in a row, all core; the middle one is deleted
    (
        &[
            Found(&[1, 2]),
            Join(&[1], &[3]),
            Join(&[1], &[4]),
            Join(&[1], &[5]),
            Part(1, &[3], &[&[1, 2]]),
        ],
        [0, 1, 1, 0, 4, 4, 0, 0, 0, 0, 0, 0, 0, 0, 0, 0],
    ),
    // the same where one neighbour more is wanted: no core is left
    (
        &[
            Found(&[2]),
            Join(&[2], &[3]),
            Join(&[2], &[4]),
            Part(2, &[2, 3, 4], &[]),
        ],
        [0; 16],
    ),
    // two pairs, and the one between them comes last
    (
        &[Found(&[1, 2]), Found(&[4, 5]), Join(&[1, 4], &[3])],
        [0, 1, 1, 1, 1, 1, 0, 0, 0, 0, 0, 0, 0, 0, 0, 0],
    ),
    // a record that isn't core makes two cores
    (
        &[Found(&[3]), Found(&[4])],
        [0, 0, 0, 3, 4, 0, 0, 0, 0, 0, 0, 0, 0, 0, 0, 0],
    ),
    // and its deletion ends both clusters
    (
        &[
            Found(&[3]),
            Found(&[4]),
            Part(3, &[3], &[]),
            Part(4, &[4], &[]),
        ],
        [0; 16],
    ),
    // or the deletion of another ends one
    (
        &[Found(&[3]), Found(&[4]), Part(3, &[3], &[])],
        [0, 0, 0, 0, 4, 0, 0, 0, 0, 0, 0, 0, 0, 0, 0, 0],
    ),
    // the least of three is deleted
    (
        &[Found(&[1, 2]), Join(&[1], &[3]), Part(1, &[1], &[])],
        [0, 0, 2, 2, 0, 0, 0, 0, 0, 0, 0, 0, 0, 0, 0, 0],
    ),
];

/// Clusters that lose their greatest, all but one or nothing, part in three, and join with two new
/// cores.
const CASES: [(&[Step], [Number; 16]); 6] = [
    (
        &[Found(&[2, 5, 3]), Part(2, &[5], &[])],
        [0, 0, 2, 2, 0, 0, 0, 0, 0, 0, 0, 0, 0, 0, 0, 0],
    ),
    (
        &[Found(&[4, 2, 5, 3]), Part(2, &[4, 2, 3], &[])],
        [0, 0, 0, 0, 0, 5, 0, 0, 0, 0, 0, 0, 0, 0, 0, 0],
    ),
    (
        &[Found(&[4, 2]), Part(2, &[], &[])],
        [0, 0, 2, 0, 2, 0, 0, 0, 0, 0, 0, 0, 0, 0, 0, 0],
    ),
    (
        &[
            Found(&[9, 1, 8, 2, 7, 3, 6, 4, 5]),
            Part(1, &[5], &[&[4, 1], &[8, 2], &[7]]),
        ],
        [0, 1, 2, 3, 1, 0, 3, 7, 2, 3, 0, 0, 0, 0, 0, 0],
    ),
    (
        &[Found(&[3, 1, 2]), Part(1, &[], &[&[3], &[], &[2, 1]])],
        [0, 1, 1, 3, 0, 0, 0, 0, 0, 0, 0, 0, 0, 0, 0, 0],
    ),
    (
        &[
            Found(&[3, 4]),
            Found(&[5, 7, 6]),
            Found(&[8]),
            Found(&[10, 9]),
            Found(&[14]),
            Join(&[5, 3, 9, 8], &[12, 2]),
        ],
        [0, 0, 2, 2, 2, 2, 2, 2, 2, 2, 2, 0, 2, 0, 14, 0],
    ),
];

#[test]
fn rows_as_worked(rt: HostRuntime) -> Result<(), Fail> {
    for (steps, labels) in ROWS {
        let mut book = LabelBook::new(rt.alloc());
        let mut plain = Plain::new();
        for step in steps {
            assert!(rt; agree(&mut book, &mut plain, step)?);
        }
        assert_eq!(rt; plain.labels, labels);
    }
    Ok(())
}

#[test]
fn clusters_join_and_part(rt: HostRuntime) -> Result<(), Fail> {
    for (steps, labels) in CASES {
        let mut book = LabelBook::new(rt.alloc());
        let mut plain = Plain::new();
        for step in steps {
            assert!(rt; agree(&mut book, &mut plain, step)?);
        }
        assert_eq!(rt; plain.labels, labels);
    }
    Ok(())
}

/// A short history in which lists and map grow.
const GROWTHS: [Step; 5] = [
    Found(&[3, 4]),
    Found(&[5, 6, 7]),
    Found(&[9]),
    Join(&[3, 5, 9], &[2, 8]),
    Part(2, &[2], &[&[3, 5], &[6]]),
];

#[test]
fn grows_step_by_step(rt: HostRuntime) -> Result<(), Fail> {
    let mut book = LabelBook::new(rt.alloc());
    let mut plain = Plain::new();
    for step in &GROWTHS {
        assert!(rt; agree(&mut book, &mut plain, step)?);
    }
    Ok(())
}
