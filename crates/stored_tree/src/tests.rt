//! Trees that pages hold, and the field that is refused where they hold none.

ghost use Rattle.std.specs.Prelude.{◌≡◌, ◌+◌, ◌<◌, ◌≤◌, ◌^◌, length, IfOk};
ghost use Rattle.std.specs.List.{AllByRecursion};
ghost use Rattle.node_refs.specs.Pages.{HasSlots};
ghost use Rattle.node_refs.specs.Laws.{places_in, PageHasObjectsIn};
ghost use Rattle.stored_tree.specs.Laws.{PageHasVectors};

use crate::{TreeFault, read_tree};
use int_metric::L1;
use items::Items;
use mtree_index::MTree;
use mtree_node::LeafShape;
use node_refs::NodePage;
use std::alloc::{AllocError, Global};
use std::marker::Brand;
use std::sync::ledger::{Blank, Ledger};
use std::test::Fail;
use vec_record::{Records, Steps, Vector};

// The records 1, 2 and so on, at most 9, with the vectors 10, 20 and so on.
fn records(alloc: Global, count: u32) -> Result<Records, AllocError>
    ensures { IfOk result (λ records. records.width ≡ 1) }
{
    let mut records = Records::new(alloc, 1);
    for number in 1..count.min(9) + 1 {
        if records.get(number).is_none() {
            let vector = Vector::from_slice(alloc, &[10 * number as u8])?;
            records.insert(number, vector)?;
        }
    }
    Ok(records)
}

fn leaf(alloc: Global, rows: &[(u32, u32)]) -> Result<LeafShape, AllocError> {
    let mut leaf = Items::new(alloc);
    for row in rows {
        leaf.push(*row)?;
    }
    Ok(leaf)
}

// One leaf page, page 2, with these entries in its slots 0 and 1.
fn pages(
    alloc: Global,
    first: &[(u32, u32)],
    second: &[(u32, u32)],
) -> Result<Vec<NodePage>, AllocError>
    ensures few { IfOk result (λ pages. length pages.items + 2 < 2 ^ 26) }
    ensures slots { IfOk result (λ pages. AllByRecursion HasSlots pages.items) }
    ensures room { IfOk result (λ pages. places_in pages.items ≤ 200000) }
    ensures objects { IfOk result
        (λ pages. AllByRecursion (PageHasObjectsIn 1 255) pages.items) }
    ensures vectors { IfOk result (λ pages. AllByRecursion (PageHasVectors 1) pages.items) }
{
    let slots = vec![in alloc; leaf(alloc, first)?, leaf(alloc, second)?]?;
    let page = NodePage::Leaves(Items::from_vec(slots));
    Ok(vec![in alloc; page]?)
}

// A test's row: the height, the root's reference, how many records there are, the entries of both
// slots, and the page and offset that is refused, none where there is a tree.
type Row = (
    u32,
    u32,
    u32,
    &'static [(u32, u32)],
    &'static [(u32, u32)],
    Option<(u32, u32)>,
);

const ROWS: [Row; 9] = [
    // a leaf for the root, in either slot, and the empty tree
    (1, 128, 2, &[(1, 0), (2, 0)], &[], None),
    (1, 129, 3, &[], &[(3, 0), (1, 0), (2, 0)], None),
    (0, 0, 0, &[], &[], None),
    // a number that no record has: entry 1 of slot 0
    (1, 128, 2, &[(1, 0), (7, 0)], &[], Some((2, 40))),
    // a parent distance in the root: entry 1 of slot 1
    (1, 129, 2, &[], &[(1, 0), (2, 5)], Some((2, 300))),
    // a root's reference that names a free slot
    (1, 129, 2, &[(1, 0), (2, 0)], &[], Some((1, 36))),
    // a record that no entry names
    (1, 128, 3, &[(1, 0), (2, 0)], &[], Some((1, 36))),
    // a leaf that isn't reached, and one of an empty tree
    (1, 128, 1, &[(1, 0)], &[(2, 0)], Some((2, 272))),
    (0, 0, 0, &[], &[(1, 0)], Some((2, 272))),
];

// What becomes of a row: the field that is refused, none where there is a tree of the height, and
// 0, 0 where none of it is asked.
fn found<L: Ledger>(
    alloc: Global,
    row: &Row,
    steps: &mut Steps<L>,
) -> Result<Option<(u32, u32)>, AllocError> {
    let height = row.0.min(6);
    let records = records(alloc, row.2)?;
    let pages = pages(alloc, row.3, row.4)?;
    let _ = records.width();
    if (height == 0) != (records.len() == 0) {
        return Ok(Some((0, 0)));
    }
    let read: Result<MTree<L1>, TreeFault> = read_tree(
        alloc, height, row.1, &pages, &records, steps,
    );
    match read {
        Ok(tree) => Ok(if tree.height() == height {
            None
        } else {
            Some((0, 0))
        }),
        Err(TreeFault::Damaged { page, offset }) => Ok(Some((page, offset))),
        Err(TreeFault::Memory) => Err(AllocError),
    }
}

// How many of the rows become what they are to.
fn count_met<L: Ledger>(rt: &HostRuntime, blank: Blank) -> Result<usize, AllocError>
    requires name { blank.name ≡ L.name }
    requires parts { blank.parts ≡ L.parts }
    requires some { 0 < blank.parts }
{
    let mut steps = Steps::<L>::new(rt, blank);
    let mut count = 0usize;
    for row in &ROWS {
        if found(rt.alloc(), row, &mut steps)? == row.5 {
            count = count.saturating_add(1);
        }
    }
    Ok(count)
}

fn met(rt: &HostRuntime) -> Result<usize, AllocError> {
    count_met::<Brand>(rt, Blank::new(1))
}

#[test]
fn trees_are_read_and_damage_is_named(rt: HostRuntime) -> Result<(), Fail> {
    assert_eq!(rt; met(&rt)?, ROWS.len());
    Ok(())
}
