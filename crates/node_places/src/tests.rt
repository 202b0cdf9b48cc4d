//! Saves of a few records and nodes, by tables that follow the rules by hand.

use crate::{Tagged, kinds_after, node_slots, record_slots, refs_after};
use std::alloc::{AllocError, Global};
use std::test::Fail;
use vec_record::{Number, Records, Vector};

/// The numbers of records, the numbers by slot before and those after a save, with three slots in a
/// page.
const RECORDS: [(&[Number], &[Number], &[Number]); 5] = [
    // 5 is gone, 1 takes its slot, and 4 comes behind the last
    (&[1, 2, 4, 9], &[5, 2, 9], &[1, 2, 9, 4, 0, 0]),
    // the lowest free slot is taken, not that of a gap beside a neighbour
    (&[3, 7], &[0, 7, 0], &[3, 7, 0]),
    // nothing is new: kept numbers don't move
    (&[1, 4], &[4, 0, 0, 8, 1, 0], &[4, 0, 0, 0, 1, 0]),
    // new numbers rise, whatever was gone before them
    (&[6, 8, 11], &[12, 11, 10], &[6, 11, 8]),
    (&[2], &[], &[2, 0, 0]),
];

/// What a save of nodes is given and what it has to make: the kinds of the body pages, the nodes,
/// the leaves in the first slots, the inner nodes by slot, the kinds after the save where three
/// record pages are needed, and the references.
struct Row {
    kinds: &'static [u8],
    nodes: &'static [Tagged],
    leaves: &'static [u32],
    inners: &'static [u32],
    after: &'static [u8],
    refs: &'static [u32],
}

/// In the first row, page 3 has leaves and pages 4 and 6 have one inner node each. Node 1 keeps
/// slot 2 of page 3, which node 3 has as its tag too; nodes 4 and 5 have the tag of a place of
/// another kind. In the second row there is no page yet, and a tag names none.
const ROWS: [Row; 2] = [
    Row {
        kinds: &[1, 2, 3, 1, 3],
        nodes: &[
            Tagged {
                leaf: true,
                tag: 194,
            },
            Tagged {
                leaf: false,
                tag: 384,
            },
            Tagged {
                leaf: true,
                tag: 194,
            },
            Tagged {
                leaf: true,
                tag: 256,
            },
            Tagged {
                leaf: false,
                tag: 193,
            },
            Tagged {
                leaf: false,
                tag: 384,
            },
            Tagged { leaf: true, tag: 0 },
            Tagged {
                leaf: false,
                tag: 448,
            },
        ],
        leaves: &[3, 4, 1, 7, 0],
        inners: &[5, 2, 6, 8],
        after: &[1, 2, 3, 1, 3, 1, 3, 3],
        refs: &[194, 384, 192, 193, 256, 512, 195, 576],
    },
    Row {
        kinds: &[],
        nodes: &[
            Tagged {
                leaf: false,
                tag: 192,
            },
            Tagged {
                leaf: true,
                tag: 192,
            },
        ],
        leaves: &[2, 0, 0],
        inners: &[1],
        after: &[1, 1, 1, 2, 3],
        refs: &[384, 320],
    },
];

/// Records with these numbers, of one byte each.
fn records_of(alloc: Global, numbers: &[Number]) -> Result<Records, AllocError> {
    let mut records = Records::new(alloc, 1);
    for number in numbers {
        put(alloc, &mut records, *number)?;
    }
    Ok(records)
}

/// Adds a record of one byte, where its number is none yet.
fn put(alloc: Global, records: &mut Records, number: Number) -> Result<(), AllocError> {
    if number == 0 || records.width() != 1 || records.get(number).is_some() {
        return Ok(());
    }
    records.insert(number, Vector::from_slice(alloc, &[7])?)
}

#[test]
fn records_take_slots(rt: HostRuntime) -> Result<(), Fail> {
    for (numbers, before, after) in &RECORDS {
        let records = records_of(rt.alloc(), numbers)?;
        let slots = record_slots(rt.alloc(), 3, &records, before)?;
        assert_eq!(rt; slots.as_slice(), *after);
    }
    Ok(())
}

/// Whether a save of the nodes of a row makes what it has to.
fn is_right(alloc: Global, row: &Row) -> Result<bool, AllocError> {
    if row.kinds.len() > 8 || row.nodes.len() > 8 {
        return Ok(false);
    }
    let slots = node_slots(alloc, row.kinds, row.nodes)?;
    let pages = slots.leaves.len() / 63;
    let after = kinds_after(alloc, row.kinds, 3, pages, slots.inners.len())?;
    if after.as_slice() != row.after || after.len() > 8 {
        return Ok(false);
    }
    let refs = refs_after(alloc, &after, &slots, row.nodes)?;
    let leaves = slots.leaves.as_slice();
    let inners = slots.inners.as_slice();
    Ok(
        leaves.len() == 63
            && leaves.starts_with(row.leaves)
            && inners == row.inners
            && refs.as_slice() == row.refs,
    )
}

#[test]
fn nodes_take_places(rt: HostRuntime) -> Result<(), Fail> {
    for row in &ROWS {
        assert!(rt; is_right(rt.alloc(), row)?);
    }
    Ok(())
}
