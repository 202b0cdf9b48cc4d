//! Pages of leaves and of inner nodes by hand, and bytes changed in them.

use crate::tests::{exchange, is_only, one_byte};
use crate::{
    LayoutFault, LeafSlots, clear_leaves, read_inner, read_leaves, write_inner, write_leaf,
};
use mtree_node::LeafShape;
use page_gate::Page;
use std::alloc::{AllocError, Global};
use std::test::Fail;
use vec_record::Vector;

/// A page of leaves up to the second entry of its first slot, which has the record 3.
const LEAVES: [u8; 40] = [
    2, 0, 0, 0, 0, 0, 0, 0, 0, 0, 0, 0, 0, 0, 0, 0, 1, 0, 0, 0, 0, 0, 0, 0, 0, 0, 0, 0, 0, 0, 0, 0,
    3, 0, 0, 0, 0, 0, 0, 0,
];

/// A byte changed in that page, and the offset of the field that isn't lawful then.
const LEAF_DAMAGES: [(usize, u8, u32); 15] = [
    (0, 1, 0),
    (1, 1, 1),
    (15, 1, 15),
    (16, 0, 32),
    (16, 2, 40),
    (16, 31, 16),
    (19, 1, 16),
    (20, 1, 20),
    (31, 1, 31),
    (32, 0, 32),
    (40, 1, 40),
    (271, 1, 271),
    (272, 1, 288),
    (16_144, 1, 16_144),
    (16_383, 1, 16_383),
];

/// A page with an inner node of two entries for records of one byte, up to its zeros.
const INNER: [u8; 42] = [
    3, 0, 0, 0, 2, 0, 0, 0, 0, 0, 0, 0, 0, 0, 0, 0, 192, 0, 0, 0, 0, 0, 0, 0, 5, 0, 0, 0, 9, 193,
    0, 0, 0, 7, 0, 0, 0, 255, 0, 0, 0, 200,
];

/// A byte changed in that page, and the offset of the field that isn't lawful then.
const INNER_DAMAGES: [(usize, u8, u32); 16] = [
    (0, 2, 0),
    (1, 1, 1),
    (3, 1, 3),
    (4, 0, 16),
    (4, 1, 4),
    (4, 3, 42),
    (4, 31, 4),
    (7, 1, 4),
    (8, 1, 8),
    (15, 1, 15),
    (16, 0, 16),
    (25, 1, 24),
    (29, 0, 29),
    (38, 1, 37),
    (42, 1, 42),
    (16_383, 1, 16_383),
];

/// A page of leaves by hand: the record 3 in the first slot, with the parent distance 0.
pub(crate) fn first_leaves(alloc: Global) -> Result<Page, AllocError> {
    let mut page = Page::zeros(alloc)?;
    clear_leaves(&mut page);
    write_leaf(0, &[(3, 0)], &mut page);
    Ok(page)
}

/// Why a page of leaves isn't read with this byte in it.
fn leaf_fault(alloc: Global, page: &mut Page, at: usize, byte: u8) -> Option<LayoutFault> {
    let before = exchange(page, at, byte);
    let fault = read_leaves(alloc, page).err();
    exchange(page, at, before);
    fault
}

/// A page with thirty entries in each slot.
fn full_leaves(alloc: Global) -> Result<Page, AllocError> {
    let mut page = Page::zeros(alloc)?;
    clear_leaves(&mut page);
    for slot in 0..63 {
        write_leaf(slot, &[(slot as u32 + 1, 65_280); 30], &mut page);
    }
    Ok(page)
}

/// Whether a slot has thirty entries, and the last one is as it was written.
fn is_full(rows: &LeafShape) -> bool {
    rows.len() == 30 && rows.as_slice()[29].1 == 65_280
}

/// How many slots are full.
fn count_full(slots: &LeafSlots) -> usize {
    slots
        .as_slice()
        .iter()
        .filter(|rows| is_full(*rows))
        .count()
}

/// A page with an inner node by hand.
pub(crate) fn first_inner(alloc: Global) -> Result<Page, AllocError> {
    let rows = [
        (192, 0, 5, Vector::from_slice(alloc, &[9])?),
        (193, 7, 255, Vector::from_slice(alloc, &[200])?),
    ];
    let mut page = Page::zeros(alloc)?;
    write_inner(&one_byte(), &rows, &mut page);
    Ok(page)
}

/// Why a page with an inner node isn't read with this byte in it.
fn inner_fault(alloc: Global, page: &mut Page, at: usize, byte: u8) -> Option<LayoutFault> {
    let before = exchange(page, at, byte);
    let fault = read_inner(alloc, &one_byte(), page).err();
    exchange(page, at, before);
    fault
}

#[test]
fn leaves_by_hand(rt: HostRuntime) -> Result<(), Fail> {
    let alloc = rt.alloc();
    let mut page = first_leaves(alloc)?;
    assert!(rt; is_only(page.as_slice(), &LEAVES));
    // Any parent distance may stand behind a number.
    assert!(rt; leaf_fault(alloc, &mut page, 39, 255) == None);
    for (at, byte, offset) in LEAF_DAMAGES {
        let fault = leaf_fault(alloc, &mut page, at, byte);
        assert!(rt; fault == Some(LayoutFault::Damaged { offset }), "byte {at}");
    }
    Ok(())
}

#[test]
fn leaves_are_read(rt: HostRuntime) -> Result<(), Fail> {
    let page = full_leaves(rt.alloc())?;
    let full = match read_leaves(rt.alloc(), &page) {
        Ok(slots) => count_full(&slots),
        Err(_) => 0,
    };
    assert!(rt; full == 63);
    Ok(())
}

#[test]
fn inner_nodes_by_hand(rt: HostRuntime) -> Result<(), Fail> {
    let alloc = rt.alloc();
    let mut page = first_inner(alloc)?;
    assert!(rt; is_only(page.as_slice(), &INNER));
    // Any parent distance may stand behind a child.
    assert!(rt; inner_fault(alloc, &mut page, 20, 77) == None);
    for (at, byte, offset) in INNER_DAMAGES {
        let fault = inner_fault(alloc, &mut page, at, byte);
        assert!(rt; fault == Some(LayoutFault::Damaged { offset }), "byte {at}");
    }
    Ok(())
}
