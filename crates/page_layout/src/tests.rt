//! Pages by hand, and bytes changed in them.

ghost use Rattle.std.specs.Prelude.{◌≡◌, ◌<◌};

use crate::node_tests::{first_inner, first_leaves};
use crate::{
    Body, Head, LayoutFault, SlotRows, SlotView, clear_slots, read_body, read_head, write_body,
    write_head, write_slot,
};
use page_gate::Page;
use std::alloc::{AllocError, Global};
use std::test::Fail;
use vec_record::{MetricKind, Params, Vector};

/// The head page of a new store with `l1 1 1 2 100`, up to its zeros.
const NEW: [u8; 44] = [
    2, 0, 0, 0, 1, 0, 0, 0, 1, 0, 0, 0, 1, 0, 0, 0, 1, 0, 0, 0, 2, 0, 0, 0, 100, 0, 0, 0, 0, 0, 0,
    0, 0, 0, 0, 0, 0, 0, 0, 0, 0, 0, 0, 0,
];

/// A byte changed in that page, and the offset of the field that isn't lawful then.
const NEW_DAMAGES: [(usize, u8, u32); 3] = [(32, 1, 36), (36, 1, 36), (40, 1, 40)];

/// Its head page after a batch with one record, whose leaf is the first slot of page 3.
const HEAD: [u8; 44] = [
    4, 0, 0, 0, 1, 0, 0, 0, 1, 0, 0, 0, 1, 0, 0, 0, 1, 0, 0, 0, 2, 0, 0, 0, 100, 0, 0, 0, 1, 0, 0,
    0, 1, 0, 0, 0, 0xc0, 0, 0, 0, 1, 0, 0, 0,
];

/// A byte changed in that page, and the offset of the field that isn't lawful then.
const HEAD_DAMAGES: [(usize, u8, u32); 18] = [
    (0, 1, 0),
    (8, 0, 8),
    (8, 9, 8),
    (12, 0, 12),
    (13, 2, 12),
    (18, 1, 16),
    (20, 0, 20),
    (22, 1, 20),
    (24, 0, 24),
    (27, 1, 24),
    (32, 101, 32),
    (32, 0, 36),
    (36, 0, 36),
    (40, 0, 40),
    (40, 7, 40),
    (44, 1, 44),
    (5_000, 1, 5_000),
    (16_383, 1, 16_383),
];

/// A page of records up to its second slot, where the first one has the record 3 with the byte 9.
const ONE: [u8; 33] = [
    1, 0, 0, 0, 0, 0, 0, 0, 0, 0, 0, 0, 0, 0, 0, 0, 3, 0, 0, 0, 1, 0, 0, 0, 0, 0, 0, 0, 0, 0, 0, 0,
    9,
];

/// A byte changed in that page, and the offset of the field that isn't lawful then.
const ONE_DAMAGES: [(usize, u8, u32); 15] = [
    (0, 0, 0),
    (0, 2, 20),
    (0, 3, 16),
    (0, 4, 0),
    (1, 1, 1),
    (15, 1, 15),
    (20, 0, 20),
    (20, 2, 28),
    (28, 1, 28),
    (31, 1, 28),
    (37, 1, 37),
    (40, 1, 40),
    (49, 1, 49),
    (16_370, 1, 16_370),
    (16_383, 1, 16_383),
];

/// A page of records up to its third slot, with the cores 1 and 2 of one cluster.
const TWO: [u8; 50] = [
    1, 0, 0, 0, 0, 0, 0, 0, 0, 0, 0, 0, 0, 0, 0, 0, 1, 0, 0, 0, 2, 0, 0, 0, 0, 0, 0, 0, 1, 0, 0, 0,
    0, 2, 0, 0, 0, 2, 0, 0, 0, 0, 0, 0, 0, 1, 0, 0, 0, 1,
];

/// A byte changed in that page, and the offset of the field that isn't lawful then.
const TWO_DAMAGES: [(usize, u8, u32); 6] = [
    (16, 0, 20),
    (37, 1, 45),
    (41, 1, 41),
    (44, 1, 41),
    (45, 0, 45),
    (45, 3, 45),
];

/// One coordinate, under which a page has 962 slots.
pub(crate) fn one_byte() -> Params
    ensures metric { result.metric ≡ MetricKind.L1 }
    ensures dim { result.dim ≡ 1 }
    ensures minpts { result.minpts ≡ 2 }
{
    Params {
        metric: MetricKind::L1,
        dim: 1,
        eps: 1,
        minpts: 2,
        cap: 100,
    }
}

/// Nine bits in two bytes, under which a page has 909 slots.
fn nine_bits() -> Params
    ensures metric { result.metric ≡ MetricKind.Hamming }
    ensures dim { result.dim ≡ 9 }
{
    Params {
        metric: MetricKind::Hamming,
        dim: 9,
        eps: 1,
        minpts: 2,
        cap: 100,
    }
}

/// The head page of a new store by hand.
fn new_head(alloc: Global) -> Result<Page, AllocError> {
    let head = Head {
        pages: 2,
        version: 1,
        params: one_byte(),
        batches: 0,
        count: 0,
        root: 0,
        height: 0,
    };
    let mut page = Page::zeros(alloc)?;
    write_head(&head, &mut page);
    Ok(page)
}

/// The head page of a store with one record by hand.
fn first_head(alloc: Global) -> Result<Page, AllocError> {
    let head = Head {
        pages: 4,
        version: 1,
        params: one_byte(),
        batches: 1,
        count: 1,
        root: 192,
        height: 1,
    };
    let mut page = Page::zeros(alloc)?;
    write_head(&head, &mut page);
    Ok(page)
}

/// Writes a core of one byte and the label 1 into its place.
fn put(
    alloc: Global,
    place: usize,
    number: u32,
    byte: u8,
    page: &mut Page,
) -> Result<(), AllocError>
    requires place { place < 962 }
    requires number { 0 < number }
{
    let vector = Vector::from_slice(alloc, &[byte])?;
    let slot = SlotView {
        number,
        count: 2,
        anchor: 0,
        label: 1,
        vector: &vector,
    };
    write_slot(&one_byte(), place, slot, page);
    Ok(())
}

/// A page of records by hand: the record 3, which is noise, in the first slot.
fn one_record(alloc: Global) -> Result<Page, AllocError> {
    let vector = Vector::from_slice(alloc, &[9])?;
    let slot = SlotView {
        number: 3,
        count: 1,
        anchor: 0,
        label: 0,
        vector: &vector,
    };
    let mut page = Page::zeros(alloc)?;
    clear_slots(&mut page);
    write_slot(&one_byte(), 0, slot, &mut page);
    Ok(page)
}

/// A page of records by hand: two cores.
fn two_records(alloc: Global) -> Result<Page, AllocError> {
    let mut page = Page::zeros(alloc)?;
    clear_slots(&mut page);
    put(alloc, 0, 1, 0, &mut page)?;
    put(alloc, 1, 2, 1, &mut page)?;
    Ok(page)
}

/// Whether a page begins with these bytes, and is zero behind them.
pub(crate) fn is_only(page: &[u8], front: &[u8]) -> bool {
    page.starts_with(front) && page.iter().skip(front.len()).all(|byte| *byte == 0)
}

/// Changes one byte of a page, and gives the one before.
pub(crate) fn exchange(page: &mut Page, at: usize, byte: u8) -> u8 {
    if at >= page.as_slice().len() {
        return byte;
    }
    let before = page.as_slice()[at];
    page.set(at, byte);
    before
}

/// Why a head page isn't read with this byte in it.
fn head_fault(page: &mut Page, at: usize, byte: u8) -> Option<LayoutFault> {
    let before = exchange(page, at, byte);
    let fault = read_head(page).err();
    exchange(page, at, before);
    fault
}

/// Why a body page isn't read with this byte in it.
fn body_fault(
    alloc: Global,
    params: &Params,
    page: &mut Page,
    at: usize,
    byte: u8,
) -> Option<LayoutFault> {
    let before = exchange(page, at, byte);
    let fault = read_body(alloc, params, page).err();
    exchange(page, at, before);
    fault
}

/// The first change of a head page after which another offset is named than the one that is due.
fn head_missed(page: &mut Page, damages: &[(usize, u8, u32)]) -> Option<usize> {
    for (at, byte, offset) in damages {
        let due = LayoutFault::Damaged { offset: *offset };
        if head_fault(page, *at, *byte) != Some(due) {
            return Some(*at);
        }
    }
    None
}

/// The first change of a body page after which another offset is named than the one that is due.
fn body_missed(alloc: Global, page: &mut Page, damages: &[(usize, u8, u32)]) -> Option<usize> {
    for (at, byte, offset) in damages {
        let due = LayoutFault::Damaged { offset: *offset };
        if body_fault(alloc, &one_byte(), page, *at, *byte) != Some(due) {
            return Some(*at);
        }
    }
    None
}

/// Whether a head page is read, and written as the same bytes.
fn head_again(alloc: Global, page: &Page) -> Result<bool, AllocError> {
    let mut other = Page::zeros(alloc)?;
    if let Ok(head) = read_head(page) {
        write_head(&head, &mut other);
    }
    Ok(other.as_slice() == page.as_slice())
}

/// The used slots of a page that is read, and written as the same bytes.
fn body_again(alloc: Global, params: &Params, page: &Page) -> Result<Option<usize>, AllocError> {
    let mut other = Page::zeros(alloc)?;
    match read_body(alloc, params, page) {
        Ok(body) => {
            write_body(params, &body, &mut other);
            let same = other.as_slice() == page.as_slice();
            Ok(if same { Some(used(&body)) } else { None })
        }
        Err(_) => Ok(None),
    }
}

/// How many slots are used, or how many entries there are.
fn used(body: &Body) -> usize {
    match body {
        Body::Slots(rows) => rows.as_slice().iter().filter(|row| row.is_some()).count(),
        Body::Leaves(leaves) => leaves
            .as_slice()
            .iter()
            .filter(|rows| rows.len() > 0)
            .count(),
        Body::Inner(rows) => rows.len(),
    }
}

/// A page with a record in each place but one.
fn filled(alloc: Global, hole: usize) -> Result<Page, AllocError> {
    let mut page = Page::zeros(alloc)?;
    clear_slots(&mut page);
    for place in 0..962 {
        if place != hole {
            put(alloc, place, place as u32 + 1, 7, &mut page)?;
        }
    }
    Ok(page)
}

#[test]
fn heads_by_hand(rt: HostRuntime) -> Result<(), Fail> {
    let alloc = rt.alloc();
    let mut new = new_head(alloc)?;
    assert!(rt; is_only(new.as_slice(), &NEW));
    assert!(rt; head_missed(&mut new, &NEW_DAMAGES) == None);
    let mut page = first_head(alloc)?;
    assert!(rt; is_only(page.as_slice(), &HEAD));
    assert!(rt; head_missed(&mut page, &HEAD_DAMAGES) == None);
    assert!(rt; head_again(alloc, &page)?);
    for version in [0, 2, 7] {
        let fault = head_fault(&mut page, 4, version);
        assert!(rt; fault == Some(LayoutFault::Foreign), "version {version}");
    }
    Ok(())
}

#[test]
fn records_by_hand(rt: HostRuntime) -> Result<(), Fail> {
    let alloc = rt.alloc();
    let mut one = one_record(alloc)?;
    assert!(rt; is_only(one.as_slice(), &ONE));
    assert!(rt; body_missed(alloc, &mut one, &ONE_DAMAGES) == None);
    // A record that is no core may have any anchor.
    assert!(rt; body_fault(alloc, &one_byte(), &mut one, 27, 255) == None);
    let mut two = two_records(alloc)?;
    assert!(rt; is_only(two.as_slice(), &TWO));
    assert!(rt; body_missed(alloc, &mut two, &TWO_DAMAGES) == None);
    Ok(())
}

#[test]
fn places(rt: HostRuntime) -> Result<(), Fail> {
    let alloc = rt.alloc();
    let params = one_byte();
    let mut none = Page::zeros(alloc)?;
    clear_slots(&mut none);
    assert!(rt; body_again(alloc, &params, &none)? == Some(0));
    // No place has this number, so no slot is left free.
    let all = filled(alloc, 962)?;
    assert!(rt; body_again(alloc, &params, &all)? == Some(962));
    let hole = filled(alloc, 5)?;
    assert!(rt; body_again(alloc, &params, &hole)? == Some(961));
    Ok(())
}

/// Pages of the other kinds are read by their first byte, and written as the same bytes.
#[test]
fn kinds(rt: HostRuntime) -> Result<(), Fail> {
    let alloc = rt.alloc();
    let leaves = first_leaves(alloc)?;
    assert!(rt; body_again(alloc, &one_byte(), &leaves)? == Some(1));
    let inner = first_inner(alloc)?;
    assert!(rt; body_again(alloc, &one_byte(), &inner)? == Some(2));
    Ok(())
}

/// The last bits of a vector of nine bits are charged to its last byte.
#[test]
fn last_bits(rt: HostRuntime) -> Result<(), Fail> {
    let alloc = rt.alloc();
    let params = nine_bits();
    let mut page = Page::zeros(alloc)?;
    clear_slots(&mut page);
    exchange(&mut page, 16, 1);
    exchange(&mut page, 20, 1);
    exchange(&mut page, 32, 255);
    for (byte, fault) in [
        (0b1000_0000, None),
        (0b1100_0000, Some(LayoutFault::Damaged { offset: 33 })),
        (0b0000_0001, Some(LayoutFault::Damaged { offset: 33 })),
        (0, None),
    ] {
        let said = body_fault(alloc, &params, &mut page, 33, byte);
        assert!(rt; said == fault, "byte {byte}");
    }
    assert!(rt; body_again(alloc, &params, &page)? == Some(1));
    Ok(())
}

#[test]
fn slots(rt: HostRuntime) -> Result<(), Fail> {
    let mut rows = SlotRows::new(rt.alloc());
    rows.push(None)?;
    assert!(rt; rows.len() == 1);
    assert!(rt; rows.into_vec().len() == 1);
    Ok(())
}
