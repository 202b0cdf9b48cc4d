//! A tree of two leaves in pages, and what becomes of its list where a reference is wrong.

ghost use Rattle.std.specs.Prelude.{◌≡◌, ◌+◌, ◌<◌, ◌≤◌, ◌^◌, length, true, IfOk};
ghost use Rattle.std.specs.List.{AllByRecursion};
ghost use Rattle.node_refs.specs.Pages.{HasSlots};
ghost use Rattle.node_refs.specs.Faults.{IsInside};

use crate::{Listed, NodePage, first_used, is_root, list_nodes, place_of};
use items::Items;
use mtree_node::{BadPlace, BadWhat, InnerShape, LeafShape, Shape};
use std::alloc::{AllocError, Global};
use std::test::Fail;
use vec_record::Vector;

// A leaf's rows are its numbers in turn from one on, with the parent distance 5.
fn leaf(alloc: Global, first: u32, count: u32) -> Result<LeafShape, AllocError>
    requires first { first < 100 }
    requires count { count < 100 }
{
    let mut rows = Items::new(alloc);
    for i in 0..count {
        rows.push((first + i, 5))?;
    }
    Ok(rows)
}

// A leaf page with two entries in slot 0, none in slot 1, and one in slot 2, where they aren't left
// out.
fn leaves(alloc: Global, first: u32, last: u32) -> Result<NodePage, AllocError>
    requires first { first < 100 }
    requires last { last < 100 }
    ensures { IfOk result HasSlots }
{
    let slots = vec![in alloc;
        leaf(alloc, 1, first)?,
        leaf(alloc, 1, 0)?,
        leaf(alloc, 9, last)?,
    ]?;
    Ok(NodePage::Leaves(Items::from_vec(slots)))
}

// An inner page with these children.
fn inner(alloc: Global, children: &[u32]) -> Result<NodePage, AllocError>
    ensures { IfOk result HasSlots }
{
    let mut rows: InnerShape = Items::new(alloc);
    for child in children {
        rows.push((*child, 3, 4, Vector::from_slice(alloc, &[7])?))?;
    }
    Ok(NodePage::Inner(rows))
}

// Pages 2 to 4: records, leaves and an inner node.
fn pages(
    alloc: Global,
    first: u32,
    last: u32,
    children: &[u32],
) -> Result<Vec<NodePage>, AllocError>
    requires first { first < 100 }
    requires last { last < 100 }
    ensures few { IfOk result (λ pages. length pages.items + 2 < 2 ^ 26) }
    ensures slots { IfOk result (λ pages. AllByRecursion HasSlots pages.items) }
{
    let leaves = leaves(alloc, first, last)?;
    let inner = inner(alloc, children)?;
    Ok(vec![in alloc; NodePage::Records, leaves, inner]?)
}

fn show_shape(shape: &Shape, out: &mut Vec<u32>) -> Result<(), AllocError> {
    match shape {
        Shape::Leaf { tag, rows } => {
            out.push(*tag)?;
            for row in rows.as_slice() {
                out.push(row.0)?;
            }
        }
        Shape::Inner { tag, rows } => {
            out.push(*tag)?;
            for row in rows.as_slice() {
                out.push(row.0)?;
            }
        }
    }
    Ok(())
}

// For each node its reference, its tag, and the first numbers of its rows. Only a 0 where the root
// is refused.
fn shown(alloc: Global, pages: &[NodePage], height: u32, root: u32) -> Result<Vec<u32>, AllocError>
    requires few { length pages.now + 2 < 2 ^ 26 }
    requires slots { AllByRecursion HasSlots pages.now }
    requires height { (1 ≤ height) × (height ≤ 6) }
{
    let mut out = Vec::new(alloc);
    if !is_root(pages, height, root) {
        out.push(0)?;
        return Ok(out);
    }
    let listed = list_nodes(alloc, pages, height, root)?;
    for (shape, reference) in listed.shapes.as_slice().iter().zip(listed.refs.as_slice()) {
        out.push(*reference)?;
        show_shape(shape, &mut out)?;
    }
    Ok(out)
}

const PAST: u32 = 4294967295;

// The children of the inner node, a height, a root, and what is shown.
const LISTS: [(&[u32], u32, u32, &[u32]); 8] = [
    (
        &[192, 194],
        2,
        256,
        &[256, 256, 1, 2, 192, 192, 1, 2, 194, 194, 9],
    ),
    // a free slot, and a slot past the page
    (
        &[193, 194, 195],
        2,
        256,
        &[256, 256, PAST, 1, PAST, 194, 194, 9, 192, 192, 1, 2],
    ),
    // a child that is named twice
    (
        &[194, 194],
        2,
        256,
        &[256, 256, 1, PAST, 194, 194, 9, 192, 192, 1, 2],
    ),
    // an inner page and a record page where a leaf belongs, and a page that isn't there
    (
        &[256, 128, 4294967295, 192],
        2,
        256,
        &[256, 256, PAST, PAST, PAST, 1, 192, 192, 1, 2, 194, 194, 9],
    ),
    // an inner node that names itself on a level of inner nodes: both leaves aren't reached
    (
        &[256, 192],
        3,
        256,
        &[256, 256, PAST, PAST, 192, 192, 1, 2, 194, 194, 9],
    ),
    // a leaf for the root: the inner node comes last, with its references
    (
        &[192, 194],
        1,
        194,
        &[194, 194, 9, 192, 192, 1, 2, 256, 256, 192, 194],
    ),
    // a root at a free slot, and a leaf where an inner node belongs
    (&[192, 194], 1, 193, &[0]),
    (&[192, 194], 2, 192, &[0]),
];

#[test]
fn nodes_are_listed_by_their_references(rt: HostRuntime) -> Result<(), Fail> {
    for (children, height, root, expected) in LISTS {
        let pages = pages(rt.alloc(), 2, 1, children)?;
        let height = height.clamp(1, 6);
        let found = shown(rt.alloc(), &pages, height, root)?;
        assert!(rt; found.as_slice() == expected, "{height} {root}");
    }
    Ok(())
}

fn is_inside(listed: &Listed, bad: BadPlace) -> bool
    ensures { result ≡ true → IsInside listed.now bad }
{
    let at = bad.node as usize;
    at < listed.refs.len() && at < listed.shapes.len() && bad.entry <= 1000
}

// Where a place lies, for vectors of one byte.
fn place(listed: &Listed, bad: BadPlace) -> Option<(u32, u32)> {
    if is_inside(listed, bad) {
        Some(place_of(1, listed, bad))
    } else {
        None
    }
}

// The node, entry and kind of a place, and the page and offset where it lies.
const PLACES: [(u32, u32, BadWhat, u32, u32); 9] = [
    (0, 0, BadWhat::Fill, 4, 4),
    (0, 1, BadWhat::Child, 4, 29),
    (0, 1, BadWhat::Parent, 4, 33),
    (0, 0, BadWhat::Radius, 4, 24),
    (1, 0, BadWhat::Number, 3, 32),
    (2, 0, BadWhat::Fill, 3, 528),
    (2, 1, BadWhat::Number, 3, 552),
    (2, 1, BadWhat::Parent, 3, 556),
    (0, 0, BadWhat::Missing, 1, 36),
];

#[test]
fn places_lie_in_their_fields(rt: HostRuntime) -> Result<(), Fail> {
    let pages = pages(rt.alloc(), 2, 1, &[192, 194])?;
    assert!(rt; is_root(&pages, 2, 256));
    let listed = list_nodes(rt.alloc(), &pages, 2, 256)?;
    for (node, entry, what, page, offset) in PLACES {
        let found = place(&listed, BadPlace { node, entry, what });
        assert!(rt; found == Some((page, offset)), "{node} {entry} {what:?}");
    }
    Ok(())
}

// The entries in slots 0 and 2, the children, and the first used place.
const FIRSTS: [(u32, u32, &[u32], Option<(u32, u32)>); 4] = [
    (2, 1, &[192, 194], Some((3, 16))),
    (0, 1, &[192, 194], Some((3, 528))),
    (0, 0, &[192, 194], Some((4, 4))),
    (0, 0, &[], None),
];

#[test]
fn the_first_used_place_is_found(rt: HostRuntime) -> Result<(), Fail> {
    for (first, last, children, expected) in FIRSTS {
        let pages = pages(rt.alloc(), first.min(9), last.min(9), children)?;
        assert!(rt; first_used(&pages) == expected, "{first} {last}");
    }
    Ok(())
}
