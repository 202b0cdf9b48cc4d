//! Body pages as far as the tree is concerned, and what stands at a reference.

ghost use Rattle.std.specs.Prelude.{◌≡◌, ◌+◌, ◌<◌, ◌^◌, ◌++◌, length, IfOk, OnOk};
ghost use Rattle.std.specs.Prelude.{slice_index_or, []};
ghost use Rattle.std.specs.List.{AllByRecursion};
ghost use Rattle.node_refs.specs.Pages.{leaf_at, inner_at, is_used, shape_in, shape_at, slot_refs};
ghost use Rattle.node_refs.specs.Pages.{page_refs, used_refs, HasSlots};

use items::Items;
use mtree_node::{InnerShape, LeafShape, Shape};
use std::alloc::{AllocError, Global};
use vec_record::{Number, Vector};

/// A body page, as far as the tree is concerned. In the row of an inner node the first number is
/// the child's reference.
#[derive(Drop)]
pub enum NodePage {
    Records,
    Leaves(Items<LeafShape>),
    Inner(InnerShape),
}

fn slot_at(slots: &[LeafShape], slot: usize) -> &[(Number, u32)]
    ensures { result.now ≡ slice_index_or slots.now slot [] }
{
    if slot < slots.len() {
        slots[slot].as_slice()
    } else {
        &[]
    }
}

/// The entries of the leaf at a reference, none where there is no leaf.
pub fn leaf_at(pages: &[NodePage], reference: u32) -> &[(Number, u32)]
    ensures { result.now ≡ leaf_at pages.now reference }
{
    let number = (reference / 64) as usize;
    if number < 2 || pages.len() <= number - 2 {
        return &[];
    }
    match &pages[number - 2] {
        NodePage::Leaves(slots) => slot_at(slots.as_slice(), (reference % 64) as usize),
        NodePage::Records => &[],
        NodePage::Inner(_) => &[],
    }
}

/// The entries of the inner node at a reference, none where there is no inner node.
pub fn inner_at(pages: &[NodePage], reference: u32) -> &[(u32, u32, u32, Vector)]
    ensures { result.now ≡ inner_at pages.now reference }
{
    let number = (reference / 64) as usize;
    if reference % 64 != 0 || number < 2 || pages.len() <= number - 2 {
        return &[];
    }
    match &pages[number - 2] {
        NodePage::Inner(rows) => rows.as_slice(),
        NodePage::Records => &[],
        NodePage::Leaves(_) => &[],
    }
}

/// Whether a reference names a used place of a level's kind.
pub fn is_used(pages: &[NodePage], level: u32, reference: u32) -> bool
    ensures { result ≡ is_used level pages.now reference }
{
    if level == 1 {
        leaf_at(pages, reference).len() > 0
    } else {
        inner_at(pages, reference).len() > 0
    }
}

/// The entries of a leaf, as they stand.
pub fn leaf_copy(alloc: Global, rows: &[(Number, u32)]) -> Result<LeafShape, AllocError>
    ensures { IfOk result (λ copy. copy ≡ rows.now) }
{
    let mut copy = Items::new(alloc);
    for row in rows {
        copy.push(*row)?;
    }
    Ok(copy)
}

/// The entries of an inner node, as they stand.
pub fn inner_copy(alloc: Global, rows: &[(u32, u32, u32, Vector)]) -> Result<InnerShape, AllocError>
    ensures { IfOk result (λ copy. copy ≡ rows.now) }
{
    let mut copy = Items::new(alloc);
    for row in rows {
        let object = Vector::from_slice(alloc, row.3.as_slice())?;
        copy.push((row.0, row.1, row.2, object))?;
    }
    Ok(copy)
}

fn shape_in(alloc: Global, page: &NodePage, reference: u32) -> Result<Shape, AllocError>
    ensures { IfOk result (λ shape. shape ≡ shape_in reference page.now) }
{
    match page {
        NodePage::Inner(rows) => {
            let rows = inner_copy(alloc, rows.as_slice())?;
            Ok(Shape::Inner {
                tag: reference,
                rows,
            })
        }
        NodePage::Leaves(slots) => {
            let rows = leaf_copy(alloc, slot_at(slots.as_slice(), (reference % 64) as usize))?;
            Ok(Shape::Leaf {
                tag: reference,
                rows,
            })
        }
        NodePage::Records => Ok(Shape::Leaf {
            tag: reference,
            rows: Items::new(alloc),
        }),
    }
}

/// What stands at a reference, as a shape.
pub fn shape_at(alloc: Global, pages: &[NodePage], reference: u32) -> Result<Shape, AllocError>
    ensures { IfOk result (λ shape. shape ≡ shape_at pages.now reference) }
{
    let number = (reference / 64) as usize;
    if number < 2 || pages.len() <= number - 2 {
        return shape_in(alloc, &NodePage::Records, reference);
    }
    shape_in(alloc, &pages[number - 2], reference)
}

fn push_slots(slots: &[LeafShape], first: u32, refs: &mut Items<u32>) -> Result<(), AllocError>
    requires { first + length slots.now < 2 ^ 32 }
    ensures { OnOk result (refs.new ≡ refs.old ++ slot_refs first slots.now) }
{
    for (slot, rows) in slots.iter().enumerate() {
        if rows.len() > 0 {
            refs.push(first + slot as u32)?;
        }
    }
    Ok(())
}

fn push_page(page: &NodePage, number: u32, refs: &mut Items<u32>) -> Result<(), AllocError>
    requires number { number < 2 ^ 26 }
    requires slots { HasSlots page.now }
    ensures { OnOk result (refs.new ≡ refs.old ++ page_refs number page.now) }
{
    match page {
        NodePage::Records => Ok(()),
        NodePage::Leaves(slots) => push_slots(slots.as_slice(), 64 * number, refs),
        NodePage::Inner(rows) => {
            if rows.len() > 0 {
                refs.push(64 * number)?;
            }
            Ok(())
        }
    }
}

/// The references of all used places, by page and then slot.
pub fn used_refs(alloc: Global, pages: &[NodePage]) -> Result<Items<u32>, AllocError>
    requires few { length pages.now + 2 < 2 ^ 26 }
    requires slots { AllByRecursion HasSlots pages.now }
    ensures { IfOk result (λ refs. refs ≡ used_refs pages.now) }
{
    let mut refs = Items::new(alloc);
    for (i, page) in pages.iter().enumerate() {
        push_page(page, i as u32 + 2, &mut refs)?;
    }
    Ok(refs)
}
