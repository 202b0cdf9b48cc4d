//! A page of leaves, written and read: 63 slots, each free or with the entries of a leaf.

ghost use Rattle.std.specs.Prelude.{◌≡◌, ◌≢◌, ◌<◌, ◌≤◌, ◌+◌, ◌*◌, ◌++◌, [], length, take, drop};
ghost use Rattle.std.specs.Prelude.{replicate, None, Ok, IfOk, MatchResult};
ghost use Rattle.std.specs.List.{AllByRecursion, flat_map};
ghost use Rattle.page_gate.specs.Gate.{number_4};
ghost use Rattle.page_layout.specs.Fields.{IsWhy, first_bad};
ghost use Rattle.page_layout.specs.Leaves.{leaf_rows_fields, leaf_slot_fields, leaf_slots_fields};
ghost use Rattle.page_layout.specs.Leaves.{leaf_fields, leaf_rows_in, leaves_in, leaves_of};
ghost use Rattle.page_layout.specs.Leaves.{AreLeaves, leaf_row_bytes, leaf_page, FillsLeaf};

use crate::fault::LayoutFault;
use crate::field::{first_set, put_words, word_at};
use items::Items;
use mtree_node::LeafShape;
use page_gate::Page;
use std::alloc::{AllocError, Global};

/// The slots of a page, each with the entries of its leaf, none where it is free.
pub type LeafSlots = Items<LeafShape>;

/// The offset of the first number that is 0, of so many entries of the slot at `at`.
fn bad_row(page: &[u8], at: usize, fill: usize) -> Option<u32>
    requires page { length page.now ≡ 16384 }
    requires within { at + 256 ≤ length page.now }
    requires few { fill ≤ 30 }
    ensures { result ≡ first_bad (leaf_rows_fields page.now at fill) }
{
    for k in 0..fill {
        let row = at + 16 + 8 * k;
        if word_at(page, row) == 0 {
            return Some(row as u32);
        }
    }
    None
}

/// The offset of the first field of the slot at `at` that isn't lawful.
fn bad_slot(page: &[u8], at: usize) -> Option<u32>
    requires page { length page.now ≡ 16384 }
    requires within { at + 256 ≤ length page.now }
    ensures { result ≡ first_bad (leaf_slot_fields page.now at) }
{
    let fill = word_at(page, at) as usize;
    if fill > 30 {
        return Some(at as u32);
    }
    first_set(page, at + 4, at + 16)
        .or(bad_row(page, at, fill))
        .or(first_set(page, at + 16 + 8 * fill, at + 256))
}

/// The offset of the first field of the slots that isn't lawful.
fn bad_slots(page: &[u8]) -> Option<u32>
    requires { length page.now ≡ 16384 }
    ensures { result ≡ first_bad (leaf_slots_fields page.now) }
{
    for i in 0..63 {
        if let Some(offset) = bad_slot(page, 16 + 256 * i) {
            return Some(offset);
        }
    }
    None
}

/// The offset of the first field of a page of leaves that isn't lawful.
fn bad_leaf_field(page: &[u8]) -> Option<u32>
    requires { length page.now ≡ 16384 }
    ensures { result ≡ first_bad (leaf_fields page.now) }
{
    if page[0] != 2 {
        return Some(0);
    }
    first_set(page, 1, 16)
        .or(bad_slots(page))
        .or(first_set(page, 16144, 16384))
}

/// Reads the entries of the slot at `at`.
fn read_slot(alloc: Global, page: &[u8], at: usize) -> Result<LeafShape, AllocError>
    requires page { length page.now ≡ 16384 }
    requires within { at + 256 ≤ length page.now }
    requires few { number_4 at page.now ≤ 30 }
    ensures { IfOk result (λ rows. rows ≡ leaf_rows_in page.now at) }
{
    let mut rows = Items::new(alloc);
    for k in 0..word_at(page, at) as usize {
        let row = at + 16 + 8 * k;
        let number = word_at(page, row);
        let parent = word_at(page, row + 4);
        rows.push((number, parent))?;
    }
    Ok(rows)
}

/// Reads the slots of a page whose fields are lawful.
fn read_slots(alloc: Global, page: &[u8]) -> Result<LeafSlots, AllocError>
    requires page { length page.now ≡ 16384 }
    requires lawful { first_bad (leaf_slots_fields page.now) ≡ None }
    ensures { IfOk result (λ slots. slots ≡ leaves_in page.now) }
{
    let mut slots = Items::new(alloc);
    for i in 0..63 {
        let rows = read_slot(alloc, page, 16 + 256 * i)?;
        slots.push(rows)?;
    }
    Ok(slots)
}

/// Reads the bytes of a page of leaves.
fn read_page(alloc: Global, page: &[u8]) -> Result<LeafSlots, LayoutFault>
    requires { length page.now ≡ 16384 }
    ensures leaves { MatchResult result (λ slots. leaves_of page.now ≡ Ok slots)
        (IsWhy (leaves_of page.now)) }
    ensures lawful { IfOk result AreLeaves }
{
    if let Some(offset) = bad_leaf_field(page) {
        return Err(LayoutFault::Damaged { offset });
    }
    Ok(read_slots(alloc, page)?)
}

/// Reads a page of leaves. `Damaged` comes exactly where a field isn't lawful, with the first such
/// field; the answer is never `Foreign`, and `Memory` where memory is wanting.
pub fn read_leaves(alloc: Global, page: &Page) -> Result<LeafSlots, LayoutFault>
    ensures leaves { MatchResult result (λ slots. leaves_of page.now ≡ Ok slots)
        (IsWhy (leaves_of page.now)) }
    ensures lawful { IfOk result AreLeaves }
{
    read_page(alloc, page.as_slice())
}

/// Fills a page of leaves with free slots.
pub fn clear_leaves(out: &mut Page)
    ensures { out.new ≡ leaf_page (replicate 63 []) }
{
    out.clear();
    out.set(0, 2);
}

/// Writes entries one behind the other.
fn put_rows(out: &mut Page, at: usize, rows: &[(u32, u32)])
    requires { at + 8 * length rows.now ≤ 16384 }
    ensures page { length out.old ≡ 16384 }
    ensures written { out.new ≡ take at out.old ++ flat_map leaf_row_bytes rows.now ++ drop
        (at + 8 * length rows.now) out.old }
{
    // Seen as a slice, a page is known to have its length.
    let _page = out.as_slice();
    for k in 0..rows.len() {
        let (number, parent) = rows[k];
        put_words(out, at + 8 * k, &[number, parent]);
    }
}

/// Writes the entries of a leaf into a slot of a page in which it is free, and leaves the other
/// slots as they are. They are at most 30, and no number is 0. It takes no memory.
pub fn write_leaf(slot: usize, rows: &[(u32, u32)], out: &mut Page)
    requires slot { slot < 63 }
    requires few { length rows.now ≤ 30 }
    requires numbers { AllByRecursion (λ row. row.0 ≢ 0) rows.now }
    ensures { FillsLeaf slot rows.now out.old out.new }
{
    let at = 16 + 256 * slot;
    put_words(out, at, &[rows.len() as u32, 0, 0, 0]);
    put_rows(out, at + 16, rows);
}
