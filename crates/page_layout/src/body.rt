//! A body page of any kind, written and read.

ghost use Rattle.std.specs.Prelude.{◌≡◌, ◌<◌, [], replicate, Ok, IfOk, MatchResult};
ghost use Rattle.page_layout.specs.Fields.{IsWhy};
ghost use Rattle.page_layout.specs.Heads.{values_of};
ghost use Rattle.page_layout.specs.Leaves.{IsLeaf, AreLeaves, leaf_page, FillsLeaf};
ghost use Rattle.page_layout.specs.Bodies.{body_of, IsBody, body_bytes};

use crate::fault::LayoutFault;
use crate::inner::{read_inner, write_inner};
use crate::leaves::{LeafSlots, clear_leaves, read_leaves, write_leaf};
use crate::rows::{read_rows, write_rows};
use crate::slot::{SlotRows, clear_slots};
use mtree_node::{InnerShape, LeafShape};
use page_gate::Page;
use std::alloc::Global;
use vec_record::Params;

/// What a body page holds.
#[derive(Drop)]
pub enum Body {
    /// The slots of records.
    Slots(SlotRows),
    /// The slots of leaves.
    Leaves(LeafSlots),
    /// The entries of one inner node, none where the page is free.
    Inner(InnerShape),
}

/// Writes a leaf into a slot of a page in which it is free.
fn fill_leaf(slot: usize, rows: &LeafShape, out: &mut Page)
    requires slot { slot < 63 }
    requires rows { IsLeaf rows.now }
    ensures { FillsLeaf slot rows.now out.old out.new }
{
    write_leaf(slot, rows.as_slice(), out);
}

/// Writes the leaves of a page in which all slots are free.
fn write_leaves(leaves: &[LeafShape], out: &mut Page)
    requires leaves { AreLeaves leaves.now }
    requires free { out.old ≡ leaf_page (replicate 63 []) }
    ensures { out.new ≡ leaf_page leaves.now }
{
    for slot in 0..leaves.len() {
        fill_leaf(slot, &leaves[slot], out);
    }
}

/// Fills a body page.
pub fn write_body(params: &Params, body: &Body, out: &mut Page)
    requires { IsBody (values_of params.now) body.now }
    ensures { out.new ≡ body_bytes (values_of params.now) body.now }
{
    match body {
        Body::Slots(rows) => {
            clear_slots(out);
            write_rows(params, rows.as_slice(), out);
        }
        Body::Leaves(leaves) => {
            clear_leaves(out);
            write_leaves(leaves.as_slice(), out);
        }
        Body::Inner(rows) => write_inner(params, rows.as_slice(), out),
    }
}

/// Reads a body page. `Damaged` comes exactly where a field isn't lawful, with the first such
/// field; the answer is never `Foreign`, and `Memory` where memory is wanting.
pub fn read_body(alloc: Global, params: &Params, page: &Page) -> Result<Body, LayoutFault>
    ensures body { MatchResult result (λ body. body_of (values_of params.now) page.now ≡ Ok body)
        (IsWhy (body_of (values_of params.now) page.now)) }
    ensures lawful { IfOk result (IsBody (values_of params.now)) }
{
    let bytes = page.as_slice();
    match bytes[0] {
        1 => Ok(Body::Slots(read_rows(alloc, params, bytes)?)),
        2 => Ok(Body::Leaves(read_leaves(alloc, page)?)),
        3 => Ok(Body::Inner(read_inner(alloc, params, page)?)),
        _ => Err(LayoutFault::Damaged { offset: 0 }),
    }
}
