//! Where in the pages a place of the list lies.

ghost use Rattle.std.specs.Prelude.{◌≡◌, ◌+◌, ◌<◌, ◌≤◌, ◌^◌, length};
ghost use Rattle.std.specs.List.{AllByRecursion};
ghost use Rattle.node_refs.specs.Pages.{slot_refs, page_refs, used_refs, HasSlots};
ghost use Rattle.node_refs.specs.Faults.{leaf_field, inner_field, fault_at, first_of, first_used};
ghost use Rattle.node_refs.specs.Faults.{IsInside};

use crate::listing::Listed;
use crate::pages::{NodePage, inner_at};
use mtree_node::{BadPlace, BadWhat, LeafShape, Shape};

fn leaf_field(entry: u32, what: BadWhat) -> u32
    requires { entry ≤ 1000 }
    ensures is { result ≡ leaf_field entry what }
    ensures few { result ≤ 8020 }
{
    match what {
        BadWhat::Number => 16 + 8 * entry,
        BadWhat::Parent => 20 + 8 * entry,
        _ => 0,
    }
}

fn inner_field(width: u32, entry: u32, what: BadWhat) -> u32
    requires width { width ≤ 512 }
    requires entry { entry ≤ 1000 }
    ensures { result ≡ inner_field width entry what }
{
    let start = entry * (12 + width);
    match what {
        BadWhat::Child => 16 + start,
        BadWhat::Parent => 20 + start,
        BadWhat::Radius => 24 + start,
        _ => 4,
    }
}

/// The page and the offset in it that a bad place of a list of nodes belongs to. The offset is that
/// of the field FILL, NUMBER, PARENT, CHILD or RADIUS of the node at the place. A record that no
/// entry names is charged to the root's reference, at offset 36 of page 1.
///
/// The vectors have a width of at most 512, and the place names a node of the list and one of at
/// most 1000 entries.
pub fn place_of(width: u32, listed: &Listed, bad: BadPlace) -> (u32, u32)
    requires width { width ≤ 512 }
    requires inside { IsInside listed.now bad }
    ensures { result ≡ fault_at width listed.now bad }
{
    if bad.what == BadWhat::Missing {
        return (1, 36);
    }
    let at = bad.node as usize;
    let reference = listed.refs.as_slice()[at];
    let page = reference / 64;
    match &listed.shapes.as_slice()[at] {
        Shape::Leaf { tag: _, rows: _ } => {
            let slot = 16 + 256 * (reference % 64);
            (page, slot + leaf_field(bad.entry, bad.what))
        }
        Shape::Inner { tag: _, rows: _ } => (page, inner_field(width, bad.entry, bad.what)),
    }
}

fn first_slot(slots: &[LeafShape], first: u32) -> Option<u32>
    requires { first + length slots.now < 2 ^ 32 }
    ensures { result ≡ first_of (slot_refs first slots.now) }
{
    for (slot, rows) in slots.iter().enumerate() {
        if rows.len() > 0 {
            return Some(first + slot as u32);
        }
    }
    None
}

fn first_in(page: &NodePage, number: u32) -> Option<u32>
    requires number { number < 2 ^ 26 }
    requires slots { HasSlots page.now }
    ensures { result ≡ first_of (page_refs number page.now) }
{
    match page {
        NodePage::Records => None,
        NodePage::Leaves(slots) => first_slot(slots.as_slice(), 64 * number),
        NodePage::Inner(rows) => {
            if rows.len() > 0 {
                Some(64 * number)
            } else {
                None
            }
        }
    }
}

// The reference of the first used place.
fn first_ref(pages: &[NodePage]) -> Option<u32>
    requires few { length pages.now + 2 < 2 ^ 26 }
    requires slots { AllByRecursion HasSlots pages.now }
    ensures { result ≡ first_of (used_refs pages.now) }
{
    for (i, page) in pages.iter().enumerate() {
        if let Some(reference) = first_in(page, i as u32 + 2) {
            return Some(reference);
        }
    }
    None
}

/// Where the first used place lies, by page and then slot: its page and the offset of its FILL.
/// None where no place is used.
///
/// There are fewer than `2 ^ 26` pages, pages 0 and 1 among them, and a leaf page has at most 63
/// slots.
pub fn first_used(pages: &[NodePage]) -> Option<(u32, u32)>
    requires few { length pages.now + 2 < 2 ^ 26 }
    requires slots { AllByRecursion HasSlots pages.now }
    ensures { result ≡ first_used pages.now }
{
    let reference = first_ref(pages)?;
    let offset = if inner_at(pages, reference).len() > 0 {
        4
    } else {
        16 + 256 * (reference % 64)
    };
    Some((reference / 64, offset))
}
