//! A body page of a save, filled in place: it takes no memory.

ghost use Rattle.std.specs.Prelude.{◌≡◌, ◌≤◌, ◌<◌, ◌+◌, ◌^◌, length, map, take, drop, get_or};
ghost use Rattle.vec_record.specs.Vectors.{IsWidth};
ghost use Rattle.vec_record.specs.Limits.{width_of};
ghost use Rattle.tree_layout.specs.Layouts.{leaf_for};
ghost use Rattle.page_layout.specs.Heads.{values_of, plain};
ghost use Rattle.page_layout.specs.Slots.{IsRow, AreRows, FillsRow, record_page};
ghost use Rattle.page_layout.specs.Leaves.{AreLeaves, leaf_page};
ghost use Rattle.page_layout.specs.Bodies.{IsBody, body_bytes};
ghost use Rattle.store_image.specs.Placing.{size_on, slot_for};
ghost use Rattle.store_image.specs.inside.Saves.{body_behind, done_after};

use crate::layout::Next;
use crate::loaded::Loaded;
use mtree_node::Shapes;
use page_gate::Page;
use page_layout::{SlotView, clear_leaves, clear_slots, write_inner, write_leaf, write_slot};
use stored_lines::line_of;
use tree_layout::{inner_at, leaf_at};
use vec_record::{Metric, Number, Params};

/// How many record slots, leaf slots and inner nodes stand in the pages before the next one.
#[derive(Clone, Copy)]
pub(crate) struct Done {
    pub(crate) slots: usize,
    pub(crate) leaves: usize,
    pub(crate) inners: usize,
}

/// How many slots a record page has.
pub(crate) fn slots_in_page(params: &Params) -> usize
    ensures value { result ≡ size_on (values_of params.now) }
    ensures width { IsWidth (width_of params.now.metric params.now.dim) }
{
    16368 / (16 + params.width() as usize)
}

/// Puts the record of a number, with its line, into a free slot; 0 leaves it free.
fn put_record<M: Metric>(state: &Loaded<M>, place: usize, number: Number, out: &mut Page)
    requires place { place < size_on (plain state.now.head).values }
    requires row { IsRow (plain state.now.head).values
        (slot_for state.now.records.vectors state.now.clusters number) }
    ensures { FillsRow (plain state.now.head).values place
        (slot_for state.now.records.vectors state.now.clusters number) out.old out.new }
{
    if number == 0 {
        return;
    }
    if let Some(vector) = state.records.get(number) {
        let line = line_of(state.clusters.counts(), state.clusters.labels(), number);
        let slot = SlotView {
            number,
            count: line.count,
            anchor: line.anchor,
            label: line.label,
            vector,
        };
        write_slot(&state.head.params, place, slot, out);
    }
}

/// Fills a page with the records of these numbers, one for each slot.
fn fill_slots<M: Metric>(state: &Loaded<M>, numbers: &[Number], out: &mut Page)
    requires { AreRows (plain state.now.head).values
        (map (slot_for state.now.records.vectors state.now.clusters) numbers.now) }
    ensures { let params = state.now.head.params in
        out.new ≡ record_page (width_of params.metric params.dim)
        (map (slot_for state.now.records.vectors state.now.clusters) numbers.now) }
{
    clear_slots(out);
    for place in 0..numbers.len() {
        put_record(state, place, numbers[place], out);
    }
}

/// Fills a page with the leaves of these numbers, one for each slot.
fn fill_leaves(shapes: &Shapes, leaves: &[u32], out: &mut Page)
    requires { AreLeaves (map (leaf_for shapes.now) leaves.now) }
    ensures { out.new ≡ leaf_page (map (leaf_for shapes.now) leaves.now) }
{
    clear_leaves(out);
    for slot in 0..leaves.len() {
        write_leaf(slot, leaf_at(shapes, leaves[slot]), out);
    }
}

/// So many of the numbers, from a place on.
fn part(numbers: &[u32], from: usize, count: usize) -> &[u32]
    requires { from + count ≤ length numbers.now }
    ensures { result.now ≡ take count (drop from numbers.now) }
{
    &numbers[from..from + count]
}

/// The number at a place, 0 past the last.
fn number_at(numbers: &[u32], place: usize) -> u32
    ensures { result ≡ get_or numbers.now place 0 }
{
    if place < numbers.len() {
        numbers[place]
    } else {
        0
    }
}

/// Fills a page of a kind with what is next, and counts that as done.
pub(crate) fn fill_body<M: Metric>(
    state: &Loaded<M>,
    next: &Next,
    kind: u8,
    done: &mut Done,
    out: &mut Page,
)
    requires body { IsBody (plain state.now.head).values
        (body_behind (size_on (plain state.now.head).values) kind done.old next.now
        state.now.records.vectors state.now.clusters) }
    requires inners { done.old.inners < 2 ^ 32 }
    ensures filled { out.new ≡ body_bytes (plain state.now.head).values
        (body_behind (size_on (plain state.now.head).values) kind done.old next.now
        state.now.records.vectors state.now.clusters) }
    ensures done { done.new ≡ done_after (size_on (plain state.now.head).values) kind done.old }
{
    match kind {
        1 => {
            let size = slots_in_page(&state.head.params);
            let numbers = part(&next.numbers, done.slots, size);
            fill_slots(state, numbers, out);
            done.slots += size;
        }
        2 => {
            let leaves = part(&next.laid.leaves, done.leaves, 63);
            fill_leaves(&next.shapes, leaves, out);
            done.leaves += 63;
        }
        _ => {
            let number = number_at(&next.laid.inners, done.inners);
            write_inner(&state.head.params, inner_at(&next.shapes, number), out);
            done.inners += 1;
        }
    }
}
