//! What a save leads to: its head, the numbers by record slot, and the nodes where they are laid.

ghost use Rattle.std.specs.Prelude.{◌≡◌, ℕ, ◌+◌, ◌<◌, ◌^◌, Ok, IfOk, OnOk, length, get_or};
ghost use Rattle.std.specs.Prelude.{slice_index};
ghost use Rattle.std.specs.FinMap as maps;
ghost use Rattle.vec_record.specs.Held.{NoneAtZero};
ghost use Rattle.vec_record.specs.Vectors.{AreBytes, IsWidth};
ghost use Rattle.mtree_index.specs.Tree.{IsLawful};
ghost use Rattle.node_places.specs.Slots.{record_slots, AreApart};
ghost use Rattle.stored_tree.specs.Shapes.{shapes_of};
ghost use Rattle.page_layout.specs.Heads.{plain, IsHead};
ghost use Rattle.store_image.specs.Loading.{head_in_pages};
ghost use Rattle.store_image.specs.Placing.{size_on, bodies_on, AreBounded, IsPaged, IsKept};
ghost use Rattle.store_image.specs.Placing.{CanSave, CanBeSaved};
ghost use Rattle.store_image.specs.inside.Saves.{IsNext, IsSmallRow};

use crate::filling::slots_in_page;
use crate::laws_saved::saved_are_read;
use crate::loaded::Loaded;
use count_book::CountBook;
use mtree_index::MTree;
use mtree_index::laws::trees_are_small;
use mtree_node::{Shapes, flatten};
use node_places::laws::records_stand;
use node_places::record_slots;
use page_gate::Pages;
use page_layout::Head;
use page_layout::laws::heads_have_one_spelling;
use std::alloc::{AllocError, Global};
use tree_layout::laws::layouts_are_sized;
use tree_layout::{Layout, lay, refer};
use tree_objects::laws::trees_have_few_shapes;
use vec_record::{Metric, Number, Records};

/// What a save leads to: the head, the numbers by record slot, the nodes with the references of
/// their children, and where they are laid.
#[derive(Drop)]
pub(crate) struct Next {
    pub(crate) head: Head,
    pub(crate) numbers: Vec<Number>,
    pub(crate) shapes: Shapes,
    pub(crate) laid: Layout,
}

/// Bytes are below 256.
fn know_bytes(bytes: &[u8])
    ensures { AreBytes bytes.now }
{}

/// The head that pages have is lawful.
fn know_head(pages: &Pages, head: &Head)
    requires { head_in_pages pages.now.list ≡ Ok (plain head.now) }
    ensures { IsHead (plain head.now) }
{
    heads_have_one_spelling();
    if let Some(page) = pages.page(1) {
        know_bytes(page.as_slice());
    }
}

/// Records have a lawful width, and none has the number 0.
fn know_records(records: &Records)
    ensures width { IsWidth records.now.width }
    ensures none { NoneAtZero records.now.vectors }
{
    let _width = records.width();
}

/// The count and the anchor of a number have four bytes.
fn know_row(counts: &CountBook, number: Number)
    ensures { IsSmallRow (maps.get counts.now.rows number) }
{
    let _count = counts.count_of(number).unwrap_or(0);
    let _anchor = counts.anchor_of(number).unwrap_or(0);
}

/// So have the numbers in slots, with their counts and anchors.
fn know_rows(counts: &CountBook, numbers: &[Number])
    ensures numbers { (k : ℕ) → slice_index numbers.now k < 2 ^ 32 }
    ensures rows { (k : ℕ) → k < length numbers.now
        → IsSmallRow (maps.get counts.now.rows (get_or numbers.now k 0)) }
{
    for k in 0..numbers.len() {
        know_row(counts, numbers[k]);
    }
}

/// The numbers by record slot after a save of a state.
fn next_numbers<M: Metric>(alloc: Global, state: &Loaded<M>) -> Result<Vec<Number>, AllocError>
    requires kept { IsKept (plain state.now.head).values state.now.records state.now.clusters }
    requires apart { AreApart state.now.places.numbers.items }
    ensures numbers { IfOk result (λ v. v.items
        ≡ record_slots (size_on (plain state.now.head).values) state.now.records.vectors
        state.now.places.numbers.items) }
    ensures bounded { OnOk result (AreBounded M.dist state.now.records state.now.clusters) }
{
    records_stand();
    know_records(&state.records);
    let size = slots_in_page(&state.head.params);
    let numbers = record_slots(alloc, size, &state.records, &state.places.numbers)?;
    know_rows(state.clusters.counts(), &numbers);
    Ok(numbers)
}

/// A tree is lawful.
fn know_tree<M: Metric>(index: &MTree<M>)
    ensures { IsLawful M.dist M.most index.now }
{
    let _root = index.root();
}

/// A state over its pages can be saved.
fn know_saved<M: Metric>(pages: &Pages, state: &Loaded<M>)
    requires kind { state.now.head.params.metric ≡ M.KIND }
    requires head { head_in_pages pages.now.list ≡ Ok (plain state.now.head) }
    requires can { CanSave (plain state.now.head) state.now.records }
    requires kept { IsKept (plain state.now.head).values state.now.records state.now.clusters }
    requires bounded { AreBounded M.dist state.now.records state.now.clusters }
    ensures { CanBeSaved M.dist M.most (plain state.now.head) state.now.records
        state.now.clusters }
{
    know_head(pages, &state.head);
    know_tree(state.clusters.index());
}

/// The nodes of a tree in preorder.
fn shapes_of<M: Metric>(alloc: Global, index: &MTree<M>) -> Result<Shapes, AllocError>
    ensures { IfOk result (λ shapes. shapes ≡ shapes_of index.now) }
{
    match index.root() {
        Some(root) => flatten(alloc, root),
        None => Ok(Shapes::new(alloc)),
    }
}

/// The head after one batch more, where the tree is laid so.
fn next_head<M: Metric>(state: &Loaded<M>, laid: &Layout) -> Head
    requires pages { length laid.now.kinds.items + 2 < 2 ^ 32 }
    requires batches { state.now.head.batches + 1 < 2 ^ 32 }
    requires count { maps.len state.now.records.vectors < 2 ^ 32 }
    ensures { plain result ≡ record (plain state.now.head) {
      pages = 2 + length laid.now.kinds.items;
      batches = state.now.head.batches + 1;
      count = maps.len
          state.now.records.vectors;
      root = get_or laid.now.refs.items 0 0;
      height = state.now.clusters.tree.height;
    } }
{
    Head {
        pages: laid.kinds.len() as u32 + 2,
        batches: state.head.batches + 1,
        count: state.records.len() as u32,
        root: laid.refs.first().copied().unwrap_or(0),
        height: state.clusters.index().height(),
        ..state.head
    }
}

/// What a save of a state leads to, over the pages that are there.
pub(crate) fn next_places<M: Metric>(
    alloc: Global,
    pages: &Pages,
    state: &Loaded<M>,
) -> Result<Next, AllocError>
    requires kind { state.now.head.params.metric ≡ M.KIND }
    requires paged { IsPaged (plain state.now.head) state.now.places pages.now.list }
    requires can { CanSave (plain state.now.head) state.now.records }
    requires kept { IsKept (plain state.now.head).values state.now.records state.now.clusters }
    ensures next { IfOk result (IsNext (plain state.now.head)
        (bodies_on (plain state.now.head) pages.now.list) state.now.records.vectors
        state.now.clusters) }
    ensures saved { OnOk result (CanBeSaved M.dist M.most (plain state.now.head)
        state.now.records state.now.clusters) }
{
    saved_are_read();
    layouts_are_sized();
    trees_are_small();
    trees_have_few_shapes();
    let numbers = next_numbers(alloc, state)?;
    know_saved(pages, state);
    let size = slots_in_page(&state.head.params);
    let mut shapes = shapes_of(alloc, state.clusters.index())?;
    let records = numbers.len() / size;
    let laid = lay(alloc, &state.places.kinds, records, &shapes)?;
    refer(&mut shapes, &laid.refs);
    Ok(Next {
        head: next_head(state, &laid),
        numbers,
        shapes,
        laid,
    })
}
