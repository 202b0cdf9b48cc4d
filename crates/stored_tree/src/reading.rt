//! The tree of pages.

ghost use Rattle.std.specs.Prelude.{◌≡◌, ◌↔◌, ◌+◌, ◌*◌, ◌<◌, ◌≤◌, ◌^◌, ℕ, List, Bool, length, IfOk};
ghost use Rattle.std.specs.Prelude.{Ok, None, Some, MatchResult};
ghost use Rattle.std.specs.List.{AllByRecursion};
ghost use Rattle.std.specs.FinMap as maps;
ghost use Rattle.vec_record.specs.Vectors.{IsWidth};
ghost use Rattle.vec_record.specs.Held.{HaveWidth};
ghost use Rattle.mtree_node.specs.declared.shape.BadPlace.{BadPlace as Place};
ghost use Rattle.mtree_node.specs.Walk.{first_failing, CanBeBuilt};
ghost use Rattle.mtree_index.specs.Tree.{contents};
ghost use Rattle.node_refs.specs.Pages.{HasSlots};
ghost use Rattle.node_refs.specs.Faults.{first_used, IsInside};
ghost use Rattle.node_refs.specs.Laws.{places_in, PageHasObjectsIn};
ghost use Rattle.node_walks.specs.Alike.{AreAlike, HaveVectors};
ghost use Rattle.tree_objects.specs.Laws.{AllPass, RowsPass, ShapesPass};
ghost use Rattle.stored_tree.specs.Reading.{empty_unless, tree_with, tree_below, tree_in};
ghost use Rattle.stored_tree.specs.Reading.{Fails};
ghost use Rattle.stored_tree.specs.Laws.{PageHasVectors, PagePasses};

use crate::fault::TreeFault;
use mtree_index::MTree;
use mtree_node::BuildFault;
use node_refs::{Listed, NodePage, first_used, is_root, list_nodes, place_of};
use std::alloc::Global;
use std::sync::ledger::Ledger;
use vec_record::{Metric, Records, Steps};

// The empty tree, where no place of a node is used.
fn read_empty<M: Metric>(
    alloc: Global,
    pages: &[NodePage],
    width: u32,
) -> Result<MTree<M>, TreeFault>
    requires few { length pages.now + 2 < 2 ^ 26 }
    requires slots { AllByRecursion HasSlots pages.now }
    requires width { IsWidth width }
    ensures tree { MatchResult result
        (λ t. empty_unless width (first_used pages.now) ≡ Ok t)
        (λ e. Fails e (empty_unless width (first_used pages.now))) }
    ensures empty { IfOk result (λ t. t ≡ tree_with width 0 None) }
{
    if let Some((page, offset)) = first_used(pages) {
        return Err(TreeFault::Damaged { page, offset });
    }
    Ok(MTree::empty(alloc, width))
}

// The tree of listed nodes, or the field where they are none.
fn build_listed<M: Metric, L: Ledger>(
    alloc: Global,
    height: u32,
    nodes: &Listed,
    records: &Records,
    steps: &mut Steps<L>,
) -> Result<MTree<M>, TreeFault>
    requires high { 0 < height }
    requires built { CanBeBuilt records.now.width (M.most records.now.width) height nodes.now.shapes
        records.now.vectors }
    requires inside { (p : Place)
        → first_failing M.dist height nodes.now.shapes records.now.vectors ≡ Some p
        → IsInside nodes.now p }
    requires vectors { HaveVectors records.now.width nodes.now.shapes records.now.vectors }
    ensures tree { (dist : List ℕ → List ℕ → ℕ) → AreAlike records.now.width M.dist dist
        → MatchResult result
        (λ t. tree_below dist records.now.width height nodes.now records.now.vectors ≡ Ok t)
        (λ e. Fails e
        (tree_below dist records.now.width height nodes.now records.now.vectors)) }
    ensures contents { IfOk result (λ t. contents t ≡ records.now.vectors) }
    ensures size { IfOk result (λ t. (t.width ≡ records.now.width) × (t.height ≡ height)) }
    ensures passes { (test : List ℕ → Bool) → ShapesPass test nodes.now.shapes
        → RowsPass test records.now.vectors → IfOk result (AllPass test) }
    ensures counted { steps.new ≤ steps.old + 8 * maps.len records.now.vectors }
{
    match MTree::from_shapes(alloc, height, &nodes.shapes, records, steps) {
        Ok(tree) => Ok(tree),
        Err(BuildFault::Bad(place)) => {
            let (page, offset) = place_of(records.width(), nodes, place);
            Err(TreeFault::Damaged { page, offset })
        }
        Err(BuildFault::Memory) => Err(TreeFault::Memory),
    }
}

/// The tree that pages hold below a root's reference, over exactly the records. The distance may be
/// any that the metric computes on vectors of the width. It computes at most eight distances for
/// each record.
///
/// The pages are those of a store: fewer than `2 ^ 26` with pages 0 and 1, a leaf page with at most
/// 63 slots, room for at most 200,000 nodes, and routing objects of the records' width.
///
/// # Errors
///
/// `Damaged` with the page and the offset of the first field that fails; `Memory` on want of memory.
pub fn read_tree<M: Metric, L: Ledger>(
    alloc: Global,
    height: u32,
    root: u32,
    pages: &[NodePage],
    records: &Records,
    steps: &mut Steps<L>,
) -> Result<MTree<M>, TreeFault>
    requires low { height ≤ 6 }
    requires empty { (height ≡ 0) ↔ (maps.len records.now.vectors ≡ 0) }
    requires few { length pages.now + 2 < 2 ^ 26 }
    requires slots { AllByRecursion HasSlots pages.now }
    requires room { places_in pages.now ≤ 200000 }
    requires objects { AllByRecursion
        (PageHasObjectsIn records.now.width (M.most records.now.width)) pages.now }
    requires width { IsWidth records.now.width }
    requires vectors { AllByRecursion (PageHasVectors records.now.width) pages.now }
    requires records { HaveWidth records.now.width records.now.vectors }
    ensures tree { (dist : List ℕ → List ℕ → ℕ) → AreAlike records.now.width M.dist dist
        → MatchResult result
        (λ t. tree_in dist records.now.width height root pages.now records.now.vectors ≡ Ok t)
        (λ e. Fails e
        (tree_in dist records.now.width height root pages.now records.now.vectors)) }
    ensures contents { IfOk result (λ t. contents t ≡ records.now.vectors) }
    ensures size { IfOk result (λ t. (t.width ≡ records.now.width) × (t.height ≡ height)) }
    ensures passes { (test : List ℕ → Bool) → AllByRecursion (PagePasses test) pages.now
        → RowsPass test records.now.vectors → IfOk result (AllPass test) }
    ensures counted { steps.new ≤ steps.old + 8 * maps.len records.now.vectors }
{
    if height == 0 {
        return read_empty(alloc, pages, records.width());
    }
    if !is_root(pages, height, root) {
        return Err(TreeFault::Damaged {
            page: 1,
            offset: 36,
        });
    }
    let nodes = list_nodes(alloc, pages, height, root)?;
    build_listed(alloc, height, &nodes, records, steps)
}
