//! A node that is left with too few entries joins its sibling.

ghost use Rattle.std.specs.Prelude.{◌≡◌, ℕ, ◌+◌, ◌-◌, ◌*◌, ◌<◌, ◌≤◌, ◌++◌, List, length, slice_get};
ghost use Rattle.std.specs.Prelude.{min, IfOk, OnOk, Some, None};
ghost use Rattle.std.specs.List.{AllByRecursion};
ghost use Rattle.std.specs.Option.{option_copied};
ghost use Rattle.vec_record.specs.Vectors.{IsWidth};
ghost use Rattle.mtree_node.specs.declared.node.InnerEntry.{out-InnerEntry, roll-InnerEntry};
ghost use Rattle.mtree_node.specs.Lists.{HaveVectorsOf};
ghost use Rattle.mtree_index.specs.Insertion.{HasWidth, outcome, entries_of, settled_leaf};
ghost use Rattle.mtree_index.specs.Insertion.{settled_inner};
ghost use Rattle.mtree_index.specs.Entries.{leaf_with_parent, inner_with_parent};
ghost use Rattle.mtree_index.specs.Removal.{size, joined_at, joined, refilled, farthest, all_under};
ghost use Rattle.mtree_index.specs.Joinable.{IsJoinable, IsJoinableAt};

use crate::settle::{Pair, put_pair, settle_inner, settle_leaf};
use crate::under::{append, gather, gather_leaf};
use items::Items;
use mtree_node::{InnerEntry, LeafEntries, Node};
use std::alloc::{AllocError, Global};
use std::sync::ledger::Ledger;
use vec_record::{Metric, Steps, Vector};

// No node but the root has fewer entries.
const FEWEST: usize = 7;

fn size(node: &Node) -> usize
    ensures { result ≡ size node.now }
{
    match node {
        Node::Leaf { tag: _, entries } => entries.len(),
        Node::Inner { tag: _, entries } => entries.len(),
    }
}

// The entries of two leaves in one leaf under the object, with its radius; or the pair of a split.
fn join_leaves<M: Metric, L: Ledger>(
    alloc: Global,
    object: &Vector,
    radius: &mut u32,
    tag: u32,
    entries: &mut LeafEntries,
    right_tag: u32,
    more: LeafEntries,
    steps: &mut Steps<L>,
) -> Result<Option<Pair>, AllocError>
    requires width { IsWidth (length object.now) }
    requires at_most { length entries.old + length more ≤ 36 }
    requires left { HaveVectorsOf (length object.now) entries.old }
    requires right { HaveVectorsOf (length object.now) more }
    ensures one { IfOk result (λ pair. pair ≡ None
        → (settled_leaf M.dist (M.most (length object.now)) tag right_tag (entries.old ++ more)
        ≡ outcome None (Node.Leaf tag (entries.old ++ more)))
        × (entries.new ≡ all_under M.dist (λ e. e.vector) leaf_with_parent object.now (entries.old ++ more))
        × (radius.new ≡ min (farthest M.dist (λ e. e.vector) (λ e. 0) object.now (entries.old ++ more)) (M.most (length object.now)))) }
    ensures two { IfOk result (λ pair. (p : _) → pair ≡ Some p
        → settled_leaf M.dist (M.most (length object.now)) tag right_tag (entries.old ++ more)
        ≡ outcome pair (Node.Leaf tag entries.new)) }
    ensures objects { IfOk result (HasWidth (length object.now)) }
    ensures counted { steps.new ≤ steps.old + 1332 }
{
    let width = object.as_slice().len() as u32;
    entries.append(&more)?;
    let pair = settle_leaf::<M, L>(alloc, width, tag, right_tag, entries, steps)?;
    let Some(pair) = pair else {
        *radius = gather_leaf::<M, L>(alloc, object, M::greatest(width), entries, steps)?;
        return Ok(None);
    };
    Ok(Some(pair))
}

// The same of two inner nodes.
fn join_inner<M: Metric, L: Ledger>(
    alloc: Global,
    object: &Vector,
    radius: &mut u32,
    tag: u32,
    entries: &mut Items<InnerEntry>,
    right_tag: u32,
    more: Items<InnerEntry>,
    steps: &mut Steps<L>,
) -> Result<Option<Pair>, AllocError>
    requires width { IsWidth (length object.now) }
    requires at_most { length entries.old + length more ≤ 36 }
    requires left { AllByRecursion (λ e. length (out-InnerEntry e).object ≡ length object.now)
        entries.old }
    requires right { AllByRecursion (λ e. length (out-InnerEntry e).object ≡ length object.now)
        more }
    ensures one { IfOk result (λ pair. pair ≡ None
        → (settled_inner M.dist (M.most (length object.now)) tag right_tag (entries.old ++ more)
        ≡ outcome None (Node.Inner tag (entries.old ++ more)))
        × (entries.new ≡ all_under M.dist (λ e. (out-InnerEntry e).object) inner_with_parent object.now (entries.old ++ more))
        × (radius.new ≡ min (farthest M.dist (λ e. (out-InnerEntry e).object) (λ e. (out-InnerEntry e).radius) object.now (entries.old ++ more)) (M.most (length object.now)))) }
    ensures two { IfOk result (λ pair. (p : _) → pair ≡ Some p
        → settled_inner M.dist (M.most (length object.now)) tag right_tag (entries.old ++ more)
        ≡ outcome pair (Node.Inner tag entries.new)) }
    ensures objects { IfOk result (HasWidth (length object.now)) }
    ensures counted { steps.new ≤ steps.old + 1332 }
{
    let width = object.as_slice().len() as u32;
    append(entries, more)?;
    let pair = settle_inner::<M, L>(alloc, width, tag, right_tag, entries, steps)?;
    let Some(pair) = pair else {
        *radius = gather::<M, InnerEntry, L>(object, M::greatest(width), entries, steps);
        return Ok(None);
    };
    Ok(Some(pair))
}

// Joins the node of an entry with that of its right neighbour. The entry then stands for both, or
// gives way to the pair.
fn join<M: Metric, L: Ledger>(
    alloc: Global,
    left: &mut InnerEntry,
    right: InnerEntry,
    steps: &mut Steps<L>,
) -> Result<Option<Pair>, AllocError>
    requires width { IsWidth (length (out-InnerEntry left.old).object) }
    requires joinable { IsJoinable (length (out-InnerEntry left.old).object) left.old right }
    ensures is { IfOk result (λ pair. (over : _) → entries_of M.dist over pair left.new
        ≡ joined M.dist (M.most (length (out-InnerEntry left.old).object)) over left.old right) }
    ensures objects { IfOk result (HasWidth (length (out-InnerEntry left.old).object)) }
    ensures counted { steps.new ≤ steps.old + 1332 }
{
    let object = &left.object;
    let radius = &mut left.radius;
    match (left.child.get_mut(), right.child.into_inner()) {
        (
            Node::Leaf { tag, entries },
            Node::Leaf {
                tag: right_tag,
                entries: more,
            },
        ) => { join_leaves::<M, L>(alloc, object, radius, *tag, entries, right_tag, more, steps) }
        (
            Node::Inner { tag, entries },
            Node::Inner {
                tag: right_tag,
                entries: more,
            },
        ) => { join_inner::<M, L>(alloc, object, radius, *tag, entries, right_tag, more, steps) }
        _ => unreachable!(),
    }
}

// Joins the node of the entry at a place with the next one.
fn join_at<M: Metric, L: Ledger>(
    alloc: Global,
    width: u32,
    entries: &mut Items<InnerEntry>,
    place: usize,
    over: Option<&Vector>,
    steps: &mut Steps<L>,
) -> Result<(), AllocError>
    requires width { IsWidth width }
    requires over { (object : _) → option_copied over ≡ Some object → length object ≡ width }
    requires within { place + 1 < length entries.old }
    requires room { length entries.old ≤ 30 }
    requires joinable { (left right : _) → slice_get entries.old place ≡ Some left
        → slice_get entries.old (place + 1) ≡ Some right → IsJoinable width left right }
    ensures is { OnOk result (entries.new
        ≡ joined_at place (joined M.dist (M.most width) (option_copied over.entry)) entries.old) }
    ensures counted { steps.new ≤ steps.old + 1334 }
{
    let right = entries.remove(place + 1);
    let pair = join::<M, L>(alloc, entries.item_mut(place), right, steps)?;
    put_pair::<M, L>(entries, place, over, pair, steps)
}

/// Sees to it that the node of the entry at a place, which has lost an entry, has enough: with too
/// few it joins its left sibling, or its right one where it is the first.
pub fn refill<M: Metric, L: Ledger>(
    alloc: Global,
    width: u32,
    entries: &mut Items<InnerEntry>,
    place: usize,
    over: Option<&Vector>,
    steps: &mut Steps<L>,
) -> Result<(), AllocError>
    requires width { IsWidth width }
    requires over { (object : _) → option_copied over ≡ Some object → length object ≡ width }
    requires within { place < length entries.old }
    requires some { 2 ≤ length entries.old }
    requires room { length entries.old ≤ 30 }
    requires joinable { IsJoinableAt width place entries.old }
    ensures is { OnOk result (entries.new
        ≡ refilled M.dist (M.most width) (option_copied over.entry) place entries.old) }
    ensures counted { steps.new ≤ steps.old + 1334 }
{
    if size(entries.as_slice()[place].child.get()) >= FEWEST {
        return Ok(());
    }
    join_at::<M, L>(alloc, width, entries, place.saturating_sub(1), over, steps)
}
