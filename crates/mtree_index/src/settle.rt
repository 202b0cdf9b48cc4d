//! A node with too many entries is split, and the two halves take the place of its entry.

ghost use Rattle.std.specs.Prelude.{◌≡◌, ℕ, ◌+◌, ◌*◌, ◌<◌, ◌≤◌, length, slice_get, IfOk, OnOk};
ghost use Rattle.std.specs.Prelude.{Some};
ghost use Rattle.std.specs.List.{AllByRecursion};
ghost use Rattle.std.specs.Option.{option_copied};
ghost use Rattle.vec_record.specs.Vectors.{IsWidth};
ghost use Rattle.mtree_node.specs.declared.node.InnerEntry.{out-InnerEntry, roll-InnerEntry};
ghost use Rattle.mtree_node.specs.Lists.{HaveVectorsOf};
ghost use Rattle.mtree_node.specs.Tree.{parent_distance};
ghost use Rattle.mtree_index.specs.Insertion.{entry_of, outcome, HasWidth, settled_leaf};
ghost use Rattle.mtree_index.specs.Insertion.{settled_inner, entries_of, placed_under, replaced_at};

use crate::split::{Half, split};
use items::{Boxed, Items};
use mtree_node::{InnerEntry, LeafEntries, LeafEntry, Node};
use std::alloc::{AllocError, Global};
use std::mem;
use std::sync::ledger::Ledger;
use vec_record::{Metric, Steps, Vector};

// The most entries of a node.
const CAPACITY: usize = 30;

/// The two entries that take the place of the entry of a node that was split.
#[derive(Drop)]
pub struct Pair {
    pub left: InnerEntry,
    pub right: InnerEntry,
}

// The distance from the object of a node, 0 where it is the root.
pub fn distance_from<M: Metric, L: Ledger>(
    over: Option<&Vector>,
    vector: &Vector,
    steps: &mut Steps<L>,
) -> u32
    requires width { IsWidth (length vector.now) }
    requires same { (object : _) → option_copied over ≡ Some object →
        length object ≡ length vector.now }
    ensures value { result ≡ parent_distance M.dist (option_copied over.entry) vector.now }
    ensures counted { steps.new ≤ steps.old + 1 }
{
    match over {
        None => 0,
        Some(object) => M::distance(object, vector, steps),
    }
}

// The entry of a half whose node this is. Its parent distance is 0 until it stands below an object.
fn entry_over(
    alloc: Global,
    object: Vector,
    radius: u32,
    node: Node,
) -> Result<InnerEntry, AllocError>
    ensures { IfOk result (λ e. e ≡ roll-InnerEntry
        (record { object = object; radius = radius; parent = 0; child = node })) }
{
    Ok(InnerEntry {
        object,
        radius,
        parent: 0,
        child: Boxed::new(alloc, node)?,
    })
}

// The entry of a half of a leaf.
fn leaf_over(
    alloc: Global,
    width: u32,
    tag: u32,
    half: Half<LeafEntry>,
) -> Result<InnerEntry, AllocError>
    requires width { IsWidth width }
    requires vectors { HaveVectorsOf width half.entries }
    ensures { IfOk result (λ e. e ≡ entry_of half (Node.Leaf tag half.entries)) }
{
    let Half {
        object,
        radius,
        entries,
    } = half;
    let entries = LeafEntries::from_slice(alloc, width, entries.as_slice())?;
    entry_over(alloc, object, radius, Node::Leaf { tag, entries })
}

/// Splits a leaf that has too many entries. The left node keeps the tag, and the right one gets
/// its own.
#[tactic(auto, using(crate::proofs::Twice::few_pairs))]
pub fn settle_leaf<M: Metric, L: Ledger>(
    alloc: Global,
    width: u32,
    tag: u32,
    right_tag: u32,
    entries: &LeafEntries,
    steps: &mut Steps<L>,
) -> Result<Option<Pair>, AllocError>
    requires width { IsWidth width }
    requires vectors { HaveVectorsOf width entries.now }
    requires at_most { length entries.now ≤ 36 }
    ensures is { IfOk result (λ pair. outcome pair (Node.Leaf tag entries.now) ≡
        settled_leaf M.dist (M.most width) tag right_tag entries.now) }
    ensures objects { IfOk result (HasWidth width) }
    ensures counted { steps.new ≤ steps.old + 1296 }
{
    if entries.len() <= CAPACITY {
        return Ok(None);
    }
    let all = entries.to_vec(alloc)?;
    let (left_half, right_half) = split::<M, LeafEntry, L>(alloc, width, all, steps)?;
    let left = leaf_over(alloc, width, tag, left_half)?;
    let right = leaf_over(alloc, width, right_tag, right_half)?;
    Ok(Some(Pair { left, right }))
}

/// Splits an inner node that has too many entries. The left node keeps the tag, and the right one
/// gets its own.
#[tactic(auto, using(crate::proofs::Twice::few_pairs))]
pub fn settle_inner<M: Metric, L: Ledger>(
    alloc: Global,
    width: u32,
    tag: u32,
    right_tag: u32,
    entries: &mut Items<InnerEntry>,
    steps: &mut Steps<L>,
) -> Result<Option<Pair>, AllocError>
    requires width { IsWidth width }
    requires vectors { AllByRecursion (λ e. length (out-InnerEntry e).object ≡ width) entries.old }
    requires at_most { length entries.old ≤ 36 }
    ensures is { IfOk result (λ pair. outcome pair (Node.Inner tag entries.new) ≡
        settled_inner M.dist (M.most width) tag right_tag entries.old) }
    ensures objects { IfOk result (HasWidth width) }
    ensures counted { steps.new ≤ steps.old + 1296 }
{
    if entries.len() <= CAPACITY {
        return Ok(None);
    }
    let all = mem::replace(entries, Items::new(alloc)).into_vec();
    let (left, right) = split::<M, InnerEntry, L>(alloc, width, all, steps)?;
    let Half {
        object,
        radius,
        entries,
    } = left;
    let left = entry_over(alloc, object, radius, Node::Inner { tag, entries })?;
    let Half {
        object,
        radius,
        entries,
    } = right;
    let right = entry_over(
        alloc,
        object,
        radius,
        Node::Inner {
            tag: right_tag,
            entries,
        },
    )?;
    Ok(Some(Pair { left, right }))
}

// The entries that stand for the node below the entry at a place: the pair in place of that entry,
// if there is one.
pub fn put_pair<M: Metric, L: Ledger>(
    entries: &mut Items<InnerEntry>,
    place: usize,
    over: Option<&Vector>,
    pair: Option<Pair>,
    steps: &mut Steps<L>,
) -> Result<(), AllocError>
    requires within { place < length entries.old }
    requires room { length entries.old ≤ 30 }
    requires widths { (width : ℕ) × IsWidth width × HasWidth width pair ×
        ((object : _) → option_copied over ≡ Some object → length object ≡ width) }
    ensures is { OnOk result ((e : _) → slice_get entries.old place ≡ Some e → entries.new ≡
        replaced_at place (λ _. entries_of M.dist (option_copied over.entry) pair e) entries.old) }
    ensures counted { steps.new ≤ steps.old + 2 }
{
    let Some(Pair { left, right }) = pair else {
        return Ok(());
    };
    let left = stand_under::<M, L>(over, left, steps);
    let right = stand_under::<M, L>(over, right, steps);
    *entries.item_mut(place) = left;
    entries.insert(place + 1, right)
}

fn stand_under<M: Metric, L: Ledger>(
    over: Option<&Vector>,
    entry: InnerEntry,
    steps: &mut Steps<L>,
) -> InnerEntry
    requires width { IsWidth (length (out-InnerEntry entry).object) }
    requires over { (object : _) → option_copied over ≡ Some object →
        length object ≡ length (out-InnerEntry entry).object }
    ensures is { result ≡ placed_under M.dist (option_copied over.entry) entry }
    ensures counted { steps.new ≤ steps.old + 1 }
{
    let mut entry = entry;
    entry.parent = distance_from::<M, L>(over, &entry.object, steps);
    entry
}
