//! The removal of a pair below a node: the search, and the mending on the way back.

ghost use Rattle.std.specs.Prelude.{◌≡◌, ℕ, ◌+◌, ◌-◌, ◌*◌, ◌<◌, ◌≤◌, List, Option, length};
ghost use Rattle.std.specs.Prelude.{slice_get, sum_by, IfOk, OnOk, Ok, Some, None, true, false};
ghost use Rattle.std.specs.List.{AllByRecursion};
ghost use Rattle.std.specs.Option.{option_copied, option_map};
ghost use Rattle.vec_record.specs.Vectors.{IsWidth, IsVector};
ghost use Rattle.mtree_node.specs.declared.node.InnerEntry.{out-InnerEntry};
ghost use Rattle.mtree_node.specs.Tree.{IsNode, IsInnerEntry, leaves};
ghost use Rattle.mtree_node.specs.Lists.{HaveVectorsOf};
ghost use Rattle.mtree_node.specs.Cost.{leaf_cost, entry_cost, cost};
ghost use Rattle.mtree_index.specs.Removal.{is_pair, without_first, first_changed, entry_without};
ghost use Rattle.mtree_index.specs.Removal.{removed, refilled, to_object};
ghost use Rattle.mtree_index.specs.Joinable.{given, given_at};

use crate::joining::refill;
use crate::pruning::is_skipped;
use items::Items;
use mtree_node::{InnerEntry, LeafEntries, Node};
use std::alloc::{AllocError, Global};
use std::sync::ledger::Ledger;
use vec_record::{Metric, Number, Steps, Vector};

// Whether the entry at a place is the pair. Only one with the number costs a distance.
fn is_pair<M: Metric, L: Ledger>(
    entries: &LeafEntries,
    at: usize,
    to_object: Option<u32>,
    number: Number,
    vector: &Vector,
    steps: &mut Steps<L>,
) -> bool
    requires place { at < length entries.now }
    requires few { at < 256 }
    requires vectors { HaveVectorsOf (length vector.now) entries.now }
    ensures value { (e : _) → slice_get entries.now at ≡ Some e → (over : Option (List ℕ))
        → to_object ≡ option_map (M.dist vector.now) over → result
        ≡ is_pair M.dist vector.now number over e }
    ensures counted { (e : _) → slice_get entries.now at ≡ Some e → steps.new
        ≤ steps.old + leaf_cost M.dist vector.now 0 to_object e }
{
    if entries.numbers()[at] != number || is_skipped(to_object, 0, entries.parents()[at]) {
        return false;
    }
    entries.distance::<M, L>(vector, at, steps) == 0
}

// Takes the pair out of a leaf, if it is there.
fn remove_from_leaf<M: Metric, L: Ledger>(
    entries: &mut LeafEntries,
    to_object: Option<u32>,
    number: Number,
    vector: &Vector,
    steps: &mut Steps<L>,
) -> bool
    requires few { length entries.old ≤ 30 }
    requires vectors { HaveVectorsOf (length vector.now) entries.old }
    ensures is { (over : Option (List ℕ)) → to_object ≡ option_map (M.dist vector.now) over
        → given result entries.new
        ≡ without_first (is_pair M.dist vector.now number over) entries.old }
    ensures same { result ≡ false → entries.new ≡ entries.old }
    ensures counted { steps.new
        ≤ steps.old + sum_by (leaf_cost M.dist vector.now 0 to_object) entries.old }
{
    for i in 0..entries.len() {
        if is_pair::<M, L>(entries, i, to_object, number, vector, steps) {
            entries.remove(i);
            return true;
        }
    }
    false
}

// Takes the pair out of an entry's child, if it is found there.
#[cycle(remove)]
fn remove_under<M: Metric, L: Ledger>(
    alloc: Global,
    entry: &mut InnerEntry,
    height: u32,
    to_object: Option<u32>,
    number: Number,
    vector: &Vector,
    steps: &mut Steps<L>,
) -> Result<bool, AllocError>
    requires width { IsWidth (length vector.now) }
    requires object { IsVector (length vector.now) (out-InnerEntry entry.old).object }
    requires node { IsNode M.dist (length vector.now) (M.most (length vector.now)) height
        (Some (out-InnerEntry entry.old).object) (out-InnerEntry entry.old).child }
    ensures is { IfOk result (λ done. (over : Option (List ℕ)) → to_object
        ≡ option_map (M.dist vector.now) over → given done entry.new
        ≡ entry_without M.dist vector.now
        (λ object m. removed M.dist (M.most (length vector.now)) number vector.now height
        (Some object) m) over entry.old) }
    ensures same { result ≡ Ok false → entry.new ≡ entry.old }
    ensures absent { (over : Option (List ℕ)) → to_object ≡ option_map (M.dist vector.now) over
        → entry_without M.dist vector.now
        (λ object m. removed M.dist (M.most (length vector.now)) number vector.now height
        (Some object) m) over entry.old ≡ None → result ≡ Ok false }
    ensures searched { result ≡ Ok false → steps.new
        ≤ steps.old + entry_cost M.dist vector.now 0 (cost M.dist vector.now 0 height) to_object
        (out-InnerEntry entry.old) }
    ensures counted { steps.new
        ≤ steps.old + 1400 * height + entry_cost M.dist vector.now 0
        (cost M.dist vector.now 0 height) to_object (out-InnerEntry entry.old) }
{
    if is_skipped(to_object, u64::from(entry.radius), entry.parent) {
        return Ok(false);
    }
    let distance = M::distance(vector, &entry.object, steps);
    if distance > entry.radius {
        return Ok(false);
    }
    remove_below::<M, L>(
        alloc,
        entry.child.get_mut(),
        height,
        Some(&entry.object),
        Some(distance),
        number,
        vector,
        steps,
    )
}

// Takes the pair out of the child of the first entry where it is found, and gives the entry's
// place.
#[cycle(remove)]
fn remove_first<M: Metric, L: Ledger>(
    alloc: Global,
    entries: &mut Items<InnerEntry>,
    height: u32,
    over: Option<&Vector>,
    to_object: Option<u32>,
    number: Number,
    vector: &Vector,
    steps: &mut Steps<L>,
) -> Result<Option<usize>, AllocError>
    requires width { IsWidth (length vector.now) }
    requires to_object { to_object ≡ option_map (M.dist vector.now) (option_copied over) }
    requires entries { AllByRecursion
        (λ e. IsInnerEntry M.dist (length vector.now) (M.most (length vector.now))
        (λ object m. IsNode M.dist (length vector.now) (M.most (length vector.now)) height
        (Some object) m) (leaves height) (option_copied over) (out-InnerEntry e)) entries.old }
    ensures is { IfOk result (λ place. given_at place entries.new
        ≡ first_changed (entry_without M.dist vector.now
        (λ object m. removed M.dist (M.most (length vector.now)) number vector.now height
        (Some object) m) (option_copied over.entry)) entries.old) }
    ensures same { result ≡ Ok None → entries.new ≡ entries.old }
    ensures absent { first_changed
        (entry_without M.dist vector.now
        (λ object m. removed M.dist (M.most (length vector.now)) number vector.now height
        (Some object) m) (option_copied over.entry)) entries.old ≡ None → result ≡ Ok None }
    ensures searched { result ≡ Ok None → steps.new
        ≤ steps.old + sum_by (λ e. entry_cost M.dist vector.now 0 (cost M.dist vector.now 0 height)
        to_object (out-InnerEntry e)) entries.old }
    ensures counted { steps.new
        ≤ steps.old + 1400 * height + sum_by
        (λ e. entry_cost M.dist vector.now 0 (cost M.dist vector.now 0 height) to_object
        (out-InnerEntry e)) entries.old }
{
    for i in 0..entries.len() {
        let entry = entries.item_mut(i);
        if remove_under::<M, L>(alloc, entry, height, to_object, number, vector, steps)? {
            return Ok(Some(i));
        }
    }
    Ok(None)
}

#[cycle(remove)]
fn remove_among<M: Metric, L: Ledger>(
    alloc: Global,
    entries: &mut Items<InnerEntry>,
    height: u32,
    over: Option<&Vector>,
    to_object: Option<u32>,
    number: Number,
    vector: &Vector,
    steps: &mut Steps<L>,
) -> Result<bool, AllocError>
    requires width { IsWidth (length vector.now) }
    requires over { (object : _) → option_copied over ≡ Some object
        → IsVector (length vector.now) object }
    requires to_object { to_object ≡ option_map (M.dist vector.now) (option_copied over) }
    requires some { 2 ≤ length entries.old }
    requires room { length entries.old ≤ 30 }
    requires entries { AllByRecursion
        (λ e. IsInnerEntry M.dist (length vector.now) (M.most (length vector.now))
        (λ object m. IsNode M.dist (length vector.now) (M.most (length vector.now)) height
        (Some object) m) (leaves height) (option_copied over) (out-InnerEntry e)) entries.old }
    ensures is { IfOk result (λ done. given done entries.new
        ≡ option_map (λ p. refilled M.dist (M.most (length vector.now)) (option_copied over.entry)
        p.0 p.1) (first_changed
        (entry_without M.dist vector.now
        (λ object m. removed M.dist (M.most (length vector.now)) number vector.now height
        (Some object) m) (option_copied over.entry)) entries.old)) }
    ensures same { result ≡ Ok false → entries.new ≡ entries.old }
    ensures absent { first_changed
        (entry_without M.dist vector.now
        (λ object m. removed M.dist (M.most (length vector.now)) number vector.now height
        (Some object) m) (option_copied over.entry)) entries.old ≡ None → result ≡ Ok false }
    ensures searched { result ≡ Ok false → steps.new
        ≤ steps.old + sum_by (λ e. entry_cost M.dist vector.now 0 (cost M.dist vector.now 0 height)
        to_object (out-InnerEntry e)) entries.old }
    ensures counted { steps.new
        ≤ steps.old + 1400 + 1400 * height + sum_by
        (λ e. entry_cost M.dist vector.now 0 (cost M.dist vector.now 0 height) to_object
        (out-InnerEntry e)) entries.old }
{
    let width = vector.as_slice().len() as u32;
    let place = remove_first::<M, L>(
        alloc, entries, height, over, to_object, number, vector, steps,
    )?;
    let Some(place) = place else {
        return Ok(false);
    };
    refill::<M, L>(alloc, width, entries, place, over, steps)?;
    Ok(true)
}

/// Takes the pair out of a node whose object is `over`, none in the root, at the distance
/// `to_object` from the vector. Answers whether it was found; a node that loses it may be left
/// with too few entries.
#[cycle(remove)]
pub fn remove_below<M: Metric, L: Ledger>(
    alloc: Global,
    node: &mut Node,
    height: u32,
    over: Option<&Vector>,
    to_object: Option<u32>,
    number: Number,
    vector: &Vector,
    steps: &mut Steps<L>,
) -> Result<bool, AllocError>
    requires width { IsWidth (length vector.now) }
    requires over { (object : _) → option_copied over ≡ Some object
        → IsVector (length vector.now) object }
    requires to_object { to_object ≡ option_map (M.dist vector.now) (option_copied over) }
    requires node { IsNode M.dist (length vector.now) (M.most (length vector.now)) height
        (option_copied over) node.old }
    ensures is { IfOk result (λ done. given done node.new
        ≡ removed M.dist (M.most (length vector.now)) number vector.now height
        (option_copied over.entry) node.old) }
    ensures same { result ≡ Ok false → node.new ≡ node.old }
    ensures absent { removed M.dist (M.most (length vector.now)) number vector.now height
        (option_copied over.entry) node.old ≡ None → result ≡ Ok false }
    ensures searched { result ≡ Ok false → steps.new
        ≤ steps.old + cost M.dist vector.now 0 height to_object node.old }
    ensures counted { steps.new
        ≤ steps.old + 1400 * height + cost M.dist vector.now 0 height to_object node.old }
{
    match node {
        Node::Leaf { tag: _, entries } => {
            Ok(remove_from_leaf::<M, L>(entries, to_object, number, vector, steps))
        }
        Node::Inner { tag: _, entries } => {
            remove_among::<M, L>(
                alloc,
                entries,
                height - 1,
                over,
                to_object,
                number,
                vector,
                steps,
            )
        }
    }
}
