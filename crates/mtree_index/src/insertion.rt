//! Insertion below a node: the choice of the entry, and the split on the way back.

ghost use Rattle.std.specs.Prelude.{◌≡◌, ℕ, ◌+◌, ◌*◌, ◌<◌, ◌≤◌, ◌^◌, List, Option, length, map};
ghost use Rattle.std.specs.Prelude.{slice_index, IfOk, OnOk, Some};
ghost use Rattle.std.specs.List.{AllByRecursion};
ghost use Rattle.std.specs.Option.{option_copied};
ghost use Rattle.vec_record.specs.Vectors.{IsWidth};
ghost use Rattle.mtree_node.specs.declared.node.InnerEntry.{out-InnerEntry};
ghost use Rattle.mtree_node.specs.Tree.{IsNode, IsInnerEntry, leaves};
ghost use Rattle.mtree_index.specs.Insertion.{rank, chosen, entry_distance, outcome, HasWidth};
ghost use Rattle.mtree_index.specs.Insertion.{entries_of, after_child, replaced_at, renewed};
ghost use Rattle.mtree_index.specs.Insertion.{inserted};

use crate::settle::{Pair, distance_from, put_pair, settle_inner, settle_leaf};
use items::Items;
use mtree_node::{InnerEntry, Node};
use std::alloc::{AllocError, Global};
use std::sync::ledger::Ledger;
use vec_record::{Metric, Number, Steps, Vector};

const BEYOND: u64 = 1 << 32;

fn rank_of(distance: u32, radius: u32) -> u64
    ensures value { result ≡ rank distance radius }
    ensures small { result < 2 ^ 33 }
{
    if distance <= radius {
        u64::from(distance)
    } else {
        BEYOND + u64::from(distance - radius)
    }
}

// The place of the entry below which a vector goes, and the vector's distance to its object.
fn choose_entry<M: Metric, L: Ledger>(
    entries: &[InnerEntry],
    vector: &Vector,
    steps: &mut Steps<L>,
) -> (usize, u32)
    requires width { IsWidth (length vector.now) }
    requires vectors { AllByRecursion (λ e. length (out-InnerEntry e).object ≡ length vector.now)
        entries.now }
    requires some { 0 < length entries.now }
    ensures place { result.0 ≡ chosen M.dist vector.now entries.now }
    ensures within { result.0 < length entries.now }
    ensures distance { result.1
        ≡ slice_index (map (entry_distance M.dist vector.now) entries.now) result.0 }
    ensures counted { steps.new ≡ steps.old + length entries.now }
{
    let mut place = 0usize;
    let mut least = u64::MAX;
    let mut nearest = 0u32;
    for (i, entry) in entries.iter().enumerate() {
        let distance = M::distance(&entry.object, vector, steps);
        let rank = rank_of(distance, entry.radius);
        if rank < least {
            place = i;
            least = rank;
            nearest = distance;
        }
    }
    (place, nearest)
}

// Inserts below an entry, whose radius then reaches to the vector. Gives the pair of halves of its
// child where that was split.
#[cycle(insert)]
fn insert_under<M: Metric, L: Ledger>(
    alloc: Global,
    entry: &mut InnerEntry,
    distance: u32,
    height: u32,
    number: Number,
    vector: &Vector,
    steps: &mut Steps<L>,
) -> Result<Option<Pair>, AllocError>
    requires width { IsWidth (length vector.now) }
    requires node { IsNode M.dist (length vector.now) (M.most (length vector.now)) height
        (Some (out-InnerEntry entry.old).object) (out-InnerEntry entry.old).child }
    requires object { length (out-InnerEntry entry.old).object ≡ length vector.now }
    ensures is { IfOk result (λ pair. (over : Option (List ℕ))
        → entries_of M.dist over pair entry.new
        ≡ after_child M.dist over (out-InnerEntry entry.old) distance
        (inserted M.dist (M.most (length vector.now)) number vector.now height
        (Some (out-InnerEntry entry.old).object) (out-InnerEntry entry.old).child)) }
    ensures objects { IfOk result (HasWidth (length vector.now)) }
    ensures object_stays { (out-InnerEntry entry.new).object ≡ (out-InnerEntry entry.old).object }
    ensures counted { steps.new ≤ steps.old + 1400 * height }
{
    entry.radius = entry.radius.max(distance);
    insert_below::<M, L>(
        alloc,
        entry.child.get_mut(),
        height,
        Some(&entry.object),
        number,
        vector,
        steps,
    )
}

#[cycle(insert)]
fn insert_among<M: Metric, L: Ledger>(
    alloc: Global,
    entries: &mut Items<InnerEntry>,
    height: u32,
    over: Option<&Vector>,
    number: Number,
    vector: &Vector,
    steps: &mut Steps<L>,
) -> Result<(), AllocError>
    requires width { IsWidth (length vector.now) }
    requires over { (object : _) → option_copied over ≡ Some object → length object
        ≡ length vector.now }
    requires some { 0 < length entries.old }
    requires room { length entries.old ≤ 30 }
    requires entries { AllByRecursion
        (λ e. IsInnerEntry M.dist (length vector.now) (M.most (length vector.now))
        (λ object m. IsNode M.dist (length vector.now) (M.most (length vector.now)) height
        (Some object) m) (leaves height) (option_copied over) (out-InnerEntry e)) entries.old }
    ensures is { OnOk result (entries.new
        ≡ replaced_at (chosen M.dist vector.now entries.old)
        (renewed M.dist vector.now (option_copied over.entry)
        (λ object m. inserted M.dist (M.most (length vector.now)) number vector.now height
        (Some object) m)) entries.old) }
    ensures objects { OnOk result
        (AllByRecursion (λ e. length (out-InnerEntry e).object ≡ length vector.now) entries.new) }
    ensures one_more { OnOk result (length entries.new ≤ length entries.old + 1) }
    ensures counted { steps.new ≤ steps.old + 32 + 1400 * height }
{
    let (place, distance) = choose_entry::<M, L>(entries.as_slice(), vector, steps);
    let entry = entries.item_mut(place);
    let pair = insert_under::<M, L>(alloc, entry, distance, height, number, vector, steps)?;
    put_pair::<M, L>(entries, place, over, pair, steps)
}

/// Inserts below a node whose object is `over`, none in the root. Gives the pair of halves where
/// the node was split; the node is then what is left, and goes with its entry.
#[cycle(insert)]
pub fn insert_below<M: Metric, L: Ledger>(
    alloc: Global,
    node: &mut Node,
    height: u32,
    over: Option<&Vector>,
    number: Number,
    vector: &Vector,
    steps: &mut Steps<L>,
) -> Result<Option<Pair>, AllocError>
    requires width { IsWidth (length vector.now) }
    requires over { (object : _) → option_copied over ≡ Some object → length object
        ≡ length vector.now }
    requires node { IsNode M.dist (length vector.now) (M.most (length vector.now)) height
        (option_copied over) node.old }
    ensures is { IfOk result (λ pair. outcome pair node.new
        ≡ inserted M.dist (M.most (length vector.now)) number vector.now height
        (option_copied over.entry) node.old) }
    ensures objects { IfOk result (HasWidth (length vector.now)) }
    ensures counted { steps.new ≤ steps.old + 1400 * height }
{
    let width = width_of(vector);
    match node {
        Node::Leaf { tag, entries } => {
            let parent = distance_from::<M, L>(over, vector, steps);
            entries.push(number, parent, vector.as_slice())?;
            settle_leaf::<M, L>(alloc, width, *tag, 0, entries, steps)
        }
        Node::Inner { tag, entries } => {
            insert_among::<M, L>(alloc, entries, height - 1, over, number, vector, steps)?;
            settle_inner::<M, L>(alloc, width, *tag, 0, entries, steps)
        }
    }
}

fn width_of(vector: &Vector) -> u32
    requires { IsWidth (length vector.now) }
    ensures { result ≡ length vector.now }
{
    vector.as_slice().len() as u32
}
