//! The range query below a node.

ghost use Rattle.std.specs.Prelude.{◌≡◌, ◌+◌, ◌<◌, ◌≤◌, ◌++◌, length, map, slice_index, sum_by};
ghost use Rattle.std.specs.Prelude.{OnOk};
ghost use Rattle.std.specs.List.{AllByRecursion, flat_map};
ghost use Rattle.vec_record.specs.Vectors.{IsVector, IsWidth};
ghost use Rattle.mtree_node.specs.declared.node.InnerEntry.{out-InnerEntry};
ghost use Rattle.mtree_node.specs.Cost.{leaf_cost, entry_cost, cost};
ghost use Rattle.mtree_index.specs.Found.{IsShaped, IsEntryOver, leaf_found, entry_found, found};

use crate::pruning::{GROUP, is_skipped, left};
use mtree_node::{InnerEntry, LeafEntries, Node};
use std::alloc::AllocError;
use std::sync::ledger::Ledger;
use vec_record::{Metric, Number, Steps, Vector};

#[cycle(search)]
fn look_at_entry<M: Metric, L: Ledger>(
    entry: &InnerEntry,
    height: u32,
    to_object: Option<u32>,
    centre: &Vector,
    radius: u32,
    out: &mut Vec<Number>,
    steps: &mut Steps<L>,
) -> Result<(), AllocError>
    requires width { IsWidth (length centre.now) }
    requires shaped { IsEntryOver (length centre.now) (IsShaped (length centre.now) height)
        (out-InnerEntry entry.now) }
    ensures found { OnOk result
        (out.new.items ≡ out.old.items ++ entry_found M.dist centre.now radius
        (found M.dist centre.now radius height) to_object (out-InnerEntry entry.now)) }
    ensures counted { OnOk result
        (steps.new ≡ steps.old + entry_cost M.dist centre.now radius
        (cost M.dist centre.now radius height) to_object (out-InnerEntry entry.now)) }
    ensures at_most { steps.new
        ≤ steps.old + entry_cost M.dist centre.now radius (cost M.dist centre.now radius height)
        to_object (out-InnerEntry entry.now) }
{
    let reach = u64::from(radius) + u64::from(entry.radius);
    if is_skipped(to_object, reach, entry.parent) {
        return Ok(());
    }
    let distance = M::distance(centre, &entry.object, steps);
    if u64::from(distance) > reach {
        return Ok(());
    }
    let below = entry.child.get();
    search::<M, L>(below, height, Some(distance), centre, radius, out, steps)
}

// Appends the numbers at the places.
fn push_numbers(numbers: &[Number], places: &[u8], out: &mut Vec<Number>) -> Result<(), AllocError>
    requires { AllByRecursion (λ k. k < length numbers.now) places.now }
    ensures { OnOk result (out.new.items
        ≡ out.old.items ++ map (slice_index numbers.now) places.now) }
{
    for place in places {
        out.push(numbers[usize::from(*place)])?;
    }
    Ok(())
}

// First tests all entries, then computes the distances of those that are left, and only then takes
// memory.
fn look_at_leaf<M: Metric, L: Ledger>(
    entries: &LeafEntries,
    to_object: Option<u32>,
    centre: &Vector,
    radius: u32,
    out: &mut Vec<Number>,
    steps: &mut Steps<L>,
) -> Result<(), AllocError>
    requires few { length entries.now ≤ 30 }
    requires vectors { AllByRecursion (λ e. IsVector (length centre.now) e.vector) entries.now }
    ensures found { OnOk result
        (out.new.items ≡ out.old.items ++ flat_map (leaf_found M.dist centre.now radius to_object)
        entries.now) }
    ensures counted { steps.new
        ≡ steps.old + sum_by (leaf_cost M.dist centre.now radius to_object) entries.now }
{
    let mut places = [0u8; GROUP];
    let count = left(entries.parents(), to_object, radius, &mut places);
    if count == 0 {
        return Ok(());
    }
    let mut near = [0u8; GROUP];
    let asked = &places[..count];
    let found = M::within(
        centre.as_slice(),
        entries.rows(),
        asked,
        radius,
        &mut near,
        steps,
    );
    push_numbers(entries.numbers(), &near[..found], out)
}

#[cycle(search)]
fn look_at_entries<M: Metric, L: Ledger>(
    entries: &[InnerEntry],
    height: u32,
    to_object: Option<u32>,
    centre: &Vector,
    radius: u32,
    out: &mut Vec<Number>,
    steps: &mut Steps<L>,
) -> Result<(), AllocError>
    requires width { IsWidth (length centre.now) }
    requires shaped { AllByRecursion
        (λ e. IsEntryOver (length centre.now) (IsShaped (length centre.now) height)
        (out-InnerEntry e)) entries.now }
    ensures found { OnOk result
        (out.new.items ≡ out.old.items ++ flat_map
        (λ e. entry_found M.dist centre.now radius (found M.dist centre.now radius height) to_object
        (out-InnerEntry e)) entries.now) }
    ensures counted { OnOk result
        (steps.new ≡ steps.old + sum_by
        (λ e. entry_cost M.dist centre.now radius (cost M.dist centre.now radius height) to_object
        (out-InnerEntry e)) entries.now) }
    ensures at_most { steps.new
        ≤ steps.old + sum_by (λ e. entry_cost M.dist centre.now radius
        (cost M.dist centre.now radius height) to_object (out-InnerEntry e)) entries.now }
{
    for entry in entries {
        look_at_entry::<M, L>(entry, height, to_object, centre, radius, out, steps)?;
    }
    Ok(())
}

/// Adds the numbers within the radius of the centre, in the order of the leaves. The node's object
/// is at the distance `to_object` of the centre; for the root there is none.
#[cycle(search)]
pub fn search<M: Metric, L: Ledger>(
    node: &Node,
    height: u32,
    to_object: Option<u32>,
    centre: &Vector,
    radius: u32,
    out: &mut Vec<Number>,
    steps: &mut Steps<L>,
) -> Result<(), AllocError>
    requires width { IsWidth (length centre.now) }
    requires shaped { IsShaped (length centre.now) height node.now }
    ensures found { OnOk result
        (out.new.items ≡ out.old.items ++ found M.dist centre.now radius height to_object
        node.now) }
    ensures counted { OnOk result
        (steps.new ≡ steps.old + cost M.dist centre.now radius height to_object node.now) }
    ensures at_most { steps.new
        ≤ steps.old + cost M.dist centre.now radius height to_object node.now }
{
    match node {
        Node::Leaf { tag: _, entries } => {
            look_at_leaf::<M, L>(entries, to_object, centre, radius, out, steps)
        }
        Node::Inner { tag: _, entries } => {
            let all = entries.as_slice();
            look_at_entries::<M, L>(all, height - 1, to_object, centre, radius, out, steps)
        }
    }
}
