//! Entries put under an object: their parent distances, and the radius that covers them.

ghost use Rattle.std.specs.Prelude.{◌≡◌, ℕ, ◌+◌, ◌<◌, ◌≤◌, ◌++◌, length, map, min, IfOk, OnOk};
ghost use Rattle.std.specs.List.{AllByRecursion};
ghost use Rattle.vec_record.specs.Vectors.{IsWidth};
ghost use Rattle.mtree_node.specs.Lists.{HaveVectorsOf};
ghost use Rattle.mtree_index.specs.Entries.{leaf_with_parent};
ghost use Rattle.mtree_index.specs.Removal.{farthest, all_under};

use crate::entry::Entry;
use items::Items;
use mtree_node::{LeafEntries, LeafEntry};
use std::alloc::{AllocError, Global};
use std::sync::ledger::Ledger;
use vec_record::{Metric, Steps, Vector};

// Puts an entry under an object, and gives how far its vectors are from there at most.
fn move_under<M: Metric, E: Entry, L: Ledger>(
    object: &Vector,
    entry: &mut E,
    steps: &mut Steps<L>,
) -> u64
    requires width { IsWidth (length object.now) }
    requires same { length (E.object entry.old) ≡ length object.now }
    ensures moved { entry.new ≡ E.with_parent (M.dist object.now (E.object entry.old)) entry.old }
    ensures sum { result ≡ M.dist object.now (E.object entry.old) + E.radius entry.old }
    ensures counted { steps.new ≡ steps.old + 1 }
{
    let distance = M::distance(object, entry.object(), steps);
    let sum = u64::from(distance) + u64::from(entry.radius());
    entry.set_parent(distance);
    sum
}

/// Puts entries under an object, and gives the radius that covers them there.
pub fn gather<M: Metric, E: Entry, L: Ledger>(
    object: &Vector,
    greatest: u32,
    entries: &mut Items<E>,
    steps: &mut Steps<L>,
) -> u32
    requires width { IsWidth (length object.now) }
    requires vectors { AllByRecursion (λ e. length (E.object e) ≡ length object.now) entries.old }
    ensures moved { entries.new ≡ all_under M.dist E.object E.with_parent object.now entries.old }
    ensures radius { result ≡ min (farthest M.dist E.object E.radius object.now entries.old)
        greatest }
    ensures counted { steps.new ≤ steps.old + length entries.old }
{
    let mut most = 0u64;
    for i in 0..entries.len() {
        most = most.max(move_under::<M, E, L>(object, entries.item_mut(i), steps));
    }
    most.min(u64::from(greatest)) as u32
}

/// The same of the entries of a leaf.
pub fn gather_leaf<M: Metric, L: Ledger>(
    alloc: Global,
    object: &Vector,
    greatest: u32,
    entries: &mut LeafEntries,
    steps: &mut Steps<L>,
) -> Result<u32, AllocError>
    requires width { IsWidth (length object.now) }
    requires vectors { HaveVectorsOf (length object.now) entries.old }
    ensures moved { OnOk result
        (entries.new ≡ all_under M.dist (λ e. e.vector) leaf_with_parent object.now entries.old) }
    ensures radius { IfOk result
        (λ r. r ≡ min (farthest M.dist (λ e. e.vector) (λ e. 0) object.now entries.old) greatest) }
    ensures counted { steps.new ≤ steps.old + length entries.old }
{
    let width = object.as_slice().len() as u32;
    let mut all = Items::from_vec(entries.to_vec(alloc)?);
    let radius = gather::<M, LeafEntry, L>(object, greatest, &mut all, steps);
    *entries = LeafEntries::from_slice(alloc, width, all.as_slice())?;
    Ok(radius)
}

/// Sets the parent distances to 0, as in a root.
pub fn clear_parents<E: Entry>(entries: &mut Items<E>)
    ensures { entries.new ≡ map (E.with_parent 0) entries.old }
{
    for i in 0..entries.len() {
        entries.item_mut(i).set_parent(0);
    }
}

/// Puts further entries behind those of a node.
pub fn append<E: Entry>(entries: &mut Items<E>, more: Items<E>) -> Result<(), AllocError>
    ensures { OnOk result (entries.new ≡ entries.old ++ more) }
{
    for entry in more.into_vec() {
        entries.push(entry)?;
    }
    Ok(())
}
