//! The pages and the references after a save.

ghost use Rattle.std.specs.Prelude.{◌≡◌, ◌+◌, ◌<◌, ◌≤◌, ◌==◌, ◌^◌, ◌++◌, ℕ, length, get_or};
ghost use Rattle.std.specs.Prelude.{replicate, count_by, IfOk, OnOk};
ghost use Rattle.node_places.specs.Nodes.{ref_of, kinds_after, refs_after};

use crate::nodes::{NodeSlots, Tagged};
use crate::refs::refs_of;
use std::alloc::{AllocError, Global};

/// Adds pages of a kind.
fn add(kinds: &mut Vec<u8>, kind: u8, more: usize) -> Result<(), AllocError>
    ensures { OnOk result (kinds.new.items ≡ kinds.old.items ++ replicate more kind) }
{
    for _k in 0..more {
        kinds.push(kind)?;
    }
    Ok(())
}

/// How many pages are of a kind.
fn count(kinds: &[u8], kind: u8) -> usize
    ensures { result ≡ count_by (λ k. k == kind) kinds.now }
{
    kinds.iter().filter(|k| **k == kind).count()
}

/// The kinds of the body pages after a save that needs so many pages of each kind: new record pages
/// come first, then leaf pages, then inner pages.
pub fn kinds_after(
    alloc: Global,
    kinds: &[u8],
    records: usize,
    leaves: usize,
    inners: usize,
) -> Result<Vec<u8>, AllocError>
    ensures { IfOk result (λ v. v.items ≡ kinds_after kinds.now records leaves inners) }
{
    let mut after = Vec::from_slice(alloc, kinds)?;
    add(&mut after, 1, records.saturating_sub(count(kinds, 1)))?;
    add(&mut after, 2, leaves.saturating_sub(count(kinds, 2)))?;
    add(&mut after, 3, inners.saturating_sub(count(kinds, 3)))?;
    Ok(after)
}

/// The reference of the first slot in which each of the first so many numbers stands; 0 where it
/// stands in none.
fn places(alloc: Global, slots: &[u32], refs: &[u32], count: usize) -> Result<Vec<u32>, AllocError>
    ensures long { IfOk result (λ v. length v.items ≡ count) }
    ensures places { IfOk result (λ v. (n : ℕ) → n < count → get_or v.items n 0
        ≡ ref_of slots.now refs.now n) }
{
    let mut table = vec![in alloc; 0; count]?;
    let mut left = slots.len().min(refs.len());
    'slots: while left > 0 {
        left -= 1;
        let number = slots[left] as usize;
        if number < count {
            table[number] = refs[left];
        }
    }
    Ok(table)
}

/// The references of the nodes of a walk, where the body pages have these kinds and the nodes stand
/// in these slots.
pub fn refs_after(
    alloc: Global,
    kinds: &[u8],
    slots: &NodeSlots,
    nodes: &[Tagged],
) -> Result<Vec<u32>, AllocError>
    requires few { length nodes.now ≤ 200000 }
    requires pages { length kinds.now + 2 < 2 ^ 26 }
    ensures { IfOk result (λ v. v.items
        ≡ refs_after kinds.now slots.now.leaves.items slots.now.inners.items nodes.now) }
{
    let leaves = refs_of(alloc, kinds, 2, 63)?;
    let inners = refs_of(alloc, kinds, 3, 1)?;
    let leaves = places(alloc, &slots.leaves, &leaves, nodes.len() + 1)?;
    let inners = places(alloc, &slots.inners, &inners, nodes.len() + 1)?;
    let mut refs = Vec::new(alloc);
    for (k, node) in nodes.iter().enumerate() {
        refs.push(if node.leaf {
            leaves[k + 1]
        } else {
            inners[k + 1]
        })?;
    }
    Ok(refs)
}
