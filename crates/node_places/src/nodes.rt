//! The slots of nodes after a save.

ghost use Rattle.std.specs.Prelude.{◌≡◌, ◌+◌, ◌*◌, ◌<◌, ◌≤◌, ◌^◌, ℕ, false, length, map, get_or};
ghost use Rattle.std.specs.Prelude.{IfOk};
ghost use Rattle.std.specs.List.{All};
ghost use Rattle.node_places.specs.Slots.{has, absent};
ghost use Rattle.node_places.specs.Nodes.{is_of, holder, numbers_from, keepers, settled};
ghost use Rattle.node_places.specs.Nodes.{leaf_slots, inner_slots};

use crate::filling::{give, pad};
use crate::refs::refs_of;
use std::alloc::{AllocError, Global};

/// A node of a walk: whether it is a leaf, and its tag.
#[derive(Clone, Copy)]
pub struct Tagged {
    pub leaf: bool,
    pub tag: u32,
}

/// The nodes by slot, each by its number in the walk, which counts from 1; 0 for a free slot.
#[derive(Drop)]
pub struct NodeSlots {
    pub leaves: Vec<u32>,
    pub inners: Vec<u32>,
}

/// Whether a node is a leaf, or whether it is none, as is asked.
fn is_of(leaf: bool, node: Tagged) -> bool
    ensures { result ≡ is_of leaf node }
{
    if leaf { node.leaf } else { !node.leaf }
}

/// The first node of a kind with each tag below a limit; 0 where no node has it.
fn holders(
    alloc: Global,
    leaf: bool,
    nodes: &[Tagged],
    limit: usize,
) -> Result<Vec<u32>, AllocError>
    requires { length nodes.now ≤ 200000 }
    ensures long { IfOk result (λ v. length v.items ≡ limit) }
    ensures holders { IfOk result (λ v. (tag : ℕ) → tag < limit → get_or v.items tag 0
        ≡ holder 1 leaf nodes.now tag) }
{
    let mut table = vec![in alloc; 0; limit]?;
    let mut left = nodes.len();
    'nodes: while left > 0 {
        left -= 1;
        let node = nodes[left];
        let tag = node.tag as usize;
        if is_of(leaf, node) && tag < limit {
            table[tag] = left as u32 + 1;
        }
    }
    Ok(table)
}

/// The nodes of a kind that keep their places, by slot.
fn keepers(
    alloc: Global,
    leaf: bool,
    refs: &[u32],
    nodes: &[Tagged],
    limit: usize,
) -> Result<Vec<u32>, AllocError>
    requires few { length nodes.now ≤ 200000 }
    requires below { All (λ r. r < limit) refs.now }
    ensures { IfOk result (λ v. v.items ≡ keepers leaf refs.now nodes.now) }
{
    let table = holders(alloc, leaf, nodes, limit)?;
    let mut slots = Vec::new(alloc);
    for reference in refs {
        slots.push(table[*reference as usize])?;
    }
    Ok(slots)
}

/// Which of the first so many numbers stand in a list.
fn standing(alloc: Global, slots: &[u32], count: usize) -> Result<Vec<bool>, AllocError>
    ensures long { IfOk result (λ v. length v.items ≡ count) }
    ensures standing { IfOk result (λ v. (n : ℕ) → n < count → get_or v.items n false
        ≡ has slots.now n) }
{
    let mut marks = vec![in alloc; false; count]?;
    for number in slots {
        if (*number as usize) < count {
            marks[*number as usize] = true;
        }
    }
    Ok(marks)
}

/// The nodes of a kind that don't stand in the slots, in the order of the walk.
fn homeless(
    alloc: Global,
    leaf: bool,
    slots: &[u32],
    nodes: &[Tagged],
) -> Result<Vec<u32>, AllocError>
    requires { length nodes.now ≤ 200000 }
    ensures { IfOk result (λ v. v.items
        ≡ absent slots.now (numbers_from 1 leaf nodes.now)) }
{
    let marks = standing(alloc, slots, nodes.len() + 1)?;
    let mut new = Vec::new(alloc);
    for (k, node) in nodes.iter().enumerate() {
        if is_of(leaf, *node) && !marks[k + 1] {
            new.push(k as u32 + 1)?;
        }
    }
    Ok(new)
}

/// The nodes of a kind by slot: each keeps its place where it can, and the others take the lowest
/// free places.
fn settled(
    alloc: Global,
    leaf: bool,
    refs: &[u32],
    nodes: &[Tagged],
    limit: usize,
) -> Result<Vec<u32>, AllocError>
    requires few { length nodes.now ≤ 200000 }
    requires below { All (λ r. r < limit) refs.now }
    ensures { IfOk result (λ v. v.items ≡ settled leaf refs.now nodes.now) }
{
    let mut slots = keepers(alloc, leaf, refs, nodes, limit)?;
    let new = homeless(alloc, leaf, &slots, nodes)?;
    give(&mut slots, &new)?;
    Ok(slots)
}

/// The nodes by slot after a save, where the body pages had these kinds: a node keeps its place
/// where it can, the others take the lowest free places, and new pages come behind the last.
pub fn node_slots(alloc: Global, kinds: &[u8], nodes: &[Tagged]) -> Result<NodeSlots, AllocError>
    requires few { length nodes.now ≤ 200000 }
    requires pages { length kinds.now + 2 < 2 ^ 26 }
    ensures leaves { IfOk result (λ s. s.leaves.items ≡ leaf_slots kinds.now nodes.now) }
    ensures inners { IfOk result (λ s. s.inners.items ≡ inner_slots kinds.now nodes.now) }
{
    let limit = 64 * (kinds.len() + 2);
    let leaf_refs = refs_of(alloc, kinds, 2, 63)?;
    let inner_refs = refs_of(alloc, kinds, 3, 1)?;
    let mut leaves = settled(alloc, true, &leaf_refs, nodes, limit)?;
    pad(&mut leaves, 63)?;
    let inners = settled(alloc, false, &inner_refs, nodes, limit)?;
    Ok(NodeSlots { leaves, inners })
}
