//! The nodes of a tree as a list of shapes, in preorder.

ghost use Rattle.std.specs.Prelude.{◌≡◌, ℕ, ◌+◌, ◌≤◌, ◌++◌, length, map, sum_by, IfOk, OnOk};
ghost use Rattle.std.specs.List.{AllByRecursion};
ghost use Rattle.mtree_node.specs.declared.node.InnerEntry.{out-InnerEntry};
ghost use Rattle.mtree_node.specs.Tree.{IsLeveled, IsLevel};
ghost use Rattle.mtree_node.specs.Preorder.{size, leaf_row, inner_rows, shapes_below, shapes_from};
ghost use Rattle.mtree_node.specs.Preorder.{preorder};

use crate::leaf_entries::LeafEntries;
use crate::levels::height;
use crate::node::{InnerEntry, Node};
use crate::shape::{InnerShape, LeafShape, Shape, Shapes};
use items::Items;
use std::alloc::{AllocError, Global};
use vec_record::Vector;

// How many nodes a node and all below it are. A tree of 6 levels with 30 entries in each node has
// 25,137,931.
#[cycle(size)]
fn size(node: &Node, levels: u32) -> u32
    requires leveled { IsLeveled levels node.now }
    requires few { size levels node.now ≤ 25137931 }
    ensures { result ≡ size levels node.now }
{
    match node {
        Node::Leaf { tag: _, entries: _ } => 1,
        Node::Inner { tag: _, entries } => 1 + size_below(entries.as_slice(), levels - 1),
    }
}

#[cycle(size)]
fn size_below(entries: &[InnerEntry], levels: u32) -> u32
    requires leveled { AllByRecursion (λ e. IsLeveled levels (out-InnerEntry e).child) entries.now }
    requires few { sum_by (λ e. size levels (out-InnerEntry e).child) entries.now ≤ 25137930 }
    ensures { result ≡ sum_by (λ e. size levels (out-InnerEntry e).child) entries.now }
{
    let mut total = 0;
    for entry in entries {
        total += size(entry.child.get(), levels);
    }
    total
}

fn leaf_rows(alloc: Global, entries: &LeafEntries) -> Result<LeafShape, AllocError>
    ensures { IfOk result (λ rows. rows ≡ map leaf_row entries.now) }
{
    let mut rows = Items::new(alloc);
    for at in 0..entries.len() {
        rows.push((entries.numbers()[at], entries.parents()[at]))?;
    }
    Ok(rows)
}

// The rows of an inner node whose first child stands at a place. Each further child comes after all
// nodes of the child before it.
fn inner_rows(
    alloc: Global,
    entries: &[InnerEntry],
    levels: u32,
    first: u32,
) -> Result<InnerShape, AllocError>
    requires leveled { AllByRecursion (λ e. IsLeveled levels (out-InnerEntry e).child) entries.now }
    requires few { first + sum_by (λ e. size levels (out-InnerEntry e).child) entries.now
        ≤ 25137931 }
    ensures { IfOk result (λ rows. rows ≡ inner_rows (size levels) first entries.now) }
{
    let mut rows = Items::new(alloc);
    let mut place = first;
    for entry in entries {
        let object = Vector::from_slice(alloc, entry.object.as_slice())?;
        rows.push((place, entry.parent, entry.radius, object))?;
        place += size(entry.child.get(), levels);
    }
    Ok(rows)
}

#[cycle(push)]
fn push_below(
    alloc: Global,
    entries: &[InnerEntry],
    levels: u32,
    shapes: &mut Shapes,
) -> Result<(), AllocError>
    requires leveled { AllByRecursion (λ e. IsLeveled levels (out-InnerEntry e).child) entries.now }
    requires few { length shapes.old + sum_by (λ e. size levels (out-InnerEntry e).child)
        entries.now ≤ 25137931 }
    ensures { OnOk result (shapes.new
        ≡ shapes.old ++ shapes_below (size levels) (shapes_from levels) (length shapes.old)
        entries.now) }
{
    for entry in entries {
        push_node(alloc, entry.child.get(), levels, shapes)?;
    }
    Ok(())
}

// Adds the shapes of a node and of all below it. The node's own place is the end of the list.
#[cycle(push)]
fn push_node(alloc: Global, node: &Node, levels: u32, shapes: &mut Shapes) -> Result<(), AllocError>
    requires leveled { IsLeveled levels node.now }
    requires few { length shapes.old + size levels node.now ≤ 25137931 }
    ensures { OnOk result (shapes.new
        ≡ shapes.old ++ shapes_from levels (length shapes.old) node.now) }
{
    match node {
        Node::Leaf { tag, entries } => {
            let rows = leaf_rows(alloc, entries)?;
            shapes.push(Shape::Leaf { tag: *tag, rows })
        }
        Node::Inner { tag, entries } => {
            let below = entries.as_slice();
            let first = shapes.len() as u32 + 1;
            let rows = inner_rows(alloc, below, levels - 1, first)?;
            shapes.push(Shape::Inner { tag: *tag, rows })?;
            push_below(alloc, below, levels - 1, shapes)
        }
    }
}

/// The nodes of a tree in preorder, each as a shape: the root first, and each node before the
/// nodes below it. A child's place counts from 0.
///
/// The leaves are all at one depth of at most 6 levels, each node has at most 30 entries, and each
/// inner node has at least one.
///
/// # Errors
///
/// `AllocError` where the memory is too small for the list.
pub fn flatten(alloc: Global, root: &Node) -> Result<Shapes, AllocError>
    requires leveled { IsLevel root.now }
    ensures is { IfOk result (λ shapes. (levels : ℕ) → IsLeveled levels root.now → shapes
        ≡ preorder levels root.now) }
    ensures count { IfOk result
        (λ shapes. (levels : ℕ) → IsLeveled levels root.now → length shapes
        ≡ size levels root.now) }
{
    let mut shapes = Items::new(alloc);
    push_node(alloc, root, height(root), &mut shapes)?;
    Ok(shapes)
}
