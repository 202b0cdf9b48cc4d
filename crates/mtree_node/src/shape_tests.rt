//! Trees against the lists of their shapes, before and after new tags.

ghost use Rattle.std.specs.Prelude.{◌≡◌, ℕ, IfOk};
ghost use Rattle.mtree_node.specs.declared.node.InnerEntry.{out-InnerEntry};
ghost use Rattle.mtree_node.specs.Tree.{IsLeveled};
ghost use Rattle.mtree_node.specs.Preorder.{size};

use crate::{InnerEntry, LeafEntries, Node, Shape, Shapes, flatten, height, retag};
use items::{Boxed, Items};
use std::alloc::{AllocError, Global};
use std::test::Fail;
use vec_record::Vector;

// The shapes of the tree below: the kind, 1 for an inner node, the tag, the number of rows and the
// rows. A leaf's row is a number and a parent distance, an inner node's row a place, a parent
// distance, a radius and an object.
const BEFORE: [u32; 46] = [
    1, 50, 2, 1, 0, 10, 10, 4, 0, 0, 90, //
    1, 40, 2, 2, 0, 2, 10, 3, 10, 0, 20, //
    0, 30, 2, 1, 0, 2, 2, //
    0, 20, 1, 3, 0, //
    1, 10, 1, 5, 0, 0, 90, //
    0, 60, 1, 4, 0,
];

const TAGS: [u32; 6] = [11, 12, 13, 14, 15, 16];

// The same with these tags.
const AFTER: [u32; 46] = [
    1, 11, 2, 1, 0, 10, 10, 4, 0, 0, 90, //
    1, 12, 2, 2, 0, 2, 10, 3, 10, 0, 20, //
    0, 13, 2, 1, 0, 2, 2, //
    0, 14, 1, 3, 0, //
    1, 15, 1, 5, 0, 0, 90, //
    0, 16, 1, 4, 0,
];

fn inner_entry(
    alloc: Global,
    byte: u8,
    radius: u32,
    parent: u32,
    child: Node,
) -> Result<InnerEntry, AllocError>
    ensures { IfOk result (λ e. (out-InnerEntry e).child ≡ child) }
{
    Ok(InnerEntry {
        object: Vector::from_slice(alloc, &[byte])?,
        radius,
        parent,
        child: Boxed::new(alloc, child)?,
    })
}

fn leaf_of_one(alloc: Global, tag: u32, number: u32, byte: u8) -> Result<Node, AllocError>
    ensures leveled { IfOk result (IsLeveled 1) }
    ensures size { IfOk result (λ n. size 1 n ≡ 1) }
{
    let mut entries = LeafEntries::new(alloc);
    entries.push(number, 0, &[byte])?;
    Ok(Node::Leaf { tag, entries })
}

fn leaf_of_two(alloc: Global) -> Result<Node, AllocError>
    ensures leveled { IfOk result (IsLeveled 1) }
    ensures size { IfOk result (λ n. size 1 n ≡ 1) }
{
    let mut entries = LeafEntries::new(alloc);
    entries.push(1, 0, &[10])?;
    entries.push(2, 2, &[12])?;
    Ok(Node::Leaf { tag: 30, entries })
}

fn above_two_leaves(alloc: Global) -> Result<Node, AllocError>
    ensures leveled { IfOk result (IsLeveled 2) }
    ensures size { IfOk result (λ n. size 2 n ≡ 3) }
{
    let first = leaf_of_two(alloc)?;
    let second = leaf_of_one(alloc, 20, 3, 20)?;
    let mut entries = Items::new(alloc);
    entries.push(inner_entry(alloc, 10, 2, 0, first)?)?;
    entries.push(inner_entry(alloc, 20, 0, 10, second)?)?;
    Ok(Node::Inner { tag: 40, entries })
}

fn above_one_leaf(alloc: Global) -> Result<Node, AllocError>
    ensures leveled { IfOk result (IsLeveled 2) }
    ensures size { IfOk result (λ n. size 2 n ≡ 2) }
{
    let child = leaf_of_one(alloc, 60, 4, 90)?;
    let mut entries = Items::new(alloc);
    entries.push(inner_entry(alloc, 90, 0, 0, child)?)?;
    Ok(Node::Inner { tag: 10, entries })
}

fn tree(alloc: Global) -> Result<Node, AllocError>
    ensures leveled { IfOk result (IsLeveled 3) }
    ensures size { IfOk result (λ n. size 3 n ≡ 6) }
{
    let first = above_two_leaves(alloc)?;
    let second = above_one_leaf(alloc)?;
    let mut entries = Items::new(alloc);
    entries.push(inner_entry(alloc, 10, 10, 0, first)?)?;
    entries.push(inner_entry(alloc, 90, 0, 0, second)?)?;
    Ok(Node::Inner { tag: 50, entries })
}

fn show_head(kind: u32, tag: u32, rows: usize, out: &mut Vec<u32>) -> Result<(), AllocError> {
    out.push(kind)?;
    out.push(tag)?;
    out.push(rows.min(1000) as u32)?;
    Ok(())
}

fn show_leaf_row(row: &(u32, u32), out: &mut Vec<u32>) -> Result<(), AllocError> {
    out.push(row.0)?;
    out.push(row.1)?;
    Ok(())
}

fn show_inner_row(row: &(u32, u32, u32, Vector), out: &mut Vec<u32>) -> Result<(), AllocError> {
    out.push(row.0)?;
    out.push(row.1)?;
    out.push(row.2)?;
    for byte in row.3.as_slice() {
        out.push(u32::from(*byte))?;
    }
    Ok(())
}

fn show_shape(shape: &Shape, out: &mut Vec<u32>) -> Result<(), AllocError> {
    match shape {
        Shape::Leaf { tag, rows } => {
            show_head(0, *tag, rows.len(), out)?;
            for row in rows.as_slice() {
                show_leaf_row(row, out)?;
            }
        }
        Shape::Inner { tag, rows } => {
            show_head(1, *tag, rows.len(), out)?;
            for row in rows.as_slice() {
                show_inner_row(row, out)?;
            }
        }
    }
    Ok(())
}

fn shown(alloc: Global, shapes: &Shapes) -> Result<Vec<u32>, AllocError> {
    let mut out = Vec::new(alloc);
    for shape in shapes.as_slice() {
        show_shape(shape, &mut out)?;
    }
    Ok(out)
}

#[test]
fn a_tree_is_flattened_and_takes_new_tags(rt: HostRuntime) -> Result<(), Fail> {
    let mut root = tree(rt.alloc())?;
    assert_eq!(rt; height(&root), 3);
    let before = shown(rt.alloc(), &flatten(rt.alloc(), &root)?)?;
    assert!(rt; before.as_slice() == BEFORE.as_slice());
    retag(&mut root, &TAGS);
    let after = shown(rt.alloc(), &flatten(rt.alloc(), &root)?)?;
    assert!(rt; after.as_slice() == AFTER.as_slice());
    Ok(())
}
