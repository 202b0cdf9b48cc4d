//! Trees against the lists of their nodes: what is built from them, and the tags that nodes get.

ghost use Rattle.std.specs.Prelude.{◌≡◌, ℕ, ◌<◌, ◌≤◌, length, None, IfOk, IfSome};
ghost use Rattle.std.specs.FinMap as map;
ghost use Rattle.mtree_node.specs.Preorder.{size};
ghost use Rattle.mtree_index.specs.Tree.{contents};

use crate::MTree;
use crate::tests::{PLANE, insert_next, vector_of};
use int_metric::L1;
use items::Items;
use mtree_node::{BuildFault, Shape, Shapes, flatten, height};
use std::alloc::{AllocError, Global};
use std::marker::Brand;
use std::sync::ledger::{Blank, Ledger};
use std::test::Fail;
use vec_record::{Metric, Records, Steps};

// A tree of the first vectors, and the same vectors as records.
fn grow_both<L: Ledger>(
    alloc: Global,
    count: u32,
    steps: &mut Steps<L>,
) -> Result<(MTree<L1>, Records), AllocError>
    requires count { count < 1000 }
    ensures same { IfOk result (λ both. contents both.0 ≡ both.1.vectors) }
    ensures width { IfOk result (λ both. both.0.width ≡ both.1.width) }
{
    let mut tree: MTree<L1> = MTree::empty(alloc, PLANE.width);
    let mut records = Records::new(alloc, PLANE.width);
    for number in 1..count + 1 {
        let vector = vector_of(alloc, PLANE, number)?;
        insert_next(&mut tree, number, &vector, steps)?;
        records.insert(number, vector)?;
    }
    Ok((tree, records))
}

// The tree that is built from the shapes of a tree and its records: that very tree, or nothing
// where it is empty or has too many nodes.
fn rebuilt<L: Ledger>(
    alloc: Global,
    tree: &MTree<L1>,
    records: &Records,
    steps: &mut Steps<L>,
) -> Result<Option<MTree<L1>>, AllocError>
    requires same { contents tree.now ≡ records.now.vectors }
    requires width { tree.now.width ≡ records.now.width }
    ensures { IfOk result (λ t. IfSome t (λ built. built ≡ tree.now)) }
{
    let Some(root) = tree.root() else {
        return Ok(None);
    };
    let shapes = flatten(alloc, root)?;
    if shapes.len() > 200000 {
        return Ok(None);
    }
    match MTree::from_shapes(alloc, tree.height(), &shapes, records, steps) {
        Ok(built) => Ok(Some(built)),
        Err(BuildFault::Bad(_)) => Ok(None),
        Err(BuildFault::Memory) => Err(AllocError),
    }
}

// The shapes of a tree's nodes. What the root says of itself is all that the call asks for,
// whatever the metric.
fn shapes_of<M: Metric>(alloc: Global, tree: &MTree<M>) -> Result<Shapes, AllocError>
    ensures { IfOk result (λ shapes. IfSome tree.now.root
        (λ n. length shapes ≡ size tree.now.height n)) }
{
    let Some(root) = tree.root() else {
        return Ok(Items::new(alloc));
    };
    let shapes = flatten(alloc, root)?;
    Ok(shapes)
}

// The number of levels, as the root has it.
fn levels_of<M: Metric>(tree: &MTree<M>) -> u32
    ensures { result ≡ tree.now.height }
{
    match tree.root() {
        None => tree.height(),
        Some(root) => height(root),
    }
}

// 1, 2 and so on.
fn numbers(alloc: Global, count: usize) -> Result<Vec<u32>, AllocError>
    ensures { IfOk result (λ v. length v.items ≡ count) }
{
    let mut numbers = Vec::new(alloc);
    let mut next = 1u32;
    for _ in 0..count {
        numbers.push(next)?;
        next = next.wrapping_add(1);
    }
    Ok(numbers)
}

/// Sets the tags of a tree's nodes to 1, 2 and so on in preorder: as many as there are shapes.
pub fn tag_nodes<M: Metric>(alloc: Global, tree: &mut MTree<M>) -> Result<(), AllocError>
    ensures width { tree.new.width ≡ tree.old.width }
    ensures contents { contents tree.new ≡ contents tree.old }
{
    let tags = numbers(alloc, shapes_of(alloc, tree)?.len())?;
    tree.retag(&tags);
    Ok(())
}

fn tag_of(shape: &Shape) -> u32 {
    match shape {
        Shape::Leaf { tag, rows: _ } => *tag,
        Shape::Inner { tag, rows: _ } => *tag,
    }
}

// Whether the tags are 1, 2 and so on.
fn are_in_turn(shapes: &Shapes) -> bool {
    let mut next = 1u32;
    for shape in shapes.as_slice() {
        if tag_of(shape) != next {
            return false;
        }
        next = next.wrapping_add(1);
    }
    next > 1
}

// Whether a tree of so many vectors is built again from its shapes, and gets tags.
fn comes_back<L: Ledger>(rt: &HostRuntime, count: u32, blank: Blank) -> Result<bool, AllocError>
    requires count { count < 1000 }
    requires name { blank.name ≡ L.name }
    requires parts { blank.parts ≡ L.parts }
    requires some { 0 < blank.parts }
{
    let alloc = rt.alloc();
    let mut steps = Steps::<L>::new(rt, blank);
    let (tree, records) = grow_both(alloc, count, &mut steps)?;
    let Some(mut built) = rebuilt(alloc, &tree, &records, &mut steps)? else {
        return Ok(false);
    };
    tag_nodes(alloc, &mut built)?;
    let shapes = shapes_of(alloc, &built)?;
    Ok(levels_of(&built) == tree.height() && are_in_turn(&shapes))
}

#[test]
fn trees_come_back_from_their_shapes(rt: HostRuntime) -> Result<(), Fail> {
    for count in [1, 30, 31, 400, 700] {
        assert!(rt; comes_back::<Brand>(&rt, count, Blank::new(1))?, "{count}");
    }
    Ok(())
}
