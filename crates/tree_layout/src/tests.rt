//! Saves of a root with two leaves, by a table that follows the rules by hand.

use crate::{inner_at, lay, leaf_at, refer};
use items::Items;
use mtree_node::{Shape, Shapes};
use std::alloc::{AllocError, Global};
use std::test::Fail;
use vec_record::Vector;

/// What a save is given and what it has to make: the kinds of the body pages, how many record pages
/// are needed, and the tags of the root and its leaves; the nodes in the first leaf slots, the
/// kinds after the save, and the references.
struct Row {
    kinds: &'static [u8],
    records: usize,
    tags: [u32; 3],
    leaves: &'static [u32],
    after: &'static [u8],
    refs: &'static [u32],
}

/// Pages count from 2. A leaf's reference is 64 times its page and its slot, an inner node's 64
/// times its page.
const ROWS: [Row; 4] = [
    // no tag names a page: the leaves take the lowest slots of page 3
    Row {
        kinds: &[1, 2],
        records: 1,
        tags: [0, 0, 0],
        leaves: &[2, 3, 0],
        after: &[1, 2, 3],
        refs: &[256, 192, 193],
    },
    // node 2 keeps slot 2 of page 3, the root has the tag of a leaf slot, and record pages come
    // before the inner page
    Row {
        kinds: &[1, 2],
        records: 3,
        tags: [192, 194, 256],
        leaves: &[3, 0, 2],
        after: &[1, 2, 1, 1, 3],
        refs: &[384, 194, 192],
    },
    // the root keeps page 2, and node 3 has the tag that node 2 keeps
    Row {
        kinds: &[3, 1, 2],
        records: 1,
        tags: [128, 257, 257],
        leaves: &[3, 2, 0],
        after: &[3, 1, 2],
        refs: &[128, 257, 256],
    },
    // there was no page: leaves come before the inner node
    Row {
        kinds: &[],
        records: 1,
        tags: [192, 256, 257],
        leaves: &[2, 3, 0],
        after: &[1, 2, 3],
        refs: &[256, 192, 193],
    },
];

fn leaf(alloc: Global, tag: u32, number: u32) -> Result<Shape, AllocError> {
    let mut rows = Items::new(alloc);
    rows.push((number, 3))?;
    Ok(Shape::Leaf { tag, rows })
}

fn root(alloc: Global, tag: u32) -> Result<Shape, AllocError> {
    let mut rows = Items::new(alloc);
    rows.push((1, 0, 5, Vector::from_slice(alloc, &[7])?))?;
    rows.push((2, 0, 6, Vector::from_slice(alloc, &[9])?))?;
    Ok(Shape::Inner { tag, rows })
}

/// A root, whose children have the places 1 and 2, and its two leaves.
fn shapes_of(alloc: Global, tags: [u32; 3]) -> Result<Shapes, AllocError> {
    let mut shapes = Items::new(alloc);
    shapes.push(root(alloc, tags[0])?)?;
    shapes.push(leaf(alloc, tags[1], 10)?)?;
    shapes.push(leaf(alloc, tags[2], 11)?)?;
    Ok(shapes)
}

/// Whether the root names its children by the references, and each leaf has its entry.
fn is_referred(shapes: &Shapes, refs: &[u32]) -> bool {
    let rows = inner_at(shapes, 1);
    let first = leaf_at(shapes, 2);
    rows.len() == 2
        && refs.len() == 3
        && rows[0].0 == refs[1]
        && rows[1].0 == refs[2]
        && first.len() == 1
        && first[0].0 == 10
        && leaf_at(shapes, 1).len() == 0
        && inner_at(shapes, 0).len() == 0
        && leaf_at(shapes, 4).len() == 0
}

/// Whether a save of a row makes what it has to.
fn is_right(alloc: Global, row: &Row) -> Result<bool, AllocError> {
    let mut shapes = shapes_of(alloc, row.tags)?;
    if row.kinds.len() > 8 || row.records > 8 || shapes.len() != 3 {
        return Ok(false);
    }
    let laid = lay(alloc, row.kinds, row.records, &shapes)?;
    if laid.refs.len() != 3 || laid.refs.as_slice() != row.refs {
        return Ok(false);
    }
    refer(&mut shapes, &laid.refs);
    Ok(
        laid.leaves.len() == 63
            && laid.leaves.as_slice().starts_with(row.leaves)
            && laid.inners.as_slice() == [1].as_slice()
            && laid.kinds.as_slice() == row.after
            && is_referred(&shapes, row.refs),
    )
}

#[test]
fn nodes_are_laid_out(rt: HostRuntime) -> Result<(), Fail> {
    for row in &ROWS {
        assert!(rt; is_right(rt.alloc(), row)?);
    }
    Ok(())
}
