//! The layout of the nodes of a tree.

ghost use Rattle.std.specs.Prelude.{◌≡◌, ◌+◌, ◌<◌, ◌≤◌, ◌^◌, length, map, IfOk};
ghost use Rattle.tree_layout.specs.Layouts.{tagged, laid_of};

use mtree_node::{Shape, Shapes};
use node_places::{NodeSlots, Tagged, kinds_after, node_slots, refs_after};
use std::alloc::{AllocError, Global};

/// Where the nodes of a tree stand: by leaf slot and by inner page the number of the node, counted
/// from 1 in preorder, 0 where it is free; the kinds of the body pages; the reference of each node.
#[derive(Drop)]
pub struct Layout {
    pub leaves: Vec<u32>,
    pub inners: Vec<u32>,
    pub kinds: Vec<u8>,
    pub refs: Vec<u32>,
}

/// Whether a node is a leaf, and its tag.
fn tagged(shape: &Shape) -> Tagged
    ensures { result ≡ tagged shape.now }
{
    match shape {
        Shape::Leaf { tag, rows: _ } => Tagged {
            leaf: true,
            tag: *tag,
        },
        Shape::Inner { tag, rows: _ } => Tagged {
            leaf: false,
            tag: *tag,
        },
    }
}

/// The same of each node.
fn tagged_nodes(alloc: Global, shapes: &Shapes) -> Result<Vec<Tagged>, AllocError>
    ensures { IfOk result (λ v. v.items ≡ map tagged shapes.now) }
{
    let mut nodes = Vec::new(alloc);
    for shape in shapes.as_slice() {
        nodes.push(tagged(shape))?;
    }
    Ok(nodes)
}

/// Where the nodes of a tree stand after a save, where the body pages had these kinds and the
/// records need so many pages. A node keeps its tag for its place where it can.
///
/// # Errors
///
/// `AllocError` where the memory is too small for the layout.
pub fn lay(
    alloc: Global,
    kinds: &[u8],
    records: usize,
    shapes: &Shapes,
) -> Result<Layout, AllocError>
    requires few { length shapes.now ≤ 200000 }
    requires pages { length kinds.now + 2 < 2 ^ 20 }
    requires records { records ≤ 200000 }
    ensures leaves { IfOk result
        (λ l. l.leaves.items ≡ (laid_of kinds.now records shapes.now).leaves) }
    ensures inners { IfOk result
        (λ l. l.inners.items ≡ (laid_of kinds.now records shapes.now).inners) }
    ensures kinds { IfOk result
        (λ l. l.kinds.items ≡ (laid_of kinds.now records shapes.now).kinds) }
    ensures refs { IfOk result
        (λ l. l.refs.items ≡ (laid_of kinds.now records shapes.now).refs) }
{
    let nodes = tagged_nodes(alloc, shapes)?;
    let slots = node_slots(alloc, kinds, &nodes)?;
    let pages = slots.leaves.len() / 63;
    let after = kinds_after(alloc, kinds, records, pages, slots.inners.len())?;
    let refs = refs_after(alloc, &after, &slots, &nodes)?;
    let NodeSlots { leaves, inners } = slots;
    Ok(Layout {
        leaves,
        inners,
        kinds: after,
        refs,
    })
}
