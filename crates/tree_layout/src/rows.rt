//! The entries of the nodes as pages hold them.

ghost use Rattle.std.specs.Prelude.{◌≡◌, ◌<◌, length, map};
ghost use Rattle.node_refs.specs.Laws.{referring};
ghost use Rattle.tree_layout.specs.Layouts.{referred, leaf_for, inner_for};

use mtree_node::{InnerShape, Shape, Shapes};
use vec_record::{Number, Vector};

fn refer_row(row: &mut (u32, u32, u32, Vector), refs: &[u32])
    ensures { row.new ≡ referring refs.now row.old }
{
    let place = row.0 as usize;
    row.0 = if place < refs.len() { refs[place] } else { 0 };
}

fn refer_rows(rows: &mut InnerShape, refs: &[u32])
    ensures { rows.new ≡ map (referring refs.now) rows.old }
{
    for i in 0..rows.len() {
        refer_row(rows.item_mut(i), refs);
    }
}

fn refer_node(node: &mut Shape, refs: &[u32])
    ensures { node.new ≡ referred refs.now node.old }
{
    match node {
        Shape::Leaf { tag: _, rows: _ } => {}
        Shape::Inner { tag: _, rows } => refer_rows(rows, refs),
    }
}

/// Puts the references of the children into the entries of inner nodes, for their places in the
/// list. It takes no memory.
pub fn refer(shapes: &mut Shapes, refs: &[u32])
    requires { length refs.now ≡ length shapes.old }
    ensures { shapes.new ≡ map (referred refs.now) shapes.old }
{
    for i in 0..shapes.len() {
        refer_node(shapes.item_mut(i), refs);
    }
}

/// The entries of the leaf with a number, counted from 1; none for 0 or another node.
pub fn leaf_at(shapes: &Shapes, number: u32) -> &[(Number, u32)]
    ensures { result.now ≡ leaf_for shapes.now number }
{
    let leaf = number as usize;
    if leaf == 0 || shapes.len() < leaf {
        return &[];
    }
    match &shapes.as_slice()[leaf - 1] {
        Shape::Leaf { tag: _, rows } => rows.as_slice(),
        Shape::Inner { tag: _, rows: _ } => &[],
    }
}

/// The entries of the inner node with a number, counted from 1; none for 0 or another node.
pub fn inner_at(shapes: &Shapes, number: u32) -> &[(u32, u32, u32, Vector)]
    ensures { result.now ≡ inner_for shapes.now number }
{
    let inner = number as usize;
    if inner == 0 || shapes.len() < inner {
        return &[];
    }
    match &shapes.as_slice()[inner - 1] {
        Shape::Leaf { tag: _, rows: _ } => &[],
        Shape::Inner { tag: _, rows } => rows.as_slice(),
    }
}
