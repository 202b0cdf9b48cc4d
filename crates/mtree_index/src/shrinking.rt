//! The removal from a whole tree, which may lose levels.

ghost use Rattle.std.specs.Prelude.{◌≡◌, ℕ, ◌+◌, ◌*◌, ◌<◌, ◌≤◌, length, None, Some, Ok, IfOk, true};
ghost use Rattle.std.specs.Prelude.{false};
ghost use Rattle.vec_record.specs.Vectors.{IsWidth};
ghost use Rattle.mtree_index.specs.Tree.{IsRoot, root_cost};
ghost use Rattle.mtree_index.specs.Joinable.{given};
ghost use Rattle.mtree_index.specs.Shrinking.{as_root, lowered, shrunk_from};

use crate::removal::remove_below;
use crate::under::clear_parents;
use mtree_node::Node;
use std::alloc::{AllocError, Global};
use std::sync::ledger::Ledger;
use vec_record::{Metric, Number, Steps, Vector};

fn as_root(node: Node) -> Node
    ensures { result ≡ as_root node }
{
    match node {
        Node::Leaf { tag, mut entries } => {
            entries.clear_parents();
            Node::Leaf { tag, entries }
        }
        Node::Inner { tag, mut entries } => {
            clear_parents(&mut entries);
            Node::Inner { tag, entries }
        }
    }
}

// The root and the height after a root has lost entries. It takes no memory.
fn lowered(node: Node, height: u32) -> (Option<Node>, u32)
    requires { 0 < height }
    ensures { (width : ℕ) → record { width = width; height = result.1; root = result.0 }
        ≡ lowered width height node }
{
    match node {
        Node::Leaf { tag, entries } => {
            if entries.len() == 0 {
                return (None, 0);
            }
            (Some(Node::Leaf { tag, entries }), height)
        }
        Node::Inner { tag, mut entries } => {
            if entries.len() == 1 {
                let only = entries.remove(0);
                return (Some(as_root(only.child.into_inner())), height - 1);
            }
            (Some(Node::Inner { tag, entries }), height)
        }
    }
}

/// Whether the pair was found, and the root and the height after its removal.
pub fn shrink<M: Metric, L: Ledger>(
    alloc: Global,
    height: u32,
    root: Option<Node>,
    number: Number,
    vector: &Vector,
    steps: &mut Steps<L>,
) -> Result<(bool, Option<Node>, u32), AllocError>
    requires width { IsWidth (length vector.now) }
    requires root { IsRoot M.dist (length vector.now) (M.most (length vector.now)) height root }
    ensures is { IfOk result (λ x. given x.0
        (record { width = length vector.now; height = x.2; root = x.1 })
        ≡ shrunk_from M.dist (M.most (length vector.now)) number vector.now (length vector.now)
        height root) }
    ensures absent { shrunk_from M.dist (M.most (length vector.now)) number vector.now
        (length vector.now) height root ≡ None → result ≡ Ok (false, root, height) }
    ensures counted { steps.new
        ≤ steps.old + 1400 * height + root_cost M.dist height root vector.now 0 }
{
    let Some(mut node) = root else {
        return Ok((false, None, 0));
    };
    let found = remove_below::<M, L>(alloc, &mut node, height, None, None, number, vector, steps)?;
    if !found {
        return Ok((false, Some(node), height));
    }
    let (root, height) = lowered(node, height);
    Ok((true, root, height))
}
