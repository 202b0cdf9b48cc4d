//! The number of levels of a tree.

ghost use Rattle.std.specs.Prelude.{◌≡◌, ℕ};
ghost use Rattle.mtree_node.specs.Tree.{IsLeveled, IsLevel};

use crate::node::Node;

/// The number of levels of a tree: 1 for a leaf. It takes no memory.
///
/// The leaves are all at one depth of at most 6 levels, each node has at most 30 entries, and each
/// inner node has at least one.
pub fn height(root: &Node) -> u32
    requires leveled { IsLevel root.now }
    ensures is { IsLeveled result root.now }
    ensures only { (levels : ℕ) → IsLeveled levels root.now → result ≡ levels }
{
    match root {
        Node::Leaf { tag: _, entries: _ } => 1,
        Node::Inner { tag: _, entries } => 1 + height(entries.as_slice()[0].child.get()),
    }
}
