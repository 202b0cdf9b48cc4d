//! New tags for the nodes of a tree, in preorder.

ghost use Rattle.std.specs.Prelude.{◌≡◌, ℕ, ◌+◌, ◌≤◌, length, sum_by};
ghost use Rattle.std.specs.List.{AllByRecursion};
ghost use Rattle.mtree_node.specs.declared.node.InnerEntry.{out-InnerEntry};
ghost use Rattle.mtree_node.specs.Tree.{IsLeveled, IsLevel};
ghost use Rattle.mtree_node.specs.Preorder.{size, retagged_entry, retagged_below, retagged_from};
ghost use Rattle.mtree_node.specs.Preorder.{retagged};

use crate::levels::height;
use crate::node::{InnerEntry, Node};
use items::Items;

#[cycle(retag)]
fn retag_entry(entry: &mut InnerEntry, levels: u32, tags: &[u32], at: usize) -> usize
    requires leveled { IsLeveled levels (out-InnerEntry entry.old).child }
    requires tags { at + size levels (out-InnerEntry entry.old).child ≤ length tags.now }
    ensures is { entry.new ≡ retagged_entry (retagged_from tags.now levels at)
        (out-InnerEntry entry.old) }
    ensures next { result ≡ at + size levels (out-InnerEntry entry.old).child }
{
    retag_node(entry.child.get_mut(), levels, tags, at)
}

// Sets the tags below entries, from a place on, and gives the place of the next tag.
#[cycle(retag)]
fn retag_below(entries: &mut Items<InnerEntry>, levels: u32, tags: &[u32], first: usize) -> usize
    requires leveled { AllByRecursion (λ e. IsLeveled levels (out-InnerEntry e).child) entries.old }
    requires tags { first + sum_by (λ e. size levels (out-InnerEntry e).child) entries.old
        ≤ length tags.now }
    ensures is { entries.new ≡ retagged_below (size levels) (retagged_from tags.now levels) first
        entries.old }
    ensures next { result ≡ first + sum_by (λ e. size levels (out-InnerEntry e).child) entries.old }
{
    let mut at = first;
    for i in 0..entries.len() {
        at = retag_entry(entries.item_mut(i), levels, tags, at);
    }
    at
}

// Sets the tags of a node and of all below it, from a place on, and gives the place of the next
// tag.
#[cycle(retag)]
fn retag_node(node: &mut Node, levels: u32, tags: &[u32], at: usize) -> usize
    requires leveled { IsLeveled levels node.old }
    requires tags { at + size levels node.old ≤ length tags.now }
    ensures is { node.new ≡ retagged_from tags.now levels at node.old }
    ensures next { result ≡ at + size levels node.old }
{
    match node {
        Node::Leaf { tag, entries: _ } => {
            *tag = tags[at];
            at + 1
        }
        Node::Inner { tag, entries } => {
            *tag = tags[at];
            retag_below(entries, levels - 1, tags, at + 1)
        }
    }
}

/// Sets the tags of the nodes, in preorder: one tag for each node. Nothing else changes, and it
/// takes no memory.
///
/// The leaves are all at one depth of at most 6 levels, each node has at most 30 entries, and each
/// inner node has at least one.
pub fn retag(root: &mut Node, tags: &[u32])
    requires leveled { IsLevel root.old }
    requires tags { (levels : ℕ) → IsLeveled levels root.old → length tags.now
        ≡ size levels root.old }
    ensures is { (levels : ℕ) → IsLeveled levels root.old → root.new
        ≡ retagged tags.now levels root.old }
{
    let levels = height(root);
    let _ = retag_node(root, levels, tags, 0);
}
