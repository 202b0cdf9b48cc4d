//! The nodes of a tree and their entries.

use crate::leaf_entries::LeafEntries;
use items::{Boxed, Items};
use vec_record::{Number, Vector};

/// A numbered vector of a leaf.
#[derive(Drop)]
pub struct LeafEntry {
    pub number: Number,
    /// The distance from the node's routing object, 0 in the root.
    pub parent: u32,
    // Last, since fields lie in their order: with the two numbers side by side an entry has no
    // gaps.
    pub vector: Vector,
}

/// A child of an inner node, with what a search has to know of it.
#[cycle(node)]
#[derive(Drop)]
pub struct InnerEntry {
    /// The routing object.
    pub object: Vector,
    /// The covering radius: no vector below is farther from the object.
    pub radius: u32,
    /// The distance from the routing object of the entry's own node, 0 in the root.
    pub parent: u32,
    pub child: Boxed<Node>,
}

/// A node of the tree. The tag is a number for the layer above.
#[cycle(node)]
#[derive(Drop)]
pub enum Node {
    Leaf {
        tag: u32,
        entries: LeafEntries,
    },
    Inner {
        tag: u32,
        entries: Items<InnerEntry>,
    },
}
