//! Shapes, which are nodes without their children and vectors, and what may be wrong with a list
//! of them.

use items::Items;
use std::alloc::AllocError;
use vec_record::{Number, Vector};

/// A leaf's entries: each number with its parent distance.
pub type LeafShape = Items<(Number, u32)>;

/// An inner node's entries: for each its child's place in the list of shapes, its parent distance,
/// its covering radius and its object.
pub type InnerShape = Items<(u32, u32, u32, Vector)>;

/// A node without its children: an inner node names theirs by their places in the list of shapes.
#[derive(Drop)]
pub enum Shape {
    Leaf { tag: u32, rows: LeafShape },
    Inner { tag: u32, rows: InnerShape },
}

/// The shapes of a tree's nodes. The first stands for the root.
pub type Shapes = Items<Shape>;

/// A place where a list of shapes is no tree. Both numbers count from 0.
#[derive(Clone, Copy, Debug, Drop, PartialEq, Eq)]
pub struct BadPlace {
    /// The node's place in the list of shapes.
    pub node: u32,
    /// The entry's position in the node.
    pub entry: u32,
    pub what: BadWhat,
}

/// What is wrong at a place.
#[derive(Clone, Copy, Debug, Drop, PartialEq, Eq)]
pub enum BadWhat {
    /// The child's place isn't the next of the preorder, or its shape isn't of the kind of its
    /// level.
    Child,
    /// The node has too few entries or too many, or it isn't reached.
    Fill,
    /// The parent distance isn't the distance from the node's object.
    Parent,
    /// The radius doesn't reach to each vector below.
    Radius,
    /// The number is that of no record, or of one that an earlier entry named.
    Number,
    /// No entry names one of the records.
    Missing,
}

/// Why no tree is built.
#[derive(Clone, Copy, Debug, Drop, PartialEq, Eq)]
pub enum BuildFault {
    /// The first place, in the order of the walk, where the list isn't a tree over the records.
    Bad(BadPlace),
    Memory,
}

impl From<AllocError> for BuildFault {
    ghost use Rattle.std.specs.Prelude.{◌≡◌};
    ghost use Rattle.mtree_node.specs.declared.shape.BuildFault.TheVariants.{Memory};

    ghost from_gives = { λ _ fault. fault ≡ Memory };

    fn from(_fault: AllocError) -> BuildFault {
        BuildFault::Memory
    }
}
