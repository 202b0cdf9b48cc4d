//! How far a walk over references has come.

use items::Items;
use mtree_node::Shapes;

/// The nodes that a walk has listed, the reference of each, and a table that tells of each
/// reference whether it is one of them.
#[derive(Drop)]
pub struct Progress {
    pub shapes: Shapes,
    pub refs: Items<u32>,
    pub table: Vec<bool>,
}
