//! What a split has to know of an entry, of a leaf or of an inner node.

ghost use Rattle.std.specs.Prelude.{◌≡◌, ℕ, List};
ghost use Rattle.mtree_index.specs.Entries.{leaf_with_parent, inner_with_parent};
ghost use Rattle.mtree_node.specs.declared.node.InnerEntry.{out-InnerEntry};

use mtree_node::{InnerEntry, LeafEntry};
use vec_record::Vector;

/// An entry of a node, of either kind: what a split has to know of it.
pub trait Entry: Drop {
    /// The bytes of its object.
    ghost object: { Self → List ℕ };

    /// How far the vectors below are from the object at most.
    ghost radius: { Self → ℕ };

    /// The entry with another parent distance.
    ghost with_parent: { ℕ → Self → Self };

    fn object(&self) -> &Vector
        ensures { result.now ≡ object self.now };

    fn radius(&self) -> u32
        ensures { result ≡ radius self.now };

    fn set_parent(&mut self, parent: u32)
        ensures { self.new ≡ with_parent parent self.old };
}

impl Entry for LeafEntry {
    ghost object = { λ e. e.vector };

    ghost radius = { λ e. 0 };

    ghost with_parent = { leaf_with_parent };

    fn object(&self) -> &Vector {
        &self.vector
    }

    fn radius(&self) -> u32 {
        0
    }

    fn set_parent(&mut self, parent: u32) {
        self.parent = parent;
    }
}

impl Entry for InnerEntry {
    ghost object = { λ e. (out-InnerEntry e).object };

    ghost radius = { λ e. (out-InnerEntry e).radius };

    ghost with_parent = { inner_with_parent };

    fn object(&self) -> &Vector {
        &self.object
    }

    fn radius(&self) -> u32 {
        self.radius
    }

    fn set_parent(&mut self, parent: u32) {
        self.parent = parent;
    }
}
