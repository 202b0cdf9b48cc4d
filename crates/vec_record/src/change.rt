//! Changes of records.

ghost use Rattle.std.specs.Prelude.{◌≡◌, [], ◌∷◌, ◌++◌, length, OnOk, OnErr};

use crate::numbers::Number;
use crate::vector::Vector;
use std::alloc::{AllocError, Global};
use std::marker::Model;

/// A change of one record.
#[derive(Drop)]
pub enum Change {
    Insert(Number, Vector),
    Delete(Number),
}

/// A list of changes, in the order in which they apply.
#[derive(Drop)]
pub struct Changes {
    items: Vec<Change>,
}

impl Model for Changes {
    ghost use Rattle.std.specs.Prelude.{List};
    ghost use Rattle.vec_record.specs.declared.change.Change.{Change};

    ghost Value = { List Change };

    ghost view = { λ c. c.items.items };
}

impl Changes {
    pub fn new(alloc: Global) -> Changes
        ensures { result ≡ [] }
    {
        Changes {
            items: Vec::new(alloc),
        }
    }

    pub fn push(&mut self, item: Change) -> Result<(), AllocError>
        ensures ok { OnOk result (self.new ≡ self.old ++ item ∷ []) }
        ensures err { OnErr result (self.new ≡ self.old) }
    {
        self.items.push(item)?;
        Ok(())
    }

    pub fn len(&self) -> usize
        ensures { result ≡ length self.now }
    {
        self.items.len()
    }

    pub fn as_slice(&self) -> &[Change]
        ensures { result.now ≡ self.now }
    {
        &self.items
    }

    /// Gives the vector back, without taking memory.
    pub fn into_vec(self) -> Vec<Change>
        ensures { result.items ≡ self }
    {
        self.items
    }
}
