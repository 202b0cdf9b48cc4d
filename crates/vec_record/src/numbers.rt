//! The numbers of records, and lists of them.

ghost use Rattle.std.specs.Prelude.{◌≡◌, [], ◌∷◌, ◌++◌, length, OnOk, OnErr};

use std::alloc::{AllocError, Global};
use std::marker::Model;

/// The number of a record. 0 is no number.
pub type Number = u32;

/// A list of numbers.
#[derive(Drop)]
pub struct Numbers {
    items: Vec<Number>,
}

impl Model for Numbers {
    ghost use Rattle.std.specs.Prelude.{List, ℕ};

    ghost Value = { List ℕ };

    ghost view = { λ n. n.items.items };
}

impl Numbers {
    pub fn new(alloc: Global) -> Numbers
        ensures { result ≡ [] }
    {
        Numbers {
            items: Vec::new(alloc),
        }
    }

    /// The list of the numbers of a vector, without taking memory.
    pub fn from_vec(items: Vec<Number>) -> Numbers
        ensures { result ≡ items.items }
    {
        Numbers { items }
    }

    /// Gives the vector back, without taking memory.
    pub fn into_vec(self) -> Vec<Number>
        ensures { result.items ≡ self }
    {
        self.items
    }

    pub fn push(&mut self, item: Number) -> Result<(), AllocError>
        ensures ok { OnOk result (self.new ≡ self.old ++ item ∷ []) }
        ensures err { OnErr result (self.new ≡ self.old) }
    {
        self.items.push(item)?;
        Ok(())
    }

    pub fn len(&self) -> usize
        ensures { result ≡ length self.now }
    {
        self.items.len()
    }

    pub fn as_slice(&self) -> &[Number]
        ensures { result.now ≡ self.now }
    {
        &self.items
    }
}
