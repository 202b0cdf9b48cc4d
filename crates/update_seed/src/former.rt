//! What is left of clusters that lost cores, and lists of them.

ghost use Rattle.std.specs.Prelude.{◌≡◌, [], ◌∷◌, ◌++◌, length, OnOk, OnErr};

use std::alloc::{AllocError, Global};
use std::marker::Model;
use vec_record::{Number, Numbers};

/// A cluster that lost cores: its label before, the lost cores that had it, and the remaining cores
/// with this label that are near one of them.
#[derive(Drop)]
pub struct Former {
    pub label: Number,
    pub lost: Numbers,
    pub seeds: Numbers,
}

/// A list of former clusters.
#[derive(Drop)]
pub struct FormerList {
    items: Vec<Former>,
}

impl Model for FormerList {
    ghost use Rattle.std.specs.Prelude.{List};
    ghost use Rattle.update_seed.specs.declared.former.Former.{Former};

    ghost Value = { List Former };

    ghost view = { λ f. f.items.items };
}

impl FormerList {
    pub fn new(alloc: Global) -> FormerList
        ensures { result ≡ [] }
    {
        FormerList {
            items: Vec::new(alloc),
        }
    }

    pub fn push(&mut self, item: Former) -> Result<(), AllocError>
        ensures ok { OnOk result (self.new ≡ self.old ++ item ∷ []) }
        ensures err { OnErr result (self.new ≡ self.old) }
    {
        self.items.push(item)?;
        Ok(())
    }

    pub fn len(&self) -> usize
        ensures { result ≡ length self.now }
    {
        self.items.len()
    }

    pub fn as_slice(&self) -> &[Former]
        ensures { result.now ≡ self.now }
    {
        &self.items
    }
}

/// What lost cores leave behind: their former clusters, and the records whose anchor was lost.
#[derive(Drop)]
pub struct OutSeeds {
    pub former: FormerList,
    pub loose: Numbers,
}
