//! New cores and old labels that are of one cluster, and lists of such groups.

ghost use Rattle.std.specs.Prelude.{◌≡◌, [], ◌∷◌, ◌++◌, length, OnOk, OnErr};

use std::alloc::{AllocError, Global};
use std::marker::Model;
use vec_record::Numbers;

/// The new cores of one cluster, and the labels that its other cores had before the change.
#[derive(Drop)]
pub struct InGroup {
    pub new_cores: Numbers,
    pub old_labels: Numbers,
}

/// A list of groups.
#[derive(Drop)]
pub struct InGroups {
    items: Vec<InGroup>,
}

impl Model for InGroups {
    ghost use Rattle.std.specs.Prelude.{List};
    ghost use Rattle.update_seed.specs.declared.groups.InGroup.{InGroup};

    ghost Value = { List InGroup };

    ghost view = { λ g. g.items.items };
}

impl InGroups {
    pub fn new(alloc: Global) -> InGroups
        ensures { result ≡ [] }
    {
        InGroups {
            items: Vec::new(alloc),
        }
    }

    pub fn push(&mut self, item: InGroup) -> Result<(), AllocError>
        ensures ok { OnOk result (self.new ≡ self.old ++ item ∷ []) }
        ensures err { OnErr result (self.new ≡ self.old) }
    {
        self.items.push(item)?;
        Ok(())
    }

    pub fn len(&self) -> usize
        ensures { result ≡ length self.now }
    {
        self.items.len()
    }

    pub fn as_slice(&self) -> &[InGroup]
        ensures { result.now ≡ self.now }
    {
        &self.items
    }
}
