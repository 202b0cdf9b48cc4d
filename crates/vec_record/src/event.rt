//! Events: what a change did to the clusters.

ghost use Rattle.std.specs.Prelude.{◌≡◌, [], ◌∷◌, ◌++◌, length, OnOk, OnErr};

use crate::numbers::Number;
use std::alloc::{AllocError, Global};
use std::marker::Model;

/// What happened to a cluster, or that an insertion made no new core.
#[derive(Clone, Copy, Debug, PartialEq, Eq)]
pub enum Kind {
    Noise,
    Created,
    Absorbed,
    Merged,
    Removed,
    Reduced,
    Split,
}

/// An event of one change. `from` is the old label and `to` the new one, or 0 where there is none.
/// At `Noise` `from` is 0 and `to` the inserted number.
#[derive(Clone, Copy, Debug, PartialEq, Eq)]
pub struct Event {
    pub kind: Kind,
    pub from: Number,
    pub to: Number,
}

/// A list of events, in their order.
#[derive(Drop)]
pub struct Events {
    items: Vec<Event>,
}

impl Model for Events {
    ghost use Rattle.std.specs.Prelude.{List};
    ghost use Rattle.vec_record.specs.declared.event.Event.{Event};

    ghost Value = { List Event };

    ghost view = { λ e. e.items.items };
}

impl Events {
    pub fn new(alloc: Global) -> Events
        ensures { result ≡ [] }
    {
        Events {
            items: Vec::new(alloc),
        }
    }

    pub fn push(&mut self, item: Event) -> Result<(), AllocError>
        ensures ok { OnOk result (self.new ≡ self.old ++ item ∷ []) }
        ensures err { OnErr result (self.new ≡ self.old) }
    {
        self.items.push(item)?;
        Ok(())
    }

    pub fn len(&self) -> usize
        ensures { result ≡ length self.now }
    {
        self.items.len()
    }

    pub fn as_slice(&self) -> &[Event]
        ensures { result.now ≡ self.now }
    {
        &self.items
    }
}
