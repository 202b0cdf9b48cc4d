//! A cluster: its label and the list of its members.

ghost use Rattle.std.specs.Prelude.{◌≡◌, [], ◌<◌, min, length, slice_get, None, Some, IfSome, IfOk};
ghost use Rattle.std.specs.Prelude.{OnOk, OnErr};
ghost use Rattle.label_book.specs.Labels.{IsLeastOf};
ghost use Rattle.label_book.specs.inside.Steps.{with_core, with_members, IsSwappedOut};

use std::alloc::{AllocError, Global};
use std::mem;
use vec_record::{Number, Numbers};

/// Where a core stands: its cluster, and its place in the cluster's list.
#[derive(Clone, Copy, Drop)]
pub struct Place {
    pub cluster: usize,
    pub at: usize,
}

/// A label, and the cores that have it.
#[derive(Drop)]
pub struct Cluster {
    pub label: Number,
    pub members: Numbers,
}

impl Cluster {
    /// Puts a core at the end of the list, and answers the label then. After want of memory the
    /// cluster is as before.
    pub fn take_in(&mut self, core: Number) -> Result<Number, AllocError>
        ensures label { IfOk result (λ l. l ≡ min self.old.label core) }
        ensures ok { OnOk result (self.new ≡ with_core self.old core) }
        ensures err { OnErr result (self.new ≡ self.old) }
    {
        self.members.push(core)?;
        self.label = self.label.min(core);
        Ok(self.label)
    }

    /// Puts the members of another cluster at the end of the list, and answers the label then.
    /// After want of memory the cluster is as before.
    pub fn absorb(&mut self, alloc: Global, other: &Cluster) -> Result<Number, AllocError>
        ensures label { IfOk result (λ l. l ≡ min self.old.label other.now.label) }
        ensures ok { OnOk result (self.new ≡ with_members self.old other.now) }
        ensures err { OnErr result (self.new ≡ self.old) }
    {
        let mut list = mem::replace(&mut self.members, Numbers::new(alloc)).into_vec();
        let outcome = list.extend_from_slice(other.members.as_slice());
        self.members = Numbers::from_vec(list);
        outcome?;
        self.label = self.label.min(other.label);
        Ok(self.label)
    }

    /// Takes out the member at a place, puts the last one there, and answers which one that is, if
    /// there is one. The label stays. It takes no memory.
    pub fn take_out(&mut self, alloc: Global, at: usize) -> Option<Number>
        requires at { at < length self.old.members }
        ensures label { self.new.label ≡ self.old.label }
        ensures members { IsSwappedOut self.old.members at self.new.members }
        ensures moved { result ≡ slice_get self.new.members at }
    {
        let mut list = mem::replace(&mut self.members, Numbers::new(alloc)).into_vec();
        let _ = list.swap_remove(at);
        let moved = list.get(at).copied();
        self.members = Numbers::from_vec(list);
        moved
    }

    /// Makes the least member the label, and answers it; `None` exactly where there is no member.
    pub fn settle(&mut self) -> Option<Number>
        ensures some { IfSome result (λ l. IsLeastOf l self.old.members) }
        ensures label { IfSome result (λ l. self.new ≡ record self.old { label = l }) }
        ensures none { result ≡ None → (self.old.members ≡ []) × (self.new ≡ self.old) }
    {
        let least = least_of(self.members.as_slice())?;
        self.label = least;
        Some(least)
    }
}

// The least number of a list; `None` exactly where it is empty.
fn least_of(numbers: &[Number]) -> Option<Number>
    ensures some { IfSome result (λ l. IsLeastOf l numbers.now) }
    ensures none { result ≡ None → numbers.now ≡ [] }
{
    if numbers.is_empty() {
        return None;
    }
    let mut least = numbers[0];
    for i in 1..numbers.len() {
        least = least.min(numbers[i]);
    }
    Some(least)
}
