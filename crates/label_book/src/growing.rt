//! Clusters are founded, take in cores, and join.

ghost use Rattle.std.specs.Prelude.{◌≡◌, ◌⊎◌, ◌<◌, None, Some, ℕ, min, length, IsSome, IfOk, OnOk};
ghost use Rattle.std.specs.Prelude.{OnErr};
ghost use Rattle.std.specs.FinMap as map;
ghost use Rattle.label_book.specs.Labels.{IsMember, EachOnce, IsLeastOf, AreFree, AreLabels};
ghost use Rattle.label_book.specs.Labels.{IsFounded, IsJoined, IsLeastOfBoth};
ghost use Rattle.label_book.specs.inside.Steps.{IsWith, IsMergedOf, StandsFrom, IsRewritten};

use crate::book::LabelBook;
use crate::cluster::{Cluster, Place};
use number_map::NumberMap;
use std::alloc::AllocError;
use vec_record::{Number, Numbers};

impl LabelBook {
    /// Makes a cluster of cores without label, and answers its label, the least of them. After
    /// want of memory some of them may be in the book.
    pub fn found(&mut self, cores: &Numbers) -> Result<Number, AllocError>
        requires some { 0 < length cores.now }
        requires once { EachOnce cores.now }
        requires free { AreFree self.old cores.now }
        ensures label { IfOk result (λ l. IsLeastOf l cores.now) }
        ensures ok { IfOk result (λ l. IsFounded self.old cores.now l self.new) }
    {
        let _ = &self.places;
        let items = cores.as_slice();
        let mut label = items[0];
        self.single(label)?;
        for i in 1..items.len() {
            label = self.add(label, items[i])?;
        }
        Ok(label)
    }

    /// Makes one cluster of those of the labels and of cores without label, and answers its label,
    /// the least of all. The lists of the smaller clusters move to that of the largest. After want
    /// of memory some of this may be done.
    pub fn join(&mut self, labels: &Numbers, cores: &Numbers) -> Result<Number, AllocError>
        requires some { 0 < length labels.now }
        requires labels { AreLabels self.old labels.now }
        requires cores_once { EachOnce cores.now }
        requires free { AreFree self.old cores.now }
        ensures label { IfOk result (λ l. IsLeastOfBoth l labels.now cores.now) }
        ensures ok { IfOk result (λ l. IsJoined self.old labels.now cores.now l self.new) }
    {
        let _ = &self.places;
        let items = labels.as_slice();
        let target = self.largest(items);
        let mut label = target;
        for i in 0..items.len() {
            label = self.merge(label, items[i])?;
        }
        let added = cores.as_slice();
        for j in 0..added.len() {
            label = self.add(label, added[j])?;
        }
        Ok(label)
    }

    // One of the labels whose cluster has the most members.
    fn largest(&self, labels: &[Number]) -> Number
        requires some { 0 < length labels.now }
        ensures { IsMember labels.now result }
    {
        let mut best = labels[0];
        for i in 1..labels.len() {
            best = self.larger(best, labels[i]);
        }
        best
    }

    // The label of the two whose cluster has more members, the first where they have as many.
    fn larger(&self, first: Number, second: Number) -> Number
        ensures { (result ≡ first) ⊎ (result ≡ second) }
    {
        if self.size_of(first) < self.size_of(second) {
            second
        } else {
            first
        }
    }

    // How many members the cluster of a label has.
    fn size_of(&self, label: Number) -> usize {
        match self.members(label) {
            Some(members) => members.len(),
            None => 0,
        }
    }

    // Makes a cluster of one core. After want of memory the book is as before.
    fn single(&mut self, core: Number) -> Result<(), AllocError>
        requires { map.get self.old core ≡ None }
        ensures ok { OnOk result (self.new ≡ map.insert self.old core core) }
        ensures err { OnErr result (self.new ≡ self.old) }
    {
        let mut members = Numbers::new(self.alloc);
        members.push(core)?;
        let cluster = self.clusters.insert(Cluster {
            label: core,
            members,
        })?;
        let place = Place { cluster, at: 0 };
        match self.places.insert(core, place) {
            Ok(()) => Ok(()),
            Err(e) => {
                let _ = self.clusters.try_remove(cluster);
                Err(e)
            }
        }
    }

    // Gives a core without label to the cluster of a label, and answers the label that this
    // cluster has then. After want of memory the book is as before.
    fn add(&mut self, label: Number, core: Number) -> Result<Number, AllocError>
        requires label { map.get self.old label ≡ Some label }
        requires core { map.get self.old core ≡ None }
        ensures label { IfOk result (λ l. l ≡ min label core) }
        ensures ok { OnOk result (IsWith self.old label core self.new) }
        ensures err { OnErr result (self.new ≡ self.old) }
    {
        let cluster = match self.places.get(label) {
            Some(place) => place.cluster,
            None => return Err(AllocError),
        };
        let at = match self.clusters.get(cluster) {
            Some(found) => found.members.len(),
            None => return Err(AllocError),
        };
        self.places.insert(core, Place { cluster, at })?;
        match self.clusters.get_mut(cluster) {
            Some(found) => match found.take_in(core) {
                Ok(least) => Ok(least),
                Err(e) => {
                    let _ = self.places.remove(core);
                    Err(e)
                }
            },
            None => {
                let _ = self.places.remove(core);
                Err(AllocError)
            }
        }
    }

    // Moves the members of the cluster of a core to that of a label, and answers the label that
    // this cluster has then. Where the core is in it already nothing changes. After want of memory
    // the book is as before.
    fn merge(&mut self, into: Number, core: Number) -> Result<Number, AllocError>
        requires into { map.get self.old into ≡ Some into }
        requires core { IsSome (map.get self.old core) }
        ensures ok { IfOk result (λ l. IsMergedOf self.old into core l self.new) }
        ensures err { OnErr result (self.new ≡ self.old) }
    {
        let target = match self.places.get(into) {
            Some(place) => place.cluster,
            None => return Err(AllocError),
        };
        let start = match self.clusters.get(target) {
            Some(larger) => larger.members.len(),
            None => return Err(AllocError),
        };
        let source = match self.places.get(core) {
            Some(place) => place.cluster,
            None => return Err(AllocError),
        };
        if source == target {
            return Ok(into);
        }
        let smaller = match self.clusters.try_remove(source) {
            Some(cluster) => cluster,
            None => return Err(AllocError),
        };
        match self.clusters.get_mut(target) {
            Some(larger) => match larger.absorb(self.alloc, &smaller) {
                Ok(label) => {
                    rewrite(&mut self.places, larger.members.as_slice(), start, target);
                    Ok(label)
                }
                Err(e) => {
                    let _ = self.clusters.insert_reserved(smaller);
                    Err(e)
                }
            },
            None => Err(AllocError),
        }
    }
}

// Sets the places of the members from a place on, all in this cluster. It takes no memory.
fn rewrite(places: &mut NumberMap<Place>, members: &[Number], from: usize, cluster: usize)
    requires known { (q : ℕ) → StandsFrom members.now from q → IsSome (map.get places.old q) }
    requires once { EachOnce members.now }
    ensures { IsRewritten places.old members.now cluster from (length members.now) places.new }
{
    for at in from..members.len() {
        places.replace(members[at], Place { cluster, at });
    }
}
