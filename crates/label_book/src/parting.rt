//! A cluster parts: members leave, groups become clusters of their own, and the rest stays one.

ghost use Rattle.std.specs.Prelude.{◌≡◌, ◌≢◌, ◌↔◌, None, Some, ℕ, [], ◌∷◌, ◌++◌, length, IsTrue};
ghost use Rattle.std.specs.Prelude.{IsSome, IfOk, OnOk};
ghost use Rattle.std.specs.Option.{option_to_list};
ghost use Rattle.std.specs.List.Sorted.{IsStrictlyIncreasing, IsNonDecreasing, IsPermutation};
ghost use Rattle.std.specs.FinMap as map;
ghost use Rattle.slab.specs.Slab as slab;
ghost use Rattle.label_book.specs.Labels.{IsMember, EachOnce, AreFree};
ghost use Rattle.label_book.specs.Parting.{IsGrouped, AreEachOnce, AreApart, IsParting, IsParted};
ghost use Rattle.label_book.specs.Parting.{AreNewLabels};
ghost use Rattle.label_book.specs.inside.Kept.{ArePlaced};
ghost use Rattle.label_book.specs.inside.Steps.{IsTakenOut, IsSettled, IsHeadless, IsWithout};
ghost use Rattle.label_book.specs.inside.Steps.{IsWithoutGroups, IsCleared, AreFounded};
ghost use Rattle.label_book.specs.inside.Steps.{IsOneFounded};

use crate::book::LabelBook;
use crate::cluster::{Cluster, Place};
use number_map::NumberMap;
use slab::Slab;
use std::alloc::{AllocError, Global};
use vec_record::{Groups, Number, Numbers};

impl LabelBook {
    /// Parts the cluster of a label: the lost ones leave, each group that isn't empty becomes a
    /// cluster, and the members in no list stay one. Answers the labels that there are then,
    /// rising. Only the cores of the lists are touched, and the rest is looked through once where
    /// its least one left. After want of memory some of this may be done.
    pub fn part(
        &mut self,
        label: Number,
        lost: &Numbers,
        groups: &Groups,
    ) -> Result<Numbers, AllocError>
        requires { IsParting self.old label lost.now groups.now }
        ensures ok { IfOk result (λ _. IsParted self.old label lost.now groups.now self.new) }
        ensures labels { IfOk result (AreNewLabels self.old label self.new) }
        ensures rising { IfOk result IsStrictlyIncreasing }
    {
        let rest = self.clear_out(label, lost.as_slice(), groups.as_slice());
        let mut labels = Numbers::new(self.alloc);
        self.found_all(groups.as_slice(), &mut labels)?;
        push_some(&mut labels, rest)?;
        Ok(rising(labels))
    }

    // The cores of these lists leave the cluster of a label. Answers the label of the rest, if any.
    fn clear_out(&mut self, label: Number, lost: &[Number], groups: &[Numbers]) -> Option<Number>
        requires { IsParting self.old label lost.now groups.now }
        ensures { IsCleared self.old label lost.now groups.now result self.new }
    {
        let _ = &self.places;
        self.leave_but(lost, label);
        self.leave_groups(groups, label);
        if is_among(lost, label) {
            return self.leave_label(label);
        }
        if stands_in(groups, label) {
            return self.leave_label(label);
        }
        Some(label)
    }

    // Makes a cluster of each group that isn't empty, and puts their labels into an empty list.
    fn found_all(&mut self, groups: &[Numbers], labels: &mut Numbers) -> Result<(), AllocError>
        requires empty { labels.old ≡ [] }
        requires once { AreEachOnce groups.now }
        requires one { AreApart groups.now }
        requires free { (core : ℕ) → IsGrouped groups.now core → map.get self.old core ≡ None }
        ensures { OnOk result (AreFounded self.old groups.now labels.new self.new) }
    {
        for i in 0..groups.len() {
            self.found_one(&groups[i], labels)?;
        }
        Ok(())
    }

    // Makes a cluster of a group, if it isn't empty, and appends its label to a list.
    fn found_one(&mut self, group: &Numbers, labels: &mut Numbers) -> Result<(), AllocError>
        requires once { EachOnce group.now }
        requires free { AreFree self.old group.now }
        ensures { OnOk result (IsOneFounded self.old group.now labels.old self.new labels.new) }
    {
        if group.len() == 0 {
            return Ok(());
        }
        let label = self.found(group)?;
        labels.push(label)?;
        Ok(())
    }

    // The cores of these groups leave the cluster of a label, but for the label itself.
    fn leave_groups(&mut self, groups: &[Numbers], label: Number)
        requires once { AreEachOnce groups.now }
        requires one { AreApart groups.now }
        requires members { (q : ℕ) → IsGrouped groups.now q → map.get self.old q ≡ Some label }
        ensures { IsWithoutGroups self.old groups.now label self.new }
    {
        for i in 0..groups.len() {
            self.leave_but(groups[i].as_slice(), label);
        }
    }

    // These cores of the cluster of a label leave it, but for the label itself.
    fn leave_but(&mut self, cores: &[Number], label: Number)
        requires once { EachOnce cores.now }
        requires members { (q : ℕ) → IsMember cores.now q → map.get self.old q ≡ Some label }
        ensures { IsWithout self.old cores.now label self.new }
    {
        for i in 0..cores.len() {
            self.leave_unless(cores[i], label);
        }
    }

    // A core of the cluster of a label leaves it, unless it is the label.
    fn leave_unless(&mut self, core: Number, label: Number)
        requires { map.get self.old core ≡ Some label }
        ensures { IsWithout self.old (core ∷ []) label self.new }
    {
        if core == label {
            return;
        }
        self.leave_member(core);
    }

    // A core that isn't a label leaves its cluster.
    fn leave_member(&mut self, core: Number)
        requires known { IsSome (map.get self.old core) }
        requires other { map.get self.old core ≢ Some core }
        ensures { self.new ≡ map.remove self.old core }
    {
        let _ = take_out(self.alloc, &mut self.places, &mut self.clusters, core);
    }

    // The core that is a label leaves its cluster. Answers the label of the rest, if there is any.
    fn leave_label(&mut self, label: Number) -> Option<Number>
        requires { map.get self.old label ≡ Some label }
        ensures { IsHeadless self.old label result self.new }
    {
        let key = take_out(self.alloc, &mut self.places, &mut self.clusters, label);
        settle(&mut self.clusters, key)
    }
}

// Appends a label, if there is one.
fn push_some(labels: &mut Numbers, label: Option<Number>) -> Result<(), AllocError>
    ensures { OnOk result (labels.new ≡ labels.old ++ option_to_list label) }
{
    match label {
        Some(label) => labels.push(label),
        None => Ok(()),
    }
}

// The list by rising number. It takes no memory.
fn rising(numbers: Numbers) -> Numbers
    ensures permutation { IsPermutation numbers result }
    ensures sorted { IsNonDecreasing result }
{
    let mut items = numbers.into_vec();
    items.sort_unstable();
    Numbers::from_vec(items)
}

// True exactly where the core stands in the list.
pub(crate) fn is_among(cores: &[Number], core: Number) -> bool
    ensures { IsTrue result ↔ IsMember cores.now core }
{
    cores.contains(&core)
}

// True exactly where the core stands in one of the groups.
pub(crate) fn stands_in(groups: &[Numbers], core: Number) -> bool
    ensures { IsTrue result ↔ IsGrouped groups.now core }
{
    for i in 0..groups.len() {
        if is_among(groups[i].as_slice(), core) {
            return true;
        }
    }
    false
}

// A core leaves its cluster, whose key is answered. The last one of the list takes its place. The
// label of the cluster stays, even where it was the core.
fn take_out(
    alloc: Global,
    places: &mut NumberMap<Place>,
    clusters: &mut Slab<Cluster>,
    core: Number,
) -> usize
    requires placed { ArePlaced places.old clusters.old }
    requires known { IsSome (map.get places.old core) }
    ensures { IsTakenOut places.old clusters.old core result places.new clusters.new }
{
    let place = match places.remove(core) {
        Some(place) => place,
        None => return 0,
    };
    match clusters.get_mut(place.cluster) {
        Some(cluster) => match cluster.take_out(alloc, place.at) {
            Some(moved) => {
                places.replace(moved, place);
                place.cluster
            }
            None => place.cluster,
        },
        None => place.cluster,
    }
}

// Makes the least member of a cluster its label, and answers it. A cluster with no member is
// removed.
fn settle(clusters: &mut Slab<Cluster>, key: usize) -> Option<Number>
    requires { IsSome (slab.get clusters.old key) }
    ensures { IsSettled clusters.old key result clusters.new }
{
    match clusters.get_mut(key) {
        Some(cluster) => match cluster.settle() {
            Some(label) => Some(label),
            None => {
                let _ = clusters.try_remove(key);
                None
            }
        },
        None => None,
    }
}
