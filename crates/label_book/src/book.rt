//! The label book, and what it answers.

ghost use Rattle.std.specs.Prelude.{◌≡◌, ◌↔◌, None, Some, IsSome, IfSome};
ghost use Rattle.std.specs.FinMap as map;
ghost use Rattle.label_book.specs.Labels.{HasLeast, AreMembers, HasNoMember, cluster_count};

use crate::cluster::{Cluster, Place};
use number_map::NumberMap;
use slab::Slab;
use std::alloc::Global;
use std::marker::Model;
use vec_record::{Number, Numbers};

/// Clusters of cores, seen as a finite map from core to label. A label is the least of its members.
#[derive(Drop)]
pub struct LabelBook {
    pub(crate) alloc: Global,
    pub(crate) places: NumberMap<Place>,
    pub(crate) clusters: Slab<Cluster>,
}

impl Model for LabelBook {
    ghost use Rattle.std.specs.Prelude.{ℕ};
    ghost use Rattle.std.specs.Ordering.{nat_cmp};
    ghost use Rattle.std.specs.FinMap as map;
    ghost use Rattle.std.specs.Coded.{coded_ℕ};
    ghost use Rattle.label_book.specs.inside.Kept.{labels_of, Kept};

    ghost Value = { map.FinMap nat_cmp ℕ };

    ghost coded = { map.code coded_ℕ coded_ℕ };

    ghost view = { λ b. labels_of b.places b.clusters };

    ghost invariant = { λ b. Kept b.places b.clusters };
}

impl LabelBook {
    /// The empty book.
    pub fn new(alloc: Global) -> LabelBook
        ensures { result ≡ map.empty }
    {
        LabelBook {
            alloc,
            places: NumberMap::new(alloc),
            clusters: Slab::new(alloc),
        }
    }

    /// The label of a core; `None` exactly where the number has none.
    #[inline(always)]
    pub fn label_of(&self, core: Number) -> Option<Number>
        ensures value { result ≡ map.get self.now core }
        ensures least { HasLeast self.now }
    {
        match self.places.get(core) {
            Some(place) => match self.clusters.get(place.cluster) {
                Some(cluster) => Some(cluster.label),
                None => None,
            },
            None => None,
        }
    }

    /// The cores with this label, each once, in no promised order; `None` exactly where there are
    /// none.
    pub fn members(&self, label: Number) -> Option<&Numbers>
        ensures some { IsSome result ↔ (map.get self.now label ≡ Some label) }
        ensures exact { IfSome result (λ m. AreMembers self.now label m.now) }
        ensures none { result ≡ None → HasNoMember self.now label }
    {
        match self.places.get(label) {
            Some(place) => match self.clusters.get(place.cluster) {
                Some(cluster) => {
                    if cluster.label == label {
                        Some(&cluster.members)
                    } else {
                        None
                    }
                }
                None => None,
            },
            None => None,
        }
    }

    /// How many labels there are.
    pub fn clusters(&self) -> usize
        ensures { result ≡ cluster_count self.now }
    {
        self.clusters.len()
    }
}
