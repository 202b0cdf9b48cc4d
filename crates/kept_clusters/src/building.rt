//! Clusters of records that are there already.

ghost use Rattle.std.specs.Prelude.{◌≡◌, ◌<◌, ◌≤◌, None, IsSome, IfOk, OnOk};
ghost use Rattle.std.specs.FinMap as map;
ghost use Rattle.delete_case.specs.Deleted.{without};
ghost use Rattle.kept_clusters.specs.Kept.{Stand, HasItsSetting};
ghost use Rattle.kept_clusters.specs.inside.Moving.{IsTakenOver};

use crate::clusters::Clusters;
use std::alloc::{AllocError, Global};
use std::sync::ledger::Ledger;
use vec_record::{Events, Metric, Number, Records, Steps};

/// Records, and the clusters of them.
#[derive(Drop)]
pub struct Built<M: Metric> {
    pub records: Records,
    pub clusters: Clusters<M>,
}

/// The clusters of records, made by adding one after the other by rising number. The records are
/// given back; no vector is copied.
pub fn build<M: Metric, L: Ledger>(
    alloc: Global,
    mut records: Records,
    eps: u32,
    minpts: u32,
    steps: &mut Steps<L>,
) -> Result<Built<M>, AllocError>
    requires { map.len records.vectors ≤ 200000 }
    ensures records { IfOk result (λ b. b.records ≡ records) }
    ensures eps { IfOk result (λ b. b.clusters.eps ≡ eps) }
    ensures minpts { IfOk result (λ b. b.clusters.counts.minpts ≡ minpts) }
    ensures stands { IfOk result (λ b. Stand M.dist b.records b.clusters) }
{
    let width = records.width();
    let numbers = records.numbers()?.into_vec();
    let mut built = Built {
        records: Records::new(alloc, width),
        clusters: Clusters::new(alloc, width, eps, minpts),
    };
    for number in &numbers {
        built.take_over(alloc, &mut records, *number, steps)?;
    }
    Ok(built)
}

impl<M: Metric> Built<M> {
    // Takes a record over from others, if it is there.
    fn take_over<L: Ledger>(
        &mut self,
        alloc: Global,
        others: &mut Records,
        number: Number,
        steps: &mut Steps<L>,
    ) -> Result<(), AllocError>
        requires stands { Stand M.dist self.old.records self.old.clusters }
        requires width { others.old.width ≡ self.old.records.width }
        requires apart { IsSome (map.get others.old.vectors number)
            → map.get self.old.records.vectors number ≡ None }
        requires room { map.len self.old.records.vectors < 200000 }
        ensures others { others.new ≡ without others.old number }
        ensures own { OnOk result (IsTakenOver number others.old self.old.records
            self.new.records) }
        ensures setting { OnOk result (HasItsSetting self.old.clusters self.new.clusters) }
        ensures stands { OnOk result (Stand M.dist self.new.records self.new.clusters) }
    {
        let _ = others.width();
        let Some(vector) = others.remove(number) else {
            return Ok(());
        };
        let mut told = Events::new(alloc);
        self.clusters
            .insert(&mut self.records, number, vector, &mut told, steps)
    }
}
