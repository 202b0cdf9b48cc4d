//! Changes that are accepted, applied one by one to records and clusters, each with its events.
ghost use Rattle.std.specs.Prelude.{◌≡◌, ◌≤◌, ◌+◌, ◌++◌, IsOk, IfOk, OnOk};
ghost use Rattle.std.specs.List.{AllByRecursion};
ghost use Rattle.vec_record.specs.Limits.{width_of};
ghost use Rattle.plain_dbscan.specs.Marks.{density};
ghost use Rattle.plain_dbscan.specs.Cases.{cases_of};
ghost use Rattle.page_layout.specs.Heads.{values_of};
ghost use Rattle.batch_text.specs.After.{after};
ghost use Rattle.batch_text.specs.Batch.{IsChangeOf, IsSpelledChange};
ghost use Rattle.warehouse_core.specs.Batches.{density_by, events_of, marks_on, rows_after};
ghost use Rattle.warehouse_core.specs.Costs.{tree_after, tree_after_all};
ghost use Rattle.warehouse_core.specs.Work.{held_after};
ghost use Rattle.warehouse_core.specs.Costs.{IsPaid, ArePaid};
ghost use Rattle.warehouse_core.specs.Work.{work_of, work_of_all};
ghost use Rattle.store_image.specs.Placing.{IsKept};
ghost use Rattle.warehouse_core.specs.States.{StandBy};
ghost use Rattle.warehouse_core.specs.Inside.{AreHeld, CanHold, CanFollow};

use kept_clusters::Clusters;
use std::alloc::{AllocError, Global};
use std::sync::ledger::Ledger;
use vec_record::{Change, Changes, Events, Metric, Params, Records, Steps};

/// Applies one change to the records and to the clusters, and appends the events. What it may cost
/// it costs after want of memory too.
fn apply_one<M: Metric, L: Ledger>(
    params: &Params,
    records: &mut Records,
    clusters: &mut Clusters<M>,
    events: &mut Events,
    change: Change,
    steps: &mut Steps<L>,
) -> Result<(), AllocError>
    requires kind { params.now.metric ≡ M.KIND }
    requires held { AreHeld (values_of params.now) records.old }
    requires kept { IsKept (values_of params.now) records.old clusters.old }
    requires fits { IsChangeOf (width_of params.now.metric params.now.dim) change }
    requires spelled { IsSpelledChange params.now.metric params.now.dim change }
    requires can { CanFollow params.now.cap records.old.vectors change }
    ensures records { OnOk result (records.new ≡ held_after records.old change) }
    ensures held { OnOk result (AreHeld (values_of params.now) records.new) }
    ensures kept { OnOk result (IsKept (values_of params.now) records.new clusters.new) }
    ensures clusters { StandBy M.dist (values_of params.now) records.old clusters.old
        → OnOk result (StandBy M.dist (values_of params.now) records.new clusters.new) }
    ensures tree { OnOk result (clusters.new.tree
        ≡ tree_after M.dist M.most records.old change clusters.old.tree) }
    ensures events { StandBy M.dist (values_of params.now) records.old clusters.old
        → OnOk result (events.new ≡ events.old
        ++ cases_of (marks_on (values_of params.now) records.old.vectors)
        (marks_on (values_of params.now) records.new.vectors)) }
    ensures price { StandBy M.dist (values_of params.now) records.old clusters.old
        → IsPaid M.most (density M.dist params.now.eps params.now.minpts)
        clusters.old.tree records.old change steps.old steps.new }
    ensures work { StandBy M.dist (values_of params.now) records.old clusters.old
        → steps.new ≤ steps.old
        + work_of (density_by (values_of params.now)) records.old change }
{
    match change {
        Change::Insert(number, vector) => clusters.insert(records, number, vector, events, steps),
        Change::Delete(number) => clusters.delete(records, number, events, steps),
    }
}

/// Applies the changes of an accepted batch in their order, and gives their events. What they may
/// cost they cost after want of memory too.
pub(crate) fn apply_changes<M: Metric, L: Ledger>(
    alloc: Global,
    params: &Params,
    records: &mut Records,
    clusters: &mut Clusters<M>,
    changes: Changes,
    steps: &mut Steps<L>,
) -> Result<Events, AllocError>
    requires kind { params.now.metric ≡ M.KIND }
    requires holds { CanHold (values_of params.now) records.old }
    requires kept { IsKept (values_of params.now) records.old clusters.old }
    requires fits { AllByRecursion (IsChangeOf (width_of params.now.metric params.now.dim))
        changes }
    requires spelled { AllByRecursion (IsSpelledChange params.now.metric params.now.dim) changes }
    requires accepted { IsOk (after params.now.cap records.old.vectors changes) }
    ensures records { OnOk result
        (records.new.vectors ≡ rows_after (values_of params.now) records.old.vectors changes) }
    ensures holds { OnOk result (CanHold (values_of params.now) records.new) }
    ensures kept { OnOk result (IsKept (values_of params.now) records.new clusters.new) }
    ensures clusters { StandBy M.dist (values_of params.now) records.old clusters.old
        → OnOk result (StandBy M.dist (values_of params.now) records.new clusters.new) }
    ensures tree { OnOk result (clusters.new.tree
        ≡ tree_after_all M.dist M.most records.old changes clusters.old.tree) }
    ensures events { StandBy M.dist (values_of params.now) records.old clusters.old
        → IfOk result
        (λ events. events ≡ events_of (values_of params.now) records.old.vectors changes) }
    ensures price { StandBy M.dist (values_of params.now) records.old clusters.old
        → ArePaid M.most (density M.dist params.now.eps params.now.minpts)
        clusters.old.tree records.old changes steps.old steps.new }
    ensures work { StandBy M.dist (values_of params.now) records.old clusters.old
        → steps.new ≤ steps.old
        + work_of_all (density_by (values_of params.now)) records.old changes }
{
    let mut events = Events::new(alloc);
    for change in changes.into_vec() {
        apply_one::<M, L>(params, records, clusters, &mut events, change, steps)?;
    }
    Ok(events)
}
