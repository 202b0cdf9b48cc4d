//! What becomes of a batch, before anything is changed.
ghost use Rattle.std.specs.Prelude.{◌≡◌, ◌≢◌, ◌≤◌, ◌<◌, true, Ok, Err, length, IsOk, IfOk, IfErr};
ghost use Rattle.std.specs.Prelude.{OnOk};
ghost use Rattle.std.specs.List.{AllByRecursion};
ghost use Rattle.vec_record.specs.Limits.{width_of};
ghost use Rattle.page_layout.specs.Heads.{values_of};
ghost use Rattle.batch_text.specs.After.{after};
ghost use Rattle.batch_text.specs.Batch.{IsChangeOf, IsSpelledChange};
ghost use Rattle.warehouse_core.specs.declared.refusal.Refusal.TheVariants.{SiteFault};
ghost use Rattle.warehouse_core.specs.Batches.{judged, outcome};
ghost use Rattle.warehouse_core.specs.Applying.{is_numbered};

use crate::refusal::Refusal;
use batch_text::{ReadBatch, check_batch, read_batch};
use std::alloc::Global;
use vec_record::{Changes, Params, Records};

/// The most records of a batch.
const MOST_RECORDS: u32 = 100_000;

/// The changes of a batch that was read, or the refusal of its first faulty record.
fn judge_records(
    alloc: Global,
    params: &Params,
    records: &Records,
    batch: ReadBatch,
) -> Result<Changes, Refusal>
    requires { length batch.changes ≤ 100_000 }
    ensures ok { IfOk result (λ changes. judged (values_of params.now) records.now.vectors batch
        ≡ Ok changes) }
    ensures changes { IfOk result (λ changes. changes ≡ batch.changes) }
    ensures accepted { IfOk result
        (λ changes. IsOk (after params.now.cap records.now.vectors changes)) }
    ensures err { IfErr result
        (λ e. is_numbered e ≡ true → judged (values_of params.now) records.now.vectors batch
        ≡ Err e) }
    ensures site { IfErr result (λ e. e ≢ SiteFault) }
{
    check_batch(alloc, records, params, &batch.changes)?;
    match batch.fault {
        None => Ok(batch.changes),
        Some(fault) => Err(Refusal::at(batch.changes.len() as u32 + 1, fault)),
    }
}

/// The changes of a batch that is accepted, or why it is refused.
pub(crate) fn judge(
    alloc: Global,
    params: &Params,
    batches: u32,
    records: &Records,
    body: &[u8],
) -> Result<Changes, Refusal>
    requires { length body.now ≤ 67_108_864 }
    ensures ok { IfOk result (λ changes. outcome (values_of params.now) batches records.now.vectors
        body.now ≡ Ok changes) }
    ensures fits { IfOk result
        (λ changes. AllByRecursion (IsChangeOf (width_of params.now.metric params.now.dim))
        changes) }
    ensures spelled { IfOk result
        (λ changes. AllByRecursion (IsSpelledChange params.now.metric params.now.dim) changes) }
    ensures accepted { IfOk result
        (λ changes. IsOk (after params.now.cap records.now.vectors changes)) }
    ensures batches { OnOk result (batches < 4294967295) }
    ensures err { IfErr result
        (λ e. is_numbered e ≡ true
        → outcome (values_of params.now) batches records.now.vectors body.now ≡ Err e) }
    ensures site { IfErr result (λ e. e ≢ SiteFault) }
{
    let batch = read_batch(alloc, body, params)?;
    if batch.total > MOST_RECORDS {
        return Err(Refusal::TooManyRecords);
    }
    if batches == u32::MAX {
        return Err(Refusal::BatchesUsedUp);
    }
    judge_records(alloc, params, records, batch)
}
