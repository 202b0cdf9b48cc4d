//! The batch that a body of text says.

ghost use Rattle.std.specs.Prelude.{◌≡◌, ◌≤◌, ◌<◌, ◌+◌, [], ◌∷◌, ◌++◌, ℕ, List, length, min, OnOk};
ghost use Rattle.std.specs.Prelude.{IfOk};
ghost use Rattle.std.specs.List.{AllByRecursion};
ghost use Rattle.csv.specs.Records.{fields_of};
ghost use Rattle.vec_record.specs.Limits.{width_of};
ghost use Rattle.batch_text.specs.Records.{records_of};
ghost use Rattle.batch_text.specs.Batch.{IsChangeOf, IsSpelledChange, batch_of, said_by};
ghost use Rattle.batch_text.specs.Reading.{Holds};

use crate::faults::LineFault;
use crate::record::change_of;
use crate::rows::{next_row, open_rows};
use csv::ByteRecord;
use std::alloc::{AllocError, Global};
use vec_record::{Changes, Params};

/// How many records are read at most: one more than a batch may have.
const MOST_READ: u32 = 100_001;

/// What a body says as a batch.
#[derive(Drop)]
pub struct ReadBatch {
    /// The changes before the first faulty record.
    pub changes: Changes,
    /// The fault of that record, whose place is the number of changes plus 1.
    pub fault: Option<LineFault>,
    /// The number of all records, or 100,001 where there are more.
    pub total: u32,
}

/// Takes one more record into a batch. After a fault it is only counted.
fn take_row(
    alloc: Global,
    params: &Params,
    batch: &mut ReadBatch,
    row: &ByteRecord,
) -> Result<(), AllocError>
    requires { batch.old.total < MOST_READ }
    ensures { OnOk result ((done : List (List (List ℕ)))
        → Holds params.now.metric params.now.dim done batch.old
        → Holds params.now.metric params.now.dim (done ++ fields_of row.now ∷ []) batch.new) }
{
    batch.total += 1;
    if batch.fault.is_none() {
        match change_of(alloc, params, row)? {
            Ok(change) => batch.changes.push(change)?,
            Err(fault) => batch.fault = Some(fault),
        }
    }
    Ok(())
}

/// Reads what the first 100,001 records of a body say.
fn read_rows(alloc: Global, body: &[u8], params: &Params) -> Result<ReadBatch, AllocError>
    ensures { IfOk result (λ b. b ≡ batch_of params.now.metric params.now.dim body.now) }
{
    let mut rdr = open_rows(alloc, body);
    let mut row = ByteRecord::new(alloc);
    let mut batch = ReadBatch {
        changes: Changes::new(alloc),
        fault: None,
        total: 0,
    };
    'rows: while batch.total < MOST_READ {
        if !next_row(&mut rdr, &mut row)? {
            return Ok(batch);
        }
        take_row(alloc, params, &mut batch, &row)?;
    }
    Ok(batch)
}

/// Reads a body of at most 67,108,864 bytes of CSV text: the changes before the first faulty
/// record, that record's fault, and the number of all records, or 100,001 where there are more.
///
/// A record is `+,NUMBER,v1,v2` and so on, or `-,NUMBER`, as the crate `csv` reads it with no
/// header and unequal lengths allowed. The grammar is this project's own.
pub fn read_batch(alloc: Global, body: &[u8], params: &Params) -> Result<ReadBatch, AllocError>
    requires { length body.now ≤ 67_108_864 }
    ensures is { IfOk result (λ b. b ≡ batch_of params.now.metric params.now.dim body.now) }
    ensures total { IfOk result (λ b. b.total ≡ min (length (records_of body.now)) 100_001) }
    ensures whole { IfOk result
        (λ b. b.total ≤ 100_000 → b
        ≡ said_by params.now.metric params.now.dim (records_of body.now)) }
    ensures fits { IfOk result
        (λ b. AllByRecursion (IsChangeOf (width_of params.now.metric params.now.dim)) b.changes) }
    ensures spelled { IfOk result
        (λ b. AllByRecursion (IsSpelledChange params.now.metric params.now.dim) b.changes) }
    ensures places { IfOk result (λ b. length b.changes ≤ b.total) }
{
    read_rows(alloc, body, params)
}
