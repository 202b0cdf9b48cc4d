//! The input of `once`: the records of one batch over none, or its refusal.

ghost use Rattle.std.specs.Prelude.{◌≡◌, ◌<◌, ◌≤◌, ◌+◌, ◌^◌, [], ℕ, length, IfOk, IsOk, OnOk, Ok};
ghost use Rattle.std.specs.Prelude.{Err};
ghost use Rattle.std.specs.FinMap as map;
ghost use Rattle.std.specs.List.{AllByRecursion};
ghost use Rattle.vec_record.specs.Limits.{width_of};
ghost use Rattle.batch_text.specs.After.{after};
ghost use Rattle.batch_text.specs.Batch.{IsChangeOf, said_by};
ghost use Rattle.batch_text.specs.Records.{records_of};
ghost use Rattle.session_desk.specs.Input.{has_long_line as is_any_long, unless_refused};
ghost use Rattle.session_desk.specs.Input.{unless_faulty, rows_after, rows_of};
ghost use Rattle.session_desk.specs.declared.input.Refusal.{Refusal as Refusals};

use crate::reading::INPUT_LIMIT;
use batch_text::{CheckFault, LineFault, ReadBatch, apply_all, check_batch, read_batch};
use std::alloc::{AllocError, Global};
use vec_record::{Changes, Params, Records};

/// The most bytes of a line.
const LINE_LIMIT: usize = 4096;

/// The most records of an input.
const RECORD_LIMIT: u32 = 100_000;

/// Why an input is refused. Places of records count from 1.
#[derive(Clone, Copy, Debug, PartialEq, Eq)]
pub enum Refusal {
    LongLine,
    TooManyRecords,
    Malformed(u32),
    WrongLength(u32),
    Repeated(u32),
    Unknown(u32),
    Full(u32),
}

impl Refusal {
    ghost use Rattle.std.specs.Prelude.{◌≡◌};
    ghost use Rattle.session_desk.specs.Answers.{refusal_number, refusal_place};

    /// The number that the refusal is said with.
    pub fn number(self) -> u32
        ensures { result ≡ refusal_number self }
    {
        match self {
            Refusal::LongLine => 18,
            Refusal::TooManyRecords => 16,
            Refusal::Malformed(_) => 11,
            Refusal::WrongLength(_) => 12,
            Refusal::Repeated(_) => 13,
            Refusal::Unknown(_) => 14,
            Refusal::Full(_) => 15,
        }
    }

    /// The place of the record that is refused.
    pub fn place(self) -> Option<u32>
        ensures { result ≡ refusal_place self }
    {
        match self {
            Refusal::LongLine | Refusal::TooManyRecords => None,
            Refusal::Malformed(place)
            | Refusal::WrongLength(place)
            | Refusal::Repeated(place)
            | Refusal::Unknown(place)
            | Refusal::Full(place) => Some(place),
        }
    }
}

/// Why an input gave no records.
#[derive(Clone, Copy, Debug, PartialEq, Eq)]
pub enum InputFault {
    Refused(Refusal),
    Memory,
}

/// Whether a line has too many bytes, a carriage return at its end counted.
fn has_long_line(input: &[u8]) -> bool
    ensures { result ≡ is_any_long input.now }
{
    input
        .split(|b| *b == b'\n')
        .any(|line| line.len() > LINE_LIMIT)
}

/// Checks that changes apply over no records.
fn check(
    alloc: Global,
    records: &Records,
    params: &Params,
    changes: &Changes,
) -> Result<(), InputFault>
    requires few { length changes.now < 2 ^ 32 }
    ensures ok { OnOk result (IsOk (after params.now.cap records.now.vectors changes.now)) }
    ensures refused { (r : Refusals) → result ≡ Err (InputFault.Refused r) → (next : _)
        → unless_refused (after params.now.cap records.now.vectors changes.now) next ≡ Err r }
{
    match check_batch(alloc, records, params, changes) {
        Ok(()) => Ok(()),
        Err(CheckFault::Repeated { place }) => Err(InputFault::Refused(Refusal::Repeated(place))),
        Err(CheckFault::Unknown { place }) => Err(InputFault::Refused(Refusal::Unknown(place))),
        Err(CheckFault::Full { place }) => Err(InputFault::Refused(Refusal::Full(place))),
        Err(CheckFault::Memory) => Err(InputFault::Memory),
    }
}

/// The refusal of a faulty record at a place.
fn refusal_at(fault: LineFault, place: u32) -> Refusal
    ensures { (rows : _) → unless_faulty place rows (Some fault) ≡ Err result }
{
    match fault {
        LineFault::Malformed => Refusal::Malformed(place),
        LineFault::WrongLength => Refusal::WrongLength(place),
    }
}

/// The records after a batch over none.
fn records_after(alloc: Global, params: &Params, batch: ReadBatch) -> Result<Records, InputFault>
    requires cap { params.now.cap ≡ 200000 }
    requires few { length batch.changes ≤ 100000 }
    requires fits { AllByRecursion (IsChangeOf (width_of params.now.metric params.now.dim))
        batch.changes }
    ensures ok { IfOk result (λ records. rows_after batch ≡ Ok records.vectors) }
    ensures refused { (r : Refusals) → result ≡ Err (InputFault.Refused r) → rows_after batch
        ≡ Err r }
{
    let mut records = Records::new(alloc, params.width());
    check(alloc, &records, params, &batch.changes)?;
    if let Some(fault) = batch.fault {
        let place = batch.changes.len() as u32 + 1;
        return Err(InputFault::Refused(refusal_at(fault, place)));
    }
    match apply_all(&mut records, params, batch.changes) {
        Ok(()) => Ok(records),
        Err(_) => Err(InputFault::Memory),
    }
}

/// The records of an input, which is read as the body of one batch over no records.
pub fn read_records(alloc: Global, params: &Params, input: &[u8]) -> Result<Records, InputFault>
    requires cap { params.now.cap ≡ 200000 }
    requires few { length input.now ≤ INPUT_LIMIT }
    ensures ok { IfOk result (λ records. rows_of params.now.metric params.now.dim input.now
        ≡ Ok records.vectors) }
    ensures refused { (r : Refusals) → result ≡ Err (InputFault.Refused r)
        → rows_of params.now.metric params.now.dim input.now ≡ Err r }
{
    if has_long_line(input) {
        return Err(InputFault::Refused(Refusal::LongLine));
    }
    let Ok(batch) = read_batch(alloc, input, params) else {
        return Err(InputFault::Memory);
    };
    if batch.total > RECORD_LIMIT {
        return Err(InputFault::Refused(Refusal::TooManyRecords));
    }
    records_after(alloc, params, batch)
}
