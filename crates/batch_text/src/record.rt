//! The change that one record of a body says.

ghost use Rattle.std.specs.Prelude.{◌≡◌, ◌≤◌, ◌<◌, ◌+◌, drop, Some, IfOk};
ghost use Rattle.csv.specs.Records.{fields_of};
ghost use Rattle.batch_text.specs.Vectors.{spelled};
ghost use Rattle.batch_text.specs.Grammar.{change_of, insertion, signed_change};

use crate::faults::LineFault;
use crate::fields::{make_vector, spell_vector};
use crate::number::number_within;
use csv::ByteRecord;
use std::alloc::{AllocError, Global};
use vec_record::{Change, Number, Params};

/// The insertion that the fields of a vector make.
fn insertion(
    alloc: Global,
    params: &Params,
    number: Number,
    row: &ByteRecord,
) -> Result<Result<Change, LineFault>, AllocError>
    ensures { IfOk result (λ r. r
        ≡ insertion params.now.metric params.now.dim number
        (spelled params.now.metric (drop 2 (fields_of row.now)))) }
{
    let parts = match spell_vector(alloc, params.metric, params.dim, row)? {
        Some(parts) => parts,
        None => return Ok(Err(LineFault::Malformed)),
    };
    if parts.len() == params.dim as usize {
        let vector = make_vector(alloc, params.metric, &parts)?;
        Ok(Ok(Change::Insert(number, vector)))
    } else {
        Ok(Err(LineFault::WrongLength))
    }
}

/// What a record says that begins with a sign and a number.
fn by_sign(
    alloc: Global,
    params: &Params,
    sign: &[u8],
    number: Number,
    row: &ByteRecord,
) -> Result<Result<Change, LineFault>, AllocError>
    ensures { IfOk result (λ r. r
        ≡ signed_change params.now.metric params.now.dim sign.now (Some number)
        (drop 2 (fields_of row.now))) }
{
    if sign == b"+".as_slice() {
        insertion(alloc, params, number, row)
    } else if sign == b"-".as_slice() {
        match row.get(2) {
            None => Ok(Ok(Change::Delete(number))),
            Some(_) => Ok(Err(LineFault::Malformed)),
        }
    } else {
        Ok(Err(LineFault::Malformed))
    }
}

/// The change that a record is, or its fault.
pub fn change_of(
    alloc: Global,
    params: &Params,
    row: &ByteRecord,
) -> Result<Result<Change, LineFault>, AllocError>
    ensures { IfOk result (λ r. r
        ≡ change_of params.now.metric params.now.dim (fields_of row.now)) }
{
    let sign = match row.get(0) {
        Some(sign) => sign,
        None => return Ok(Err(LineFault::Malformed)),
    };
    let number = match row.get(1) {
        Some(number) => number,
        None => return Ok(Err(LineFault::Malformed)),
    };
    match number_within(number, 1, 4_294_967_295) {
        Some(number) => by_sign(alloc, params, sign, number, row),
        None => Ok(Err(LineFault::Malformed)),
    }
}
