//! The records of a body, one by one, as the `csv` reader gives them.

ghost use Rattle.std.specs.Prelude.{◌≡◌, ℕ, List, true, IfErr, IfOk};
ghost use Rattle.csv.specs.Records.{fields_of};
ghost use Rattle.csv.specs.Reading.{error_kind, stops_reader};
ghost use Rattle.batch_text.specs.Records.{records_of};
ghost use Rattle.batch_text.specs.Reading.{Gives, HasLeft};

use csv::{ByteRecord, Error, Reader, ReaderBuilder};
use std::alloc::{AllocError, Global};

/// A reader of the records of a body.
pub fn open_rows(alloc: Global, body: &[u8]) -> Reader<&[u8]>
    ensures { HasLeft result (records_of body.now) }
{
    ReaderBuilder::new()
        .has_headers(false)
        .flexible(true)
        .from_reader(alloc, body)
}

/// The read itself. It fails only for the reader underneath or for memory, never for a record's
/// length.
fn read_row(rdr: &mut Reader<&[u8]>, row: &mut ByteRecord) -> Result<bool, Error>
    ensures gives { IfOk result
        (λ found. (rows : List (List (List ℕ))) → HasLeft rdr.old rows
        → Gives found rows (fields_of row.new) rdr.new) }
    ensures fails { IfErr result
        (λ e. (rows : List (List (List ℕ))) → HasLeft rdr.old rows → stops_reader (error_kind e)
        ≡ true) }
{
    let found = match rdr.read_byte_record(row) {
        Ok(found) => found,
        Err(e) => return Err(e),
    };
    Ok(found)
}

/// The next record into `row`, and whether there was one. The bytes are in memory, so a failure is
/// want of memory.
pub fn next_row(rdr: &mut Reader<&[u8]>, row: &mut ByteRecord) -> Result<bool, AllocError>
    ensures { IfOk result (λ found. (rows : List (List (List ℕ))) → HasLeft rdr.old rows
        → Gives found rows (fields_of row.new) rdr.new) }
{
    match read_row(rdr, row) {
        Ok(found) => Ok(found),
        Err(_) => Err(AllocError),
    }
}
