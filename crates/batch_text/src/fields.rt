//! The fields of a vector, and the vector that they spell.

ghost use Rattle.std.specs.Prelude.{◌≡◌, ◌≤◌, ◌<◌, ◌+◌, drop, length, Some, IfOk, option_map};
ghost use Rattle.std.specs.Bool.{then_some};
ghost use Rattle.std.specs.List.{list_all};
ghost use Rattle.csv.specs.Records.{fields_of};
ghost use Rattle.batch_text.specs.Vectors.{bytes_of, is_bit, joined, packed, packed_byte, spelled};
ghost use Rattle.batch_text.specs.Vectors.{spelled_by, text_bit};

use crate::number::number_within;
use csv::ByteRecord;
use std::alloc::{AllocError, Global};
use vec_record::{MetricKind, Vector};

/// Whether each character is 0 or 1.
fn are_bits(field: &[u8]) -> bool
    ensures { result ≡ list_all is_bit field.now }
{
    field.iter().all(|byte| *byte == 48 || *byte == 49)
}

/// Appends what one field spells, and answers whether the field is in the grammar.
fn append_field(parts: &mut Vec<u8>, metric: MetricKind, field: &[u8]) -> Result<bool, AllocError>
    ensures { IfOk result (λ good. then_some good parts.new.items
        ≡ joined (Some parts.old.items) (spelled_by metric field.now)) }
{
    match metric {
        MetricKind::Hamming => {
            if field.is_empty() || !are_bits(field) {
                return Ok(false);
            }
            parts.extend_from_slice(field)?;
            Ok(true)
        }
        MetricKind::L1 | MetricKind::Max => match number_within(field, 0, 255) {
            None => Ok(false),
            Some(n) => {
                parts.push(n as u8)?;
                Ok(true)
            }
        },
    }
}

/// What the fields of an insertion's vector spell, joined. There is room for `dim` of it at first.
pub fn spell_vector(
    alloc: Global,
    metric: MetricKind,
    dim: u32,
    row: &ByteRecord,
) -> Result<Option<Vec<u8>>, AllocError>
    ensures { IfOk result (λ o. option_map (λ parts. parts.items) o
        ≡ spelled metric (drop 2 (fields_of row.now))) }
{
    let mut parts = Vec::with_capacity(alloc, dim as usize)?;
    let mut at = 2usize;
    'fields: while let Some(field) = row.get(at) {
        if !append_field(&mut parts, metric, field)? {
            return Ok(None);
        }
        at += 1;
    }
    Ok(Some(parts))
}

/// One bit of a text of characters 0 and 1.
fn text_bit(text: &[u8], j: usize) -> u8
    ensures value { result ≡ text_bit text.now j }
    ensures small { result ≤ 1 }
{
    match text.get(j) {
        Some(byte) => { if *byte == 49 { 1 } else { 0 } }
        None => 0,
    }
}

/// Eight bits of a text in one byte, the first of them at its greatest value.
fn packed_byte(text: &[u8], i: usize) -> u8
    requires { i < 256 }
    ensures { result ≡ packed_byte text.now i }
{
    let at = 8 * i;
    let high = 128 * text_bit(text, at)
        + 64 * text_bit(text, at + 1)
        + 32 * text_bit(text, at + 2)
        + 16 * text_bit(text, at + 3);
    let low = 8 * text_bit(text, at + 4)
        + 4 * text_bit(text, at + 5)
        + 2 * text_bit(text, at + 6)
        + text_bit(text, at + 7);
    high + low
}

/// The bits of a text in bytes.
fn pack(alloc: Global, text: &[u8]) -> Result<Vec<u8>, AllocError>
    requires { length text.now ≤ 2048 }
    ensures { IfOk result (λ bytes. bytes.items ≡ packed text.now) }
{
    let width = text.len().div_ceil(8);
    let mut bytes = Vec::with_capacity(alloc, width)?;
    for i in 0..width {
        bytes.push(packed_byte(text, i))?;
    }
    Ok(bytes)
}

/// The vector that was spelled.
pub fn make_vector(alloc: Global, metric: MetricKind, parts: &[u8]) -> Result<Vector, AllocError>
    requires { length parts.now ≤ 2048 }
    ensures { IfOk result (λ v. v ≡ bytes_of metric parts.now) }
{
    match metric {
        MetricKind::Hamming => {
            let bytes = pack(alloc, parts)?;
            Vector::from_slice(alloc, &bytes)
        }
        MetricKind::L1 | MetricKind::Max => Vector::from_slice(alloc, parts),
    }
}
