//! The bytes of a file in memory.
ghost use Rattle.std.specs.Prelude.{◌≡◌, ◌≤◌, ◌<◌, ◌+◌, ◌-◌, ◌++◌, ℕ, length, take, drop, get_or};
ghost use Rattle.std.specs.Prelude.{OnOk, OnErr, IfOk};
ghost use Rattle.vec_record.specs.Vectors.{AreBytes};
ghost use Rattle.site_disk.specs.Disk.{put, zeros};

use std::alloc::{AllocError, Global};
use vec_record::Bytes;

/// What a slice of bytes holds are bytes.
pub(crate) fn are_bytes(bytes: &[u8])
    ensures { AreBytes bytes.now }
{}

/// A list of bytes of its own.
pub(crate) fn copied(alloc: Global, bytes: &[u8]) -> Result<Bytes, AllocError>
    ensures { IfOk result (λ copy. copy ≡ bytes.now) }
{
    let mut copy = Bytes::new(alloc);
    copy.append(bytes)?;
    Ok(copy)
}

/// Lays bytes over what stands at an offset.
fn lay_over(file: &mut [u8], at: usize, bytes: &[u8])
    requires { at + length bytes.now ≤ length file.old }
    ensures { file.new ≡ take at file.old ++ (bytes.now ++ drop (at + length bytes.now) file.old) }
{
    file[at..at + bytes.len()].copy_from_slice(bytes);
}

/// Makes a file at least this long, with zeros at its end.
fn widen(file: &mut Vec<u8>, end: usize) -> Result<(), AllocError>
    ensures ok { OnOk result (file.new.items
        ≡ file.old.items ++ zeros (end - length file.old.items)) }
    ensures err { OnErr result (file.new.items ≡ file.old.items) }
{
    if file.len() < end {
        file.resize(end, 0)?;
    }
    Ok(())
}

/// Writes into a file, with zeros in a gap. It takes its memory first.
pub(crate) fn put_in(file: &mut Vec<u8>, at: u64, bytes: &[u8]) -> Result<(), AllocError>
    ensures ok { OnOk result (file.new.items ≡ put at bytes.now file.old.items) }
    ensures err { OnErr result (file.new.items ≡ file.old.items) }
{
    if bytes.is_empty() {
        return Ok(());
    }
    let at = at as usize;
    let Some(end) = at.checked_add(bytes.len()) else {
        return Err(AllocError);
    };
    widen(file, end)?;
    lay_over(file, at, bytes);
    Ok(())
}

/// Fills a piece; zeros stand past the end.
pub(crate) fn fill(content: &[u8], at: u64, into: &mut [u8])
    ensures { (i : ℕ) → i < length into.new → get_or into.new i 0 ≡ get_or content.now (at + i) 0 }
{
    let at = at as usize;
    for i in 0..into.len() {
        into[i] = match at.checked_add(i) {
            Some(place) if place < content.len() => content[place],
            _ => 0,
        };
    }
}
