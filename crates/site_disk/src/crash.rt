//! What the calls of a site in memory make of its start.
ghost use Rattle.std.specs.Prelude.{◌≡◌, ◌≤◌, length, take, reverse, OnOk, IfOk};
ghost use Rattle.site_disk.specs.Replay.{replay};
ghost use Rattle.site_disk.specs.Picks.{half, after, after_half, halved, is_sync, IsSettled};

use crate::file_bytes::{are_bytes, copied, put_in};
use crate::mem_site::Call;
use std::alloc::{AllocError, Global};
use vec_record::Bytes;

/// Whether a call is a sync.
fn syncs(call: &Call) -> bool
    ensures { result ≡ is_sync call.now }
{
    matches!(call, Call::Sync)
}

/// How many calls there are up to the last sync, that one included.
pub(crate) fn last_sync(calls: &[Call]) -> usize
    ensures { IsSettled result calls.now }
{
    let mut settled = 0;
    for i in 0..calls.len() {
        if syncs(&calls[i]) {
            settled = i + 1;
        }
    }
    settled
}

/// Does one call to a file.
fn play(file: &mut Vec<u8>, call: &Call) -> Result<(), AllocError>
    ensures { OnOk result (file.new.items ≡ after call.now file.old.items) }
{
    match call {
        Call::Write(at, bytes) => {
            are_bytes(bytes.as_slice());
            put_in(file, *at, bytes.as_slice())
        }
        _ => Ok(()),
    }
}

/// The file after all of the calls.
pub(crate) fn played(alloc: Global, start: &[u8], calls: &[Call]) -> Result<Vec<u8>, AllocError>
    ensures { IfOk result (λ file. file.items ≡ (replay start.now (reverse calls.now)).content) }
{
    are_bytes(start);
    let mut file = start.to_vec(alloc)?;
    for i in 0..calls.len() {
        play(&mut file, &calls[i])?;
    }
    Ok(file)
}

/// The first half of the bytes, and 0xA5 in place of the rest.
fn half_of(alloc: Global, bytes: &[u8]) -> Result<Vec<u8>, AllocError>
    ensures { IfOk result (λ part. part.items ≡ half bytes.now) }
{
    let mut part = bytes[..bytes.len() / 2].to_vec(alloc)?;
    part.resize(bytes.len(), 0xA5)?;
    Ok(part)
}

/// Does one call to a file, and keeps its first half alone.
fn play_half(alloc: Global, file: &mut Vec<u8>, call: &Call) -> Result<(), AllocError>
    ensures { OnOk result (file.new.items ≡ after_half call.now file.old.items) }
{
    match call {
        Call::Write(at, bytes) => {
            are_bytes(bytes.as_slice());
            let part = half_of(alloc, bytes.as_slice())?;
            put_in(file, *at, &part)
        }
        _ => Ok(()),
    }
}

/// The image that keeps the first half of each write after the first `settled` calls, from what
/// those left.
pub(crate) fn halves(
    alloc: Global,
    start: &[u8],
    base: Vec<u8>,
    calls: &[Call],
    settled: usize,
) -> Result<Bytes, AllocError>
    requires settled { IsSettled settled calls.now }
    requires base { base.items ≡ (replay start.now (reverse (take settled calls.now))).content }
    ensures { IfOk result (λ image. image ≡ halved start.now (reverse calls.now)) }
{
    let mut file = base;
    for i in settled..calls.len() {
        play_half(alloc, &mut file, &calls[i])?;
    }
    copied(alloc, &file)
}
