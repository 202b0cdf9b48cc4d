//! A site in memory, which replays its calls and fails or stops where it is told to.

ghost use Rattle.std.specs.Prelude.{List, ◌≡◌, ◌≤◌, ◌<◌, ◌+◌, ◌-◌, ◌^◌, [], ◌∷◌, ◌++◌, ℕ, length};
ghost use Rattle.std.specs.Prelude.{take, drop, reverse, get_or, true, vec_len, vec_capacity, OnOk};
ghost use Rattle.std.specs.Prelude.{OnErr, IfOk, IsErr};
ghost use Rattle.vec_record.specs.Vectors.{AreBytes};
ghost use Rattle.site_disk.specs.Causes.{HasCause};
ghost use Rattle.site_disk.specs.Counts.{rise};
ghost use Rattle.site_disk.specs.Disk.{put, zeros};
ghost use Rattle.site_disk.specs.Calls.{Stays, Writes, Syncs, Speaks, Reads};
ghost use Rattle.site_disk.specs.Replay.{replay};
ghost use Rattle.site_disk.specs.Picks.{halved, cut};
ghost use Rattle.site_disk.specs.Memory.{told, Looks, Keeps, held};
ghost use Rattle.site_disk.specs.Clock.{told_is_now};

use crate::counts::begin;
use crate::crash::{halves, last_sync, played};
use crate::file_bytes::{are_bytes, copied, fill, put_in};
use crate::site::Site;
use crate::source::Failed;
use std::alloc::{AllocError, Global};
use std::marker::Model;
use vec_record::{Bytes, Numbers};

/// A call that succeeded and that the moments speak of.
#[derive(Drop)]
pub enum Call {
    Write(u64, Bytes),
    Say(Bytes),
    Sync,
}

/// A site in memory. It keeps its list of calls, fails where it is told to, and tells all.
#[derive(Drop)]
pub struct MemSite {
    alloc: Global,
    start: Bytes,
    /// The content from the first write on; until then it is the start.
    written: Option<Vec<u8>>,
    said: Vec<u8>,
    calls: Vec<Call>,
    fail: Numbers,
    stop: Option<u32>,
    made: u64,
    faults: u64,
    wants: u64,
}

impl Model for MemSite {
    ghost use Rattle.std.specs.Prelude.{reverse};
    ghost use Rattle.site_disk.specs.Memory.{Memory, IsReplayed, held};

    ghost Value = { Memory };

    ghost view = { λ m. record {
      start = m.start;
      events = reverse m.calls.items;
      fail = m.fail;
      stop = m.stop;
      made =
          m.made;
      faults = m.faults;
      wants = m.wants;
    } };

    ghost invariant = { λ m. IsReplayed m.start (reverse m.calls.items) (held m.start m.written)
        m.said.items };
}

impl MemSite {
    /// A site with this content as its only image. It fails at the calls of these numbers, the
    /// first being 1, and at each call after the stop.
    pub fn new(content: Bytes, fail: Numbers, stop: Option<u32>) -> MemSite
        ensures start { result.start ≡ content }
        ensures events { result.events ≡ [] }
        ensures fail { result.fail ≡ fail }
        ensures stop { result.stop ≡ stop }
        ensures made { result.made ≡ 0 }
        ensures faults { result.faults ≡ 0 }
        ensures wants { result.wants ≡ 0 }
        ensures content { (told result).content ≡ content }
        ensures only { (image : List ℕ) → (told result).may_leave image → image
            ≡ (told result).content }
        ensures said { (told result).said ≡ [] }
    {
        let alloc = content.allocator();
        are_bytes(content.as_slice());
        MemSite {
            alloc,
            start: content,
            written: None,
            said: Vec::new(alloc),
            calls: Vec::new(alloc),
            fail,
            stop,
            made: 0,
            faults: 0,
            wants: 0,
        }
    }

    /// What a read gives now.
    pub fn content(&self) -> &[u8]
        ensures { result.now ≡ (told self.now).content }
    {
        held_bytes(self.start.as_slice(), &self.written)
    }

    /// The bytes said.
    pub fn said(&self) -> &[u8]
        ensures { result.now ≡ (told self.now).said }
    {
        &self.said
    }

    /// One image that a crash now may leave. Pick 0 keeps no write since the last sync, pick 1
    /// keeps all, pick 2 keeps the first half of each written range and holds 0xA5 in the rest,
    /// and every other pick keeps all but cuts the file at its length of the last sync.
    pub fn crash_image(&self, pick: u8) -> Result<Bytes, AllocError>
        ensures image { IfOk result (λ image. (told self.now).may_leave image) }
        ensures none { pick ≡ 0
            → IfOk result (λ image. image ≡ (replay self.now.start self.now.events).base) }
        ensures all { pick ≡ 1 → IfOk result (λ image. image ≡ (told self.now).content) }
        ensures halves { pick ≡ 2
            → IfOk result (λ image. image ≡ halved self.now.start self.now.events) }
        ensures cut { 3 ≤ pick → IfOk result (λ image. image ≡ cut self.now.start self.now.events) }
    {
        let content = held_bytes(self.start.as_slice(), &self.written);
        picked(
            self.alloc,
            self.start.as_slice(),
            content,
            &self.calls,
            pick,
        )
    }

    /// How many calls have failed.
    pub fn faults(&self) -> u64
        ensures { result ≡ self.now.faults }
    {
        self.faults
    }

    /// How many calls have failed for want of memory.
    pub fn wants(&self) -> u64
        ensures { result ≡ self.now.wants }
    {
        self.wants
    }
}

/// The bytes that a site holds, before and after its first write.
fn held_bytes<'a>(start: &'a [u8], written: &'a Option<Vec<u8>>) -> &'a [u8]
    ensures { result.now ≡ held start.now written.now }
{
    match written {
        Some(bytes) => bytes,
        None => start,
    }
}

/// The image of this pick.
fn picked(
    alloc: Global,
    start: &[u8],
    content: &[u8],
    calls: &[Call],
    pick: u8,
) -> Result<Bytes, AllocError>
    requires { content.now ≡ (replay start.now (reverse calls.now)).content }
    ensures none { pick ≡ 0 → IfOk result
        (λ image. image ≡ (replay start.now (reverse calls.now)).base) }
    ensures all { pick ≡ 1 → IfOk result
        (λ image. image ≡ (replay start.now (reverse calls.now)).content) }
    ensures halves { pick ≡ 2 → IfOk result
        (λ image. image ≡ halved start.now (reverse calls.now)) }
    ensures cut { 3 ≤ pick → IfOk result (λ image. image ≡ cut start.now (reverse calls.now)) }
{
    if pick == 1 {
        return copied(alloc, content);
    }
    let settled = last_sync(calls);
    let base = played(alloc, start, &calls[..settled])?;
    match pick {
        0 => copied(alloc, &base),
        2 => halves(alloc, start, base, calls, settled),
        _ => copied(alloc, &content[..base.len().min(content.len())]),
    }
}

/// Counts a fault where memory was wanting.
fn count(outcome: Result<(), AllocError>, faults: &mut u64, wants: &mut u64) -> Result<(), Failed>
    ensures good { OnOk result (OnErr outcome ⊥) }
    ensures bad { OnErr result (OnOk outcome ⊥) }
    ensures ok { OnOk result (faults.new ≡ faults.old) }
    ensures no_want { OnOk result (wants.new ≡ wants.old) }
    ensures err { OnErr result (faults.new ≡ rise faults.old) }
    ensures want { OnErr result (wants.new ≡ rise wants.old) }
{
    if outcome.is_err() {
        *faults = faults.saturating_add(1);
        *wants = wants.saturating_add(1);
        return Err(Failed);
    }
    Ok(())
}

/// Writes into what a site holds.
fn put_held(
    alloc: Global,
    start: &[u8],
    written: &mut Option<Vec<u8>>,
    at: u64,
    bytes: &[u8],
) -> Result<(), AllocError>
    ensures ok { OnOk result (held start.now written.new
        ≡ put at bytes.now (held start.now written.old)) }
    ensures err { OnErr result (held start.now written.new ≡ held start.now written.old) }
{
    match written {
        Some(file) => put_in(file, at, bytes),
        None => {
            let mut file = start.to_vec(alloc)?;
            put_in(&mut file, at, bytes)?;
            *written = Some(file);
            Ok(())
        }
    }
}

/// Keeps a call where there is room for it.
fn keep(calls: &mut Vec<Call>, call: Call) -> Result<(), AllocError>
    ensures ok { OnOk result (reverse calls.new.items ≡ call ∷ reverse calls.old.items) }
    ensures err { OnErr result (reverse calls.new.items ≡ reverse calls.old.items) }
    ensures room { vec_len calls.old < vec_capacity calls.old → OnErr result ⊥ }
{
    calls.push(call)?;
    Ok(())
}

/// Writes, and keeps the call. It takes its memory first.
fn write_in(
    alloc: Global,
    start: &[u8],
    written: &mut Option<Vec<u8>>,
    calls: &mut Vec<Call>,
    at: u64,
    bytes: &[u8],
) -> Result<(), AllocError>
    ensures ok { OnOk result (reverse calls.new.items
        ≡ Call.Write at bytes.now ∷ reverse calls.old.items) }
    ensures err { OnErr result (reverse calls.new.items ≡ reverse calls.old.items) }
    ensures changed { OnOk result
        (held start.now written.new ≡ put at bytes.now (held start.now written.old)) }
    ensures stays { OnErr result (held start.now written.new ≡ held start.now written.old) }
{
    let copy = copied(alloc, bytes)?;
    calls.reserve(1)?;
    put_held(alloc, start, written, at, bytes)?;
    keep(calls, Call::Write(at, copy))
}

/// Says, and keeps the call. It takes its memory first.
fn say_in(
    alloc: Global,
    said: &mut Vec<u8>,
    calls: &mut Vec<Call>,
    bytes: &[u8],
) -> Result<(), AllocError>
    ensures ok { OnOk result (reverse calls.new.items
        ≡ Call.Say bytes.now ∷ reverse calls.old.items) }
    ensures err { OnErr result (reverse calls.new.items ≡ reverse calls.old.items) }
    ensures changed { OnOk result (said.new.items ≡ said.old.items ++ bytes.now) }
    ensures stays { OnErr result (said.new.items ≡ said.old.items) }
{
    let copy = copied(alloc, bytes)?;
    calls.reserve(1)?;
    said.extend_from_slice(bytes)?;
    keep(calls, Call::Say(copy))
}

impl Site for MemSite {
    ghost tells = { true };

    ghost state = { told };

    ghost faults = { λ m. m.faults };

    ghost is_now = { λ m told. told_is_now m.start m.events };

    fn len(&mut self) -> Result<u64, Failed>
        ensures cause { HasCause self.old.faults self.new.faults result }
        ensures bound { IfOk result (λ n. n ≤ 2 ^ 63 - 1) }
        ensures length { IfOk result (λ n. n ≡ length (told self.old).content) }
        ensures told { Stays (told self.old) (told self.new) }
        ensures looks { Looks result self.old self.new }
    {
        begin(
            self.fail.as_slice(),
            self.stop,
            &mut self.made,
            &mut self.faults,
        )?;
        Ok(held_bytes(self.start.as_slice(), &self.written).len() as u64)
    }

    fn read(&mut self, at: u64, into: &mut [u8]) -> Result<(), Failed>
        ensures cause { HasCause self.old.faults self.new.faults result }
        ensures read { Reads at result into.new (told self.old).content }
        ensures told { Stays (told self.old) (told self.new) }
        ensures looks { Looks result self.old self.new }
    {
        begin(
            self.fail.as_slice(),
            self.stop,
            &mut self.made,
            &mut self.faults,
        )?;
        fill(held_bytes(self.start.as_slice(), &self.written), at, into);
        Ok(())
    }

    fn write_at(&mut self, at: u64, bytes: &[u8]) -> Result<(), Failed>
        ensures cause { HasCause self.old.faults self.new.faults result }
        ensures told { Writes at bytes.now result (told self.old) (told self.new) }
        ensures keeps { Keeps (Call.Write at bytes.now) result self.old self.new }
    {
        begin(
            self.fail.as_slice(),
            self.stop,
            &mut self.made,
            &mut self.faults,
        )?;
        let done = write_in(
            self.alloc,
            self.start.as_slice(),
            &mut self.written,
            &mut self.calls,
            at,
            bytes,
        );
        count(done, &mut self.faults, &mut self.wants)
    }

    fn sync(&mut self) -> Result<(), Failed>
        ensures cause { HasCause self.old.faults self.new.faults result }
        ensures told { Syncs result (told self.old) (told self.new) }
        ensures keeps { Keeps Call.Sync result self.old self.new }
    {
        begin(
            self.fail.as_slice(),
            self.stop,
            &mut self.made,
            &mut self.faults,
        )?;
        let done = keep(&mut self.calls, Call::Sync);
        count(done, &mut self.faults, &mut self.wants)
    }

    fn say(&mut self, bytes: &[u8]) -> Result<(), Failed>
        ensures cause { HasCause self.old.faults self.new.faults result }
        ensures told { Speaks bytes.now result (told self.old) (told self.new) }
        ensures keeps { Keeps (Call.Say bytes.now) result self.old self.new }
    {
        begin(
            self.fail.as_slice(),
            self.stop,
            &mut self.made,
            &mut self.faults,
        )?;
        let done = say_in(self.alloc, &mut self.said, &mut self.calls, bytes);
        count(done, &mut self.faults, &mut self.wants)
    }
}
