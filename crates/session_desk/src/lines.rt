//! The lines of a session, read from a source piece by piece.

ghost use Rattle.std.specs.Prelude.{◌≡◌, ◌≤◌, ◌<◌, ◌+◌, ◌-◌, ◌++◌, ◌||◌, [], Ok, ℕ, Bool, List};
ghost use Rattle.std.specs.Prelude.{true, false, nat_lt, min, length, drop, take, is_err, IfOk};
ghost use Rattle.std.specs.Prelude.{OnOk, OnErr, IsErrOf, IsTrue, if◌then◌else◌};
ghost use Rattle.std.specs.List.{position_or_len};
ghost use Rattle.site_disk.specs.Causes.{Rose};
ghost use Rattle.session_desk.specs.Input.{is_line_feed};
ghost use Rattle.session_desk.specs.Lines.{fresh, IsHeld, HasSource, ends_in_return, raw_line};
ghost use Rattle.session_desk.specs.Lines.{Nexts, SpendsBy};
ghost use Rattle.session_desk.specs.Filling.{has_line, given, filled, FillsBy, GivesBy, IsLineOf};

use crate::reading::{INPUT_LIMIT, ReadFault};
use site_disk::{Failed, Source};
use std::alloc::{AllocError, Global};
use std::marker::Model;
use vec_record::Bytes;

/// The most bytes of a line, before its line feed.
const LINE_LIMIT: usize = 4096;

/// The most bytes that are taken at once.
const PIECE: usize = 4096;

/// What comes next in an input.
#[derive(Drop)]
pub enum SessionLine {
    /// A line without its line feed and without one carriage return at its end, and whether that
    /// was there.
    Whole { line: Bytes, cr: bool },
    /// A line of over 4,096 bytes before its line feed.
    Long,
    /// No byte of a line is left.
    End,
}

/// Reads an input line by line through one small buffer, and takes at most one byte past 64 MiB.
#[derive(Drop)]
pub struct LineReader {
    alloc: Global,
    buffer: Vec<u8>,
    // So many bytes at the front of the buffer are given already.
    start: usize,
    room: usize,
    ended: bool,
    failed: bool,
}

impl Model for LineReader {
    ghost use Rattle.std.specs.Prelude.{◌≤◌, length, drop};
    ghost use Rattle.session_desk.specs.Lines.{Reading, reading, IsHeld};

    ghost Value = { Reading };

    ghost view = { λ r. reading (drop r.start r.buffer.items) r.room r.ended r.failed };

    ghost invariant = { λ r. (r.start ≤ length r.buffer.items)
        × IsHeld (reading (drop r.start r.buffer.items) r.room r.ended r.failed) };
}

/// How many bytes stand before the first line feed, or how many there are where there is none.
fn line_length(bytes: &[u8]) -> usize
    ensures { result ≡ position_or_len is_line_feed bytes.now }
{
    bytes
        .iter()
        .position(|b| *b == b'\n')
        .unwrap_or(bytes.len())
}

/// Whether bytes end in a carriage return.
fn has_return(bytes: &[u8]) -> bool
    ensures { result ≡ ends_in_return bytes.now }
{
    !bytes.is_empty() && bytes[bytes.len() - 1] == b'\r'
}

/// Moves the bytes from a place on to the front.
fn drop_front(bytes: &mut Vec<u8>, count: usize)
    requires { count ≤ length bytes.old.items }
    ensures { bytes.new.items ≡ drop count bytes.old.items }
{
    let kept = bytes.len() - count;
    bytes.copy_within(count.., 0);
    bytes.truncate(kept);
}

/// A line of these bytes, without one carriage return at its end.
fn copy_line(alloc: Global, raw: &[u8]) -> Result<SessionLine, AllocError>
    ensures { IfOk result (IsLineOf raw.now) }
{
    let cr = has_return(raw);
    let mut line = Bytes::new(alloc);
    line.append(&raw[..raw.len() - usize::from(cr)])?;
    Ok(SessionLine::Whole { line, cr })
}

impl LineReader {
    /// A reader before its first line.
    pub fn new(alloc: Global) -> Result<LineReader, AllocError>
        ensures { IfOk result (λ reader. reader ≡ fresh) }
    {
        Ok(LineReader {
            alloc,
            buffer: Vec::with_capacity(alloc, 2 * PIECE)?,
            start: 0,
            room: INPUT_LIMIT,
            ended: false,
            failed: false,
        })
    }

    /// The next line, or that there is none.
    ///
    /// A reader that has answered a fault isn't asked again. `Source` comes only where the source
    /// failed and no whole line is left of what it gave, `TooMuch` only where it gave a byte past
    /// 64 MiB and no whole line is left of the bytes before it. Once the source has given its end
    /// it isn't asked again.
    pub fn next<S: Source>(&mut self, source: &mut S) -> Result<SessionLine, ReadFault>
        requires { self.old.failed ≡ false }
        ensures later { S.faults source.old ≤ S.faults source.new }
        ensures source { IsErrOf result ReadFault.Source
            → Rose (S.faults source.old) (S.faults source.new) }
        ensures failed { self.new.failed ≡ is_err result }
        ensures held { IsHeld self.new }
        ensures ended { self.old.ended ≡ true → self.new.ended ≡ true }
        ensures no_source { self.old.ended ≡ true → ¬ (IsErrOf result ReadFault.Source) }
        ensures no_too_much { self.old.ended ≡ true → ¬ (IsErrOf result ReadFault.TooMuch) }
        ensures told { IsTrue S.tells → HasSource self.old (S.left source.old)
            → Nexts result self.old (S.left source.old) self.new (S.left source.new) }
        ensures spends { SpendsBy result self.old self.new }
        ensures empty { self.old.ended ≡ true → self.old.pending ≡ [] → result
            ≡ Ok SessionLine.End }
        ensures same_source { IsTrue S.tells → HasSource self.old (S.left source.old)
            → HasSource self.new (S.left source.new) }
    {
        let result = self.read_line(source);
        self.failed = result.is_err();
        result
    }

    /// Takes pieces until a line is there, and gives it. Of a long line it keeps nothing.
    fn read_line<S: Source>(&mut self, source: &mut S) -> Result<SessionLine, ReadFault>
        ensures later { S.faults source.old ≤ S.faults source.new }
        ensures source { IsErrOf result ReadFault.Source
            → Rose (S.faults source.old) (S.faults source.new) }
        ensures held { IsHeld self.new }
        ensures ended { self.old.ended ≡ true → self.new.ended ≡ true }
        ensures no_source { self.old.ended ≡ true → ¬ (IsErrOf result ReadFault.Source) }
        ensures no_too_much { self.old.ended ≡ true → ¬ (IsErrOf result ReadFault.TooMuch) }
        ensures told { IsTrue S.tells → HasSource self.old (S.left source.old)
            → Nexts result self.old (S.left source.old) self.new (S.left source.new) }
        ensures spends { SpendsBy result self.old self.new }
        ensures empty { self.old.ended ≡ true → self.old.pending ≡ [] → result
            ≡ Ok SessionLine.End }
        ensures same_source { IsTrue S.tells → HasSource self.old (S.left source.old)
            → HasSource self.new (S.left source.new) }
    {
        let mut long = false;
        'pieces: while !self.has_line() {
            if self.is_over() {
                return Err(ReadFault::TooMuch);
            }
            if self.skip_long() {
                long = true;
            }
            self.fill(source)?;
        }
        match self.give_line(long) {
            Ok(line) => Ok(line),
            Err(_) => Err(ReadFault::Memory),
        }
    }

    /// The bytes that were taken and aren't given.
    fn pending(&self) -> &[u8]
        ensures { result.now ≡ self.now.pending }
    {
        &self.buffer[self.start..]
    }

    /// Whether a line is there, its line feed among the bytes that may count, or all that was left.
    fn has_line(&self) -> bool
        ensures line { result ≡ has_line self.now }
        ensures held { IsHeld self.now }
    {
        let pending = self.pending();
        self.ended || line_length(pending) < pending.len().min(self.room)
    }

    /// Whether a byte more than may count was taken.
    fn is_over(&self) -> bool
        ensures { result ≡ nat_lt self.now.room (length self.now.pending) }
    {
        self.pending().len() > self.room
    }

    /// Gives so many bytes.
    fn give(&mut self, count: usize)
        requires pending { count ≤ length self.old.pending }
        requires room { count ≤ self.old.room }
        ensures { self.new ≡ given count self.old }
    {
        self.start += count;
        self.room -= count;
    }

    /// Gives what is pending, where it is more than a line may have, and says whether it did.
    fn skip_long(&mut self) -> bool
        requires { length self.old.pending ≤ self.old.room }
        ensures long { result ≡ nat_lt 4096 (length self.old.pending) }
        ensures given { self.new
            ≡ (if result then given (length self.old.pending) self.old else self.old) }
    {
        let count = self.pending().len();
        let long = count > LINE_LIMIT;
        if long {
            self.give(count);
        }
        long
    }

    /// Keeps bytes that were taken.
    fn keep(&mut self, bytes: &[u8]) -> Result<(), AllocError>
        requires going { self.old.ended ≡ false }
        requires few { length self.old.pending + length bytes.now ≤ self.old.room + 1 }
        ensures ok { OnOk result (self.new ≡ filled self.old bytes.now) }
        ensures err { OnErr result (self.new ≡ self.old) }
    {
        drop_front(&mut self.buffer, self.start);
        self.start = 0;
        self.buffer.extend_from_slice(bytes)
    }

    /// Takes the next bytes, or learns that there are none.
    fn fill<S: Source>(&mut self, source: &mut S) -> Result<(), ReadFault>
        requires going { self.old.ended ≡ false }
        requires few { length self.old.pending ≤ self.old.room }
        ensures later { S.faults source.old ≤ S.faults source.new }
        ensures source { IsErrOf result ReadFault.Source
            → Rose (S.faults source.old) (S.faults source.new) }
        ensures held { IsHeld self.new }
        ensures room { self.new.room ≡ self.old.room }
        ensures more { OnOk result
            (length self.old.pending + (if self.new.ended then 0 else 1)
            ≤ length self.new.pending) }
        ensures failed { OnErr result (self.new.ended ≡ false) }
        ensures told { IsTrue S.tells
            → FillsBy result self.old (S.left source.old) self.new (S.left source.new) }
    {
        let mut piece = [0u8; PIECE];
        let most = (self.room + 1 - self.pending().len()).min(PIECE);
        let count = match source.take(&mut piece[..most]) {
            Ok(count) => count,
            Err(Failed) => return Err(ReadFault::Source),
        };
        if count == 0 {
            self.ended = true;
            return Ok(());
        }
        match self.keep(&piece[..count]) {
            Ok(()) => Ok(()),
            Err(_) => Err(ReadFault::Memory),
        }
    }

    /// Gives the line that is there. Where a part of it was skipped, it is a long one.
    fn give_line(&mut self, long: bool) -> Result<SessionLine, AllocError>
        requires held { IsHeld self.old }
        requires line { IsTrue (has_line self.old) }
        ensures ok { IfOk result (λ line. GivesBy line long self.old self.new) }
        ensures err { OnErr result (self.new ≡ self.old) }
        ensures held { IsHeld self.new }
        ensures empty { long ≡ false → self.old.pending ≡ [] → result ≡ Ok SessionLine.End }
    {
        let pending = self.pending();
        let length = line_length(pending);
        let used = (length + 1).min(pending.len());
        if long || length > LINE_LIMIT {
            self.give(used);
            return Ok(SessionLine::Long);
        }
        if used == 0 {
            return Ok(SessionLine::End);
        }
        let line = copy_line(self.alloc, &pending[..length])?;
        self.give(used);
        Ok(line)
    }
}
