//! Input in memory.

ghost use Rattle.std.specs.Prelude.{◌≡◌, ◌≤◌, ◌↔◌, ◌+◌, min, [], length, take, drop, IfOk, OnOk};
ghost use Rattle.std.specs.Prelude.{OnErr, IsErr, IsTrue, true, None};
ghost use Rattle.site_disk.specs.Causes.{HasCause};
ghost use Rattle.site_disk.specs.Takes.{Takes};
ghost use Rattle.site_disk.specs.Counts.{rise, is_due};

use crate::counts::begin;
use crate::source::{Failed, Source};
use std::marker::Model;
use vec_record::{Bytes, Numbers};

/// Input in memory. It gives its bytes in pieces, fails where it is told to, and tells all.
#[derive(Drop)]
pub struct MemSource {
    bytes: Bytes,
    at: usize,
    piece: usize,
    fail: Numbers,
    made: u64,
    faults: u64,
}

impl Model for MemSource {
    ghost use Rattle.std.specs.Prelude.{◌≤◌, length, drop};
    ghost use Rattle.site_disk.specs.Input.{Input};

    ghost Value = { Input };

    ghost view = { λ s. record {
      left = drop s.at s.bytes;
      piece = s.piece;
      fail = s.fail;
      made = s.made;
      faults =
          s.faults;
    } };

    ghost invariant = { λ s. (s.at ≤ length s.bytes) × (1 ≤ s.piece) };
}

impl MemSource {
    /// Gives pieces of at most this size, and fails at the calls of these numbers, the first being
    /// 1.
    pub fn new(bytes: Bytes, piece: usize, fail: Numbers) -> MemSource
        requires { 1 ≤ piece }
        ensures left { result.left ≡ bytes }
        ensures piece { result.piece ≡ piece }
        ensures fail { result.fail ≡ fail }
        ensures made { result.made ≡ 0 }
        ensures faults { result.faults ≡ 0 }
    {
        MemSource {
            bytes,
            at: 0,
            piece,
            fail,
            made: 0,
            faults: 0,
        }
    }

    /// The bytes that are left.
    pub fn left(&self) -> &[u8]
        ensures { result.now ≡ self.now.left }
    {
        &self.bytes.as_slice()[self.at..]
    }

    /// How many calls have failed.
    pub fn faults(&self) -> u64
        ensures { result ≡ self.now.faults }
    {
        self.faults
    }
}

/// Copies the next piece, and gives its length.
fn copy_piece(left: &[u8], piece: usize, into: &mut [u8]) -> usize
    ensures amount { result ≡ min piece (min (length into.old) (length left.now)) }
    ensures bytes { take result into.new ≡ take result left.now }
{
    let amount = piece.min(into.len().min(left.len()));
    into[..amount].copy_from_slice(&left[..amount]);
    amount
}

impl Source for MemSource {
    ghost tells = { true };

    ghost left = { λ s. s.left };

    ghost faults = { λ s. s.faults };

    fn take(&mut self, into: &mut [u8]) -> Result<usize, Failed>
        ensures cause { HasCause self.old.faults self.new.faults result }
        ensures bound { IfOk result (λ n. n ≤ length into.new) }
        ensures told { Takes result into.new self.old.left self.new.left }
        ensures amount { IfOk result
            (λ n. n ≡ min self.old.piece (min (length into.old) (length self.old.left))) }
        ensures exact { IsErr result ↔ IsTrue (is_due self.old.fail None self.old.made) }
        ensures made { self.new.made ≡ rise self.old.made }
        ensures ok { OnOk result (self.new.faults ≡ self.old.faults) }
        ensures err { OnErr result (self.new.faults ≡ rise self.old.faults) }
        ensures piece { self.new.piece ≡ self.old.piece }
        ensures fail { self.new.fail ≡ self.old.fail }
    {
        begin(self.fail.as_slice(), None, &mut self.made, &mut self.faults)?;
        let amount = copy_piece(&self.bytes.as_slice()[self.at..], self.piece, into);
        self.at += amount;
        Ok(amount)
    }
}
