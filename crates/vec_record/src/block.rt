//! Vectors of one width behind one another in one list of bytes.

ghost use Rattle.std.specs.Prelude.{◌≡◌, ◌+◌, ◌<◌, ◌≤◌, [], ◌++◌, length, take, drop, OnOk, OnErr};
ghost use Rattle.vec_record.specs.Vectors.{IsVector, IsWidth};
ghost use Rattle.vec_record.specs.Table.{AreRows, row_at, with_last, with_row, without_row};

use crate::vector::known;
use std::alloc::{AllocError, Global};
use std::marker::Model;

/// Vectors of one width, the rows, one behind another in one list of bytes, without a gap.
/// Contracts see the width and the list of rows. It takes memory only to grow.
#[derive(Drop)]
pub struct Block {
    width: usize,
    count: usize,
    bytes: Vec<u8>,
}

impl Model for Block {
    ghost use Rattle.std.specs.Prelude.{◌≡◌, ◌*◌, length};
    ghost use Rattle.vec_record.specs.Vectors.{IsWidth};
    ghost use Rattle.vec_record.specs.Table.{Table, table_code};
    ghost use Rattle.vec_record.specs.inside.Cut.{cut};

    ghost Value = { Table };

    ghost coded = { table_code };

    ghost view = { λ b. record { width = b.width; rows = cut b.width b.count b.bytes.items } };

    ghost invariant = { λ b. IsWidth b.width × (length b.bytes.items ≡ b.count * b.width) };
}

impl Block {
    /// No rows, for rows of `width` bytes (1 to 512).
    pub fn new(alloc: Global, width: u32) -> Block
        requires { IsWidth width }
        ensures { result ≡ record { width = width; rows = [] } }
    {
        Block {
            width: width as usize,
            count: 0,
            bytes: Vec::new(alloc),
        }
    }

    /// The bytes of each row: 1 to 512.
    #[inline]
    pub fn width(&self) -> u32
        ensures value { result ≡ self.now.width }
        ensures width { IsWidth self.now.width }
        ensures rows { AreRows self.now }
    {
        let _ = known(&self.bytes);
        self.width as u32
    }

    /// How many rows there are.
    #[inline]
    pub fn len(&self) -> usize
        ensures { result ≡ length self.now.rows }
    {
        self.count
    }

    /// The row at a place, counted from 0.
    #[inline]
    pub fn row(&self, at: usize) -> &[u8]
        requires { at < length self.now.rows }
        ensures value { result.now ≡ row_at self.now at }
        ensures vector { IsVector self.now.width result.now }
    {
        let start = at * self.width;
        known(&self.bytes[start..start + self.width])
    }

    /// The same at a width that the compiler knows, so that it can unroll a loop over the row.
    #[inline(always)]
    pub fn row_array<const N: usize>(&self, at: usize) -> &[u8; N]
        requires place { at < length self.now.rows }
        requires width { N ≡ self.now.width }
        ensures { result.now ≡ row_at self.now at }
    {
        let bytes = &self.bytes;
        let start = at * N;
        match bytes[start..start + N].first_chunk::<N>() {
            Some(row) => row,
            None => unreachable!(),
        }
    }

    /// Adds a row at the end. After want of memory the rows are as before.
    pub fn push(&mut self, row: &[u8]) -> Result<(), AllocError>
        requires { length row.now ≡ self.old.width }
        ensures ok { OnOk result (self.new ≡ with_last self.old row.now) }
        ensures err { OnErr result (self.new ≡ self.old) }
    {
        self.bytes.extend_from_slice(row)?;
        self.count += 1;
        Ok(())
    }

    /// Puts a row at a place, before the rows from there on. After want of memory the rows are as
    /// before.
    pub fn insert_at(&mut self, at: usize, row: &[u8]) -> Result<(), AllocError>
        requires place { at ≤ length self.old.rows }
        requires width { length row.now ≡ self.old.width }
        ensures ok { OnOk result (self.new ≡ with_row self.old at row.now) }
        ensures err { OnErr result (self.new ≡ self.old) }
    {
        put_in(&mut self.bytes, at * self.width, row)?;
        self.count += 1;
        Ok(())
    }

    /// Takes out the row at a place. Those behind it move up.
    pub fn remove_at(&mut self, at: usize)
        requires { at < length self.old.rows }
        ensures { self.new ≡ without_row self.old at }
    {
        take_out(&mut self.bytes, at * self.width, self.width);
        self.count -= 1;
    }
}

// Puts bytes at a place, before the bytes from there on.
fn put_in(bytes: &mut Vec<u8>, at: usize, row: &[u8]) -> Result<(), AllocError>
    requires { at ≤ length bytes.old.items }
    ensures ok { OnOk result (bytes.new.items
        ≡ take at bytes.old.items ++ (row.now ++ drop at bytes.old.items)) }
    ensures err { OnErr result (bytes.new.items ≡ bytes.old.items) }
{
    let len = bytes.len();
    bytes.extend_from_slice(row)?;
    bytes.copy_within(at..len, at + row.len());
    bytes[at..at + row.len()].copy_from_slice(row);
    Ok(())
}

// Takes so many bytes out from a place on.
fn take_out(bytes: &mut Vec<u8>, at: usize, many: usize)
    requires { at + many ≤ length bytes.old.items }
    ensures { bytes.new.items ≡ take at bytes.old.items ++ drop (at + many) bytes.old.items }
{
    let len = bytes.len();
    bytes.copy_within(at + many..len, at);
    bytes.truncate(len - many);
}
