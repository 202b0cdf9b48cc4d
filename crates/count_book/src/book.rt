//! Rows under their numbers.

ghost use Rattle.std.specs.Prelude.{◌≡◌, ◌↔◌, None, IsTrue, IsSome, OnOk, OnErr, is_some};
ghost use Rattle.std.specs.Option.{option_map};
ghost use Rattle.std.specs.FinMap as map;
ghost use Rattle.count_book.specs.Counted.{Counted, row_of, IsCore, BecameCore, CeasedToBeCore};
ghost use Rattle.count_book.specs.Counted.{entered, left, updated};
ghost use Rattle.count_book.specs.Counted.{one_more, one_less, anchored, offered, anchor_in};

use crate::row::Row;
use number_map::NumberMap;
use std::alloc::{AllocError, Global};
use std::marker::Model;
use vec_record::Number;

/// Counts and anchors under the numbers of records, beside `minpts`. A number is core where its
/// count is at least `minpts`.
#[derive(Drop)]
pub struct CountBook {
    minpts: u32,
    rows: NumberMap<Row>,
}

impl Model for CountBook {
    ghost use Rattle.count_book.specs.Counted.{Counted, counted_code};

    ghost Value = { Counted };

    ghost coded = { counted_code };

    ghost view = { λ b. record { minpts = b.minpts; rows = b.rows } };
}

impl CountBook {
    /// The empty book.
    pub fn new(alloc: Global, minpts: u32) -> CountBook
        ensures { result ≡ record { minpts = minpts; rows = map.empty } }
    {
        CountBook {
            minpts,
            rows: NumberMap::new(alloc),
        }
    }

    /// Adds an absent number. After want of memory the book is as before.
    pub fn enter(
        &mut self,
        number: Number,
        count: u32,
        anchor: Option<Number>,
    ) -> Result<(), AllocError>
        requires { map.get self.old.rows number ≡ None }
        ensures ok { OnOk result (self.new ≡ entered self.old number (row_of count anchor)) }
        ensures err { OnErr result (self.new ≡ self.old) }
    {
        self.rows.insert(number, Row { count, anchor })
    }

    /// Takes a number out; false exactly where it is absent.
    pub fn leave(&mut self, number: Number) -> bool
        ensures value { result ≡ is_some (map.get self.old.rows number) }
        ensures rest { self.new ≡ left self.old number }
    {
        self.rows.remove(number).is_some()
    }

    /// Counts one more; true exactly where the number became core. A count at 4,294,967,295 stays
    /// there.
    #[inline(always)]
    pub fn add_one(&mut self, number: Number) -> bool
        requires { IsSome (map.get self.old.rows number) }
        ensures rest { self.new ≡ updated one_more self.old number }
        ensures value { IsTrue result ↔ BecameCore self.old self.new number }
        ensures stays { IsCore self.old number → IsCore self.new number }
    {
        match self.rows.get_mut(number) {
            Some(row) => row.raise(self.minpts),
            None => false,
        }
    }

    /// Counts one less; true exactly where the number ceased to be core. A count of 0 stays 0.
    #[inline(always)]
    pub fn drop_one(&mut self, number: Number) -> bool
        requires { IsSome (map.get self.old.rows number) }
        ensures rest { self.new ≡ updated one_less self.old number }
        ensures value { IsTrue result ↔ CeasedToBeCore self.old self.new number }
    {
        match self.rows.get_mut(number) {
            Some(row) => row.lower(self.minpts),
            None => false,
        }
    }

    /// The count of a number; `None` exactly where it is absent.
    #[inline(always)]
    pub fn count_of(&self, number: Number) -> Option<u32>
        ensures { result ≡ option_map (λ row. row.count) (map.get self.now.rows number) }
    {
        match self.rows.get(number) {
            Some(row) => Some(row.count),
            None => None,
        }
    }

    /// True exactly where the number is there and its count is at least `minpts`.
    #[inline(always)]
    pub fn is_core(&self, number: Number) -> bool
        ensures { IsTrue result ↔ IsCore self.now number }
    {
        match self.rows.get(number) {
            Some(row) => self.minpts <= row.count,
            None => false,
        }
    }

    /// The anchor of a number; `None` exactly where it is absent or has no anchor.
    #[inline(always)]
    pub fn anchor_of(&self, number: Number) -> Option<Number>
        ensures { result ≡ anchor_in (map.get self.now.rows number) }
    {
        match self.rows.get(number) {
            Some(row) => row.anchor,
            None => None,
        }
    }

    /// Sets the anchor of a number that is there. An absent number stays absent.
    pub fn set_anchor(&mut self, number: Number, anchor: Option<Number>)
        ensures { self.new ≡ updated (anchored anchor) self.old number }
    {
        match self.rows.get_mut(number) {
            Some(row) => row.anchor = anchor,
            None => {}
        }
    }

    /// Sets the anchor of a number that is there and isn't core, where it has none or a greater
    /// one.
    #[inline(always)]
    pub fn offer_anchor(&mut self, number: Number, core: Number)
        ensures { self.new ≡ updated (offered self.old.minpts core) self.old number }
    {
        match self.rows.get_mut(number) {
            Some(row) => row.offer(self.minpts, core),
            None => {}
        }
    }
}
