//! Values under numbers, hashed.

ghost use Rattle.std.specs.Prelude.{◌≡◌, ◌≢◌, None, OnOk, OnErr, is_some, IsTrue, IsSome};
ghost use Rattle.std.specs.Option.{option_copied, option_copied_mut};
ghost use Rattle.std.specs.Borrow.{sem};
ghost use Rattle.std.specs.FinMap as map;
ghost use Rattle.number_map.specs.Lending.{LendsEntry, replaced};

use std::alloc::{AllocError, Global};
use std::collections::HashMap;
use std::marker::Model;

/// Values under numbers, seen as a finite map.
#[derive(Drop)]
pub struct NumberMap<V> {
    entries: HashMap<u32, V>,
}

impl<V> Model for NumberMap<V> {
    ghost use Rattle.std.specs.Ordering.{nat_cmp};
    ghost use Rattle.std.specs.FinMap as map;
    ghost use Rattle.std.specs.Coded.{coded_ℕ};

    ghost Value = { map.FinMap nat_cmp V };

    ghost coded = { map.code coded_ℕ V.code };

    ghost view = { λ m. map.from_entries m.entries.entries };
}

impl<V: Drop> NumberMap<V> {
    pub fn new(alloc: Global) -> NumberMap<V>
        ensures { result ≡ map.empty }
    {
        NumberMap {
            entries: HashMap::new(alloc),
        }
    }

    /// `None` exactly where the number is absent.
    #[inline(always)]
    pub fn get(&self, number: u32) -> Option<&V>
        ensures { option_copied result ≡ map.get self.now number }
    {
        self.entries.get(&number)
    }

    /// The value of a number, to be changed in place.
    #[inline(always)]
    pub fn get_mut(&mut self, number: u32) -> Option<&mut V>
        ensures* writes_back { sem 𝓛 (LendsEntry V.row self.entry number result) }
        ensures value { option_copied_mut result ≡ map.get self.old number }
    {
        self.entries.get_mut(&number)
    }

    /// Puts a value under a number, in place of the one that is there. After want of memory the
    /// map is as before.
    #[inline(always)]
    pub fn insert(&mut self, number: u32, value: V) -> Result<(), AllocError>
        ensures ok { OnOk result (self.new ≡ map.insert self.old number value) }
        ensures err { OnErr result (self.new ≡ self.old) }
    {
        self.entries.insert(number, value)?;
        Ok(())
    }

    /// Sets the value of a number that is there, without taking memory. An absent number stays
    /// absent.
    #[inline(always)]
    pub fn replace(&mut self, number: u32, value: V)
        ensures { self.new ≡ replaced self.old number value }
    {
        match self.get_mut(number) {
            Some(place) => *place = value,
            None => {}
        }
    }

    /// Takes a number out and gives its value, `None` exactly where it is absent.
    #[inline(always)]
    pub fn remove(&mut self, number: u32) -> Option<V>
        ensures value { result ≡ map.get self.old number }
        ensures rest { self.new ≡ map.remove self.old number }
    {
        self.entries.remove(&number)
    }

    pub fn len(&self) -> usize
        ensures { result ≡ map.len self.now }
    {
        self.entries.len()
    }
}
