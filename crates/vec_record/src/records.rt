//! Numbered vectors.

ghost use Rattle.std.specs.Prelude.{◌≡◌, ◌≢◌, length, None, IfOk, IfSome, OnOk, OnErr};
ghost use Rattle.std.specs.List.{AllByRecursion};
ghost use Rattle.std.specs.Option.{option_copied};
ghost use Rattle.std.specs.FinMap as map;
ghost use Rattle.vec_record.specs.Vectors.{IsVector, IsWidth};
ghost use Rattle.vec_record.specs.Held.{Held, AreAll, HaveWidth, NoneAtZero};

use crate::numbers::{Number, Numbers};
use crate::vector::Vector;
use std::alloc::{AllocError, Global};
use std::collections::BTreeMap;
use std::collections::btree_map::Iter;
use std::marker::Model;

/// Vectors of one width under their numbers, seen as a finite map beside the width.
#[derive(Drop)]
pub struct Records {
    alloc: Global,
    width: u32,
    vectors: BTreeMap<Number, Vector>,
}

impl Model for Records {
    ghost use Rattle.std.specs.FinMap as map;
    ghost use Rattle.vec_record.specs.Vectors.{IsWidth};
    ghost use Rattle.vec_record.specs.Held.{Held, held_code, AreAll};

    ghost Value = { Held };

    ghost coded = { held_code };

    ghost view = { λ r. record { width = r.width; vectors = map.from_entries r.vectors.entries } };

    ghost invariant = { λ r. IsWidth r.width × AreAll r.width r.vectors.entries };
}

impl Records {
    /// No records, for vectors of `width` bytes (1 to 512).
    pub fn new(alloc: Global, width: u32) -> Records
        requires { IsWidth width }
        ensures { result ≡ record { width = width; vectors = map.empty } }
    {
        Records {
            alloc,
            width,
            vectors: BTreeMap::new(alloc),
        }
    }

    /// The bytes of each vector: 1 to 512.
    pub fn width(&self) -> u32
        ensures value { result ≡ self.now.width }
        ensures width { IsWidth self.now.width }
        ensures vectors { HaveWidth self.now.width self.now.vectors }
        ensures numbers { NoneAtZero self.now.vectors }
    {
        self.width
    }

    /// The vector of a number; `None` exactly where the number is absent.
    pub fn get(&self, number: Number) -> Option<&Vector>
        ensures value { option_copied result ≡ map.get self.now.vectors number }
        ensures vector { IfSome result (λ v. IsVector self.now.width v.now) }
        ensures number { IfSome result (λ v. number ≢ 0) }
        ensures width { IsWidth self.now.width }
    {
        self.vectors.get(&number)
    }

    /// Adds a record under an absent number. After want of memory the records are as before.
    pub fn insert(&mut self, number: Number, vector: Vector) -> Result<(), AllocError>
        requires number { number ≢ 0 }
        requires absent { map.get self.old.vectors number ≡ None }
        requires width { length vector ≡ self.old.width }
        ensures ok { OnOk result
            (self.new ≡ record self.old { vectors = map.insert self.old.vectors number vector }) }
        ensures err { OnErr result (self.new ≡ self.old) }
    {
        let _ = vector.as_slice();
        self.vectors.insert(number, vector)?;
        Ok(())
    }

    /// Takes a record out; `None` exactly where the number is absent.
    pub fn remove(&mut self, number: Number) -> Option<Vector>
        ensures value { result ≡ map.get self.old.vectors number }
        ensures number { IfSome result (λ v. number ≢ 0) }
        ensures rest { self.new ≡ record self.old { vectors = map.remove self.old.vectors number } }
    {
        self.vectors.remove(&number)
    }

    pub fn len(&self) -> usize
        ensures { result ≡ map.len self.now.vectors }
    {
        self.vectors.len()
    }

    /// The numbers and their vectors by rising number: one walk, which takes no memory.
    pub fn iter(&self) -> Iter<'_, Number, Vector>
        ensures rest { result ≡ map.entries self.now.vectors }
        ensures records { AreAll self.now.width (map.entries self.now.vectors) }
        ensures width { IsWidth self.now.width }
    {
        self.vectors.iter()
    }

    /// The numbers, rising.
    pub fn numbers(&self) -> Result<Numbers, AllocError>
        ensures numbers { IfOk result (λ n. n ≡ map.keys self.now.vectors) }
        ensures none { IfOk result (λ n. AllByRecursion (λ q. q ≢ 0) n) }
    {
        let mut numbers = Numbers::new(self.alloc);
        for number in self.vectors.keys() {
            numbers.push(*number)?;
        }
        Ok(numbers)
    }

    /// The same records, on the same allocator.
    pub fn copy(&self) -> Result<Records, AllocError>
        ensures same { IfOk result (λ r. r ≡ self.now) }
        ensures width { IsWidth self.now.width }
        ensures vectors { HaveWidth self.now.width self.now.vectors }
    {
        let mut vectors = BTreeMap::new(self.alloc);
        for (number, vector) in self.vectors.iter() {
            vectors.insert(*number, vector.copy()?)?;
        }
        Ok(Records {
            alloc: self.alloc,
            width: self.width,
            vectors,
        })
    }
}
