//! The entries of a leaf, with their vectors in one block.

ghost use Rattle.std.specs.Prelude.{◌≡◌, [], ◌∷◌, ◌++◌, ◌+◌, ◌<◌, length, map, remove, replicate};
ghost use Rattle.std.specs.Prelude.{slice_index_or, OnOk, OnErr, IfOk};
ghost use Rattle.std.specs.List.{AllByRecursion};
ghost use Rattle.vec_record.specs.Vectors.{IsVector, IsWidth};
ghost use Rattle.mtree_node.specs.Lists.{numbers_of, parents_of, vectors_of, HaveVectorsOf};
ghost use Rattle.mtree_node.specs.Lists.{without_parent};

use crate::node::LeafEntry;
use std::alloc::{AllocError, Global};
use std::marker::Model;
use std::sync::ledger::Ledger;
use vec_record::{Block, Metric, Number, Steps, Vector};

/// The entries of a leaf, seen as the list of them. In memory they lie apart, since a query reads
/// all parent distances, few of the vectors, and fewer of the numbers. The vectors have one width.
#[derive(Drop)]
pub struct LeafEntries {
    numbers: Vec<Number>,
    parents: Vec<u32>,
    rows: Block,
}

impl Model for LeafEntries {
    ghost use Rattle.std.specs.Prelude.{◌≡◌, List, length};
    ghost use Rattle.mtree_node.specs.declared.node.LeafEntry.{LeafEntry};
    ghost use Rattle.mtree_node.specs.inside.Columns.{entries_of};

    ghost Value = { List LeafEntry };

    ghost view = { λ l. entries_of l.numbers.items l.parents.items l.rows.rows };

    ghost invariant = { λ l. (length l.numbers.items ≡ length l.rows.rows)
        × (length l.parents.items ≡ length l.rows.rows) };
}

impl LeafEntries {
    /// No entries. It takes no memory.
    pub fn new(alloc: Global) -> LeafEntries
        ensures { result ≡ [] }
    {
        // The first entry brings its width.
        LeafEntries {
            numbers: Vec::new(alloc),
            parents: Vec::new(alloc),
            rows: Block::new(alloc, 1),
        }
    }

    /// The entries of a slice, whose vectors have a width of 1 to 512.
    pub fn from_slice(
        alloc: Global,
        width: u32,
        entries: &[LeafEntry],
    ) -> Result<LeafEntries, AllocError>
        requires width { IsWidth width }
        requires vectors { HaveVectorsOf width entries.now }
        ensures { IfOk result (λ list. list ≡ entries.now) }
    {
        let _ = width;
        let mut list = LeafEntries::new(alloc);
        for entry in entries {
            list.push(entry.number, entry.parent, entry.vector.as_slice())?;
        }
        Ok(list)
    }

    /// The entries one by one, each with a vector of its own.
    pub fn to_vec(&self, alloc: Global) -> Result<Vec<LeafEntry>, AllocError>
        ensures { IfOk result (λ entries. entries.items ≡ self.now) }
    {
        let mut entries = Vec::new(alloc);
        for at in 0..self.len() {
            entries.push(LeafEntry {
                number: self.numbers()[at],
                vector: Vector::from_slice(alloc, self.rows().row(at))?,
                parent: self.parents()[at],
            })?;
        }
        Ok(entries)
    }

    #[inline]
    pub fn len(&self) -> usize
        ensures { result ≡ length self.now }
    {
        self.numbers.len()
    }

    #[inline]
    pub fn numbers(&self) -> &[Number]
        ensures { result.now ≡ numbers_of self.now }
    {
        &self.numbers
    }

    #[inline]
    pub fn parents(&self) -> &[u32]
        ensures { result.now ≡ parents_of self.now }
    {
        &self.parents
    }

    /// The vectors, each as a row.
    #[inline]
    pub fn rows(&self) -> &Block
        ensures rows { result.now.rows ≡ vectors_of self.now }
        ensures width { IsWidth result.now.width }
        ensures vectors { AllByRecursion (λ e. IsVector result.now.width e.vector) self.now }
    {
        let _ = self.rows.width();
        &self.rows
    }

    /// The distance of the vector at a place from a centre.
    pub fn distance<M: Metric, L: Ledger>(
        &self,
        centre: &Vector,
        at: usize,
        steps: &mut Steps<L>,
    ) -> u32
        requires place { at < length self.now }
        requires few { at < 256 }
        requires vectors { HaveVectorsOf (length centre.now) self.now }
        ensures value { result ≡ M.dist centre.now (slice_index_or (vectors_of self.now) at []) }
        ensures counts { steps.new ≡ steps.old + 1 }
    {
        let mut far = [0];
        M::distances(centre.as_slice(), self.rows(), &[at as u8], &mut far, steps);
        far[0]
    }

    /// Adds an entry at the end. Its vector has the width of the others. After want of memory the
    /// entries are as before.
    pub fn push(&mut self, number: Number, parent: u32, vector: &[u8]) -> Result<(), AllocError>
        requires width { IsWidth (length vector.now) }
        requires vectors { HaveVectorsOf (length vector.now) self.old }
        ensures ok { OnOk result
            (self.new ≡ self.old ++ record { number = number; vector = vector.now; parent = parent }
            ∷ []) }
        ensures err { OnErr result (self.new ≡ self.old) }
    {
        let alloc = *self.numbers.allocator();
        take_width(alloc, &mut self.rows, vector.len() as u32);
        // With the room taken first, nothing fails once the row is in.
        self.numbers.reserve(1)?;
        self.parents.reserve(1)?;
        self.rows.push(vector)?;
        let _ = self.numbers.push(number);
        let _ = self.parents.push(parent);
        Ok(())
    }

    /// Adds further entries behind the last. Their vectors have one width.
    pub fn append(&mut self, more: &LeafEntries) -> Result<(), AllocError>
        requires vectors { (width : _) × HaveVectorsOf width self.old
            × HaveVectorsOf width more.now }
        ensures { OnOk result (self.new ≡ self.old ++ more.now) }
    {
        for at in 0..more.len() {
            let row = more.rows().row(at);
            self.push(more.numbers()[at], more.parents()[at], row)?;
        }
        Ok(())
    }

    /// Takes out the entry at a place.
    pub fn remove(&mut self, at: usize)
        requires { at < length self.old }
        ensures { self.new ≡ remove self.old at }
    {
        let _ = self.numbers.remove(at);
        let _ = self.parents.remove(at);
        self.rows.remove_at(at);
    }

    /// Sets the parent distances to 0, as in a root.
    pub fn clear_parents(&mut self)
        ensures { self.new ≡ map without_parent self.old }
    {
        clear(&mut self.parents);
    }
}

// Gives the rows a width. They have another one only where there are none.
fn take_width(alloc: Global, rows: &mut Block, width: u32)
    requires width { IsWidth width }
    requires rows { AllByRecursion (λ row. length row ≡ width) rows.old.rows }
    ensures { rows.new ≡ record { width = width; rows = rows.old.rows } }
{
    if rows.width() != width {
        *rows = Block::new(alloc, width);
    }
}

fn clear(parents: &mut [u32])
    ensures { parents.new ≡ replicate (length parents.old) 0 }
{
    parents.fill(0);
}
