//! The split of a list of entries into two halves, each under one of their objects.

ghost use Rattle.std.specs.Prelude.{◌≡◌, ℕ, ◌+◌, ◌*◌, ◌<◌, ◌≤◌, ◌++◌, length, map, slice_index};
ghost use Rattle.std.specs.Prelude.{slice_index_or, IfOk, OnOk, [], ◌∷◌, true, false};
ghost use Rattle.std.specs.List.{AllByRecursion};
ghost use Rattle.vec_record.specs.Vectors.{IsWidth};
ghost use Rattle.mtree_split.specs.Choice.{row_of};
ghost use Rattle.mtree_index.specs.inside.Pairs.{pairs, with_known};
ghost use Rattle.mtree_index.specs.Split.{row, distances, parting, half, left_half, right_half};
ghost use Rattle.mtree_index.specs.Split.{on_side, with_parents};

use crate::entry::Entry;
use items::Items;
use mtree_split::{Parting, choose};
use std::alloc::{AllocError, Global};
use std::sync::ledger::Ledger;
use vec_record::{Metric, Steps, Vector};

/// One side of a split: its object, how far its vectors are from it at most, and its entries.
#[derive(Drop)]
pub struct Half<E> {
    pub object: Vector,
    pub radius: u32,
    pub entries: Items<E>,
}

// Adds the distances from an object to those of the entries.
fn push_row<M: Metric, E: Entry, L: Ledger>(
    object: &Vector,
    entries: &[E],
    matrix: &mut Vec<u32>,
    steps: &mut Steps<L>,
) -> Result<(), AllocError>
    requires width { IsWidth (length object.now) }
    requires vectors { AllByRecursion (λ e. length (E.object e) ≡ length object.now) entries.now }
    ensures row { OnOk result
        (matrix.new.items ≡ matrix.old.items ++ row M.dist object.now (map E.object entries.now)) }
    ensures counted { steps.new ≤ steps.old + length entries.now }
{
    for entry in entries {
        matrix.push(M::distance(object, entry.object(), steps))?;
    }
    Ok(())
}

// Begins the row of the entry at a place: the distances to the entries before it stand in their
// rows, and to itself it has none.
fn push_known(count: usize, at: usize, matrix: &mut Vec<u32>) -> Result<(), AllocError>
    requires rows { length matrix.old.items ≡ at * count }
    requires place { at < count }
    requires few { count ≤ 36 }
    ensures { OnOk result (matrix.new.items ≡ with_known count at matrix.old.items) }
{
    for earlier in 0..at {
        matrix.push(matrix[earlier * count + at])?;
    }
    matrix.push(0)?;
    Ok(())
}

// The distances between the entries, row by row. Each is computed once.
fn distances<M: Metric, E: Entry, L: Ledger>(
    alloc: Global,
    width: u32,
    entries: &[E],
    steps: &mut Steps<L>,
) -> Result<Vec<u32>, AllocError>
    requires width { IsWidth width }
    requires vectors { AllByRecursion (λ e. length (E.object e) ≡ width) entries.now }
    requires at_most { length entries.now ≤ 36 }
    ensures matrix { IfOk result (λ m. m.items ≡ distances M.dist (map E.object entries.now)) }
    ensures counted { steps.new ≤ steps.old + pairs (length entries.now) }
{
    let _ = width;
    let mut matrix = Vec::new(alloc);
    for at in 0..entries.len() {
        let object = entries[at].object();
        // The distances of bytes are symmetric.
        let _ = object.as_slice();
        push_known(entries.len(), at, &mut matrix)?;
        push_row::<M, E, L>(object, &entries[at + 1..], &mut matrix, steps)?;
    }
    Ok(matrix)
}

fn radii<E: Entry>(alloc: Global, entries: &[E]) -> Result<Vec<u32>, AllocError>
    ensures { IfOk result (λ r. r.items ≡ map E.radius entries.now) }
{
    let mut radii = Vec::new(alloc);
    for entry in entries {
        radii.push(entry.radius())?;
    }
    Ok(radii)
}

// The distances of a matrix from one entry.
fn row_at(count: usize, matrix: &[u32], place: usize) -> &[u32]
    requires square { length matrix.now ≡ count * count }
    requires inside { place < count }
    requires at_most { count ≤ 36 }
    ensures value { result.now ≡ row_of count matrix.now place }
    ensures as_long { length result.now ≡ count }
{
    &matrix[place * count..place * count + count]
}

// Gives each entry its side, and its distance to the object there.
fn share_out<E: Entry>(
    alloc: Global,
    sides: &[bool],
    left_row: &[u32],
    right_row: &[u32],
    entries: Vec<E>,
) -> Result<(Items<E>, Items<E>), AllocError>
    requires sides { length entries.items ≤ length sides.now }
    requires left_row { length left_row.now ≡ length entries.items }
    requires right_row { length right_row.now ≡ length entries.items }
    ensures left { IfOk result (λ p.
        p.0 ≡ on_side false sides.now (with_parents E.with_parent left_row.now entries.items)) }
    ensures right { IfOk result (λ p.
        p.1 ≡ on_side true sides.now (with_parents E.with_parent right_row.now entries.items)) }
{
    let mut left = Items::new(alloc);
    let mut right = Items::new(alloc);
    for (k, entry) in entries.into_iter().enumerate() {
        let mut entry = entry;
        if sides[k] {
            entry.set_parent(right_row[k]);
            right.push(entry)?;
        } else {
            entry.set_parent(left_row[k]);
            left.push(entry)?;
        }
    }
    Ok((left, right))
}

// The object of the entry at a place, copied.
#[tactic(auto, using(crate::proofs::Halves::index_map))]
fn object_at<E: Entry>(entries: &[E], place: usize) -> Result<Vector, AllocError>
    requires { place < length entries.now }
    ensures { IfOk result (λ v. v ≡ slice_index_or (map E.object entries.now) place []) }
{
    entries[place].object().copy()
}

/// Splits the entries of a node that has too many: the two halves, each under one of the entries'
/// objects.
pub fn split<M: Metric, E: Entry, L: Ledger>(
    alloc: Global,
    width: u32,
    entries: Vec<E>,
    steps: &mut Steps<L>,
) -> Result<(Half<E>, Half<E>), AllocError>
    requires width { IsWidth width }
    requires vectors { AllByRecursion (λ e. length (E.object e) ≡ width) entries.items }
    requires at_least { 31 ≤ length entries.items }
    requires at_most { length entries.items ≤ 36 }
    ensures left { IfOk result (λ p. p.0 ≡
        left_half M.dist (M.most width) E.object E.radius E.with_parent entries.items) }
    ensures right { IfOk result (λ p. p.1 ≡
        right_half M.dist (M.most width) E.object E.radius E.with_parent entries.items) }
    ensures objects { IfOk result (λ p. (length p.0.object ≡ width) × (length p.1.object ≡ width)) }
    ensures counted { steps.new ≤ steps.old + pairs (length entries.items) }
{
    let count = entries.len();
    let matrix = distances::<M, E, L>(alloc, width, &entries, steps)?;
    let reaches = radii(alloc, &entries)?;
    let parting = choose(count, &matrix, &reaches, M::greatest(width));
    let left_object = object_at(&entries, parting.left)?;
    let right_object = object_at(&entries, parting.right)?;
    let left_row = row_at(count, &matrix, parting.left);
    let right_row = row_at(count, &matrix, parting.right);
    let (left, right) = share_out(alloc, &parting.sides, left_row, right_row, entries)?;
    let left = Half {
        object: left_object,
        radius: parting.left_radius,
        entries: left,
    };
    let right = Half {
        object: right_object,
        radius: parting.right_radius,
        entries: right,
    };
    Ok((left, right))
}
