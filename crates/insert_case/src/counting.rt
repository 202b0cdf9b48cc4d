//! Counts and cores, as one record more changes them.

ghost use Rattle.std.specs.Prelude.{◌≡◌, ◌≢◌, ℕ, ◌<◌, None, Some, IsSome, IfOk, OnOk, length};
ghost use Rattle.std.specs.FinMap as map;
ghost use Rattle.count_book.specs.Counted.{IsCore};
ghost use Rattle.label_book.specs.Labels.{IsMember, EachOnce};
ghost use Rattle.insert_case.specs.Told.{AreNewCores};
ghost use Rattle.insert_case.specs.inside.Counting.{first_row, first_labelled, IsNoted};
ghost use Rattle.insert_case.specs.inside.Counting.{ChangesRow, IsRaised, AreRaised, IsCountedIn};

use count_book::CountBook;
use label_book::LabelBook;
use std::alloc::{AllocError, Global};
use vec_record::{Number, Numbers};

/// Counts the new record at each record near it and enters it, and gives the records that became
/// core by this. `around` is what is near the new record, itself among it.
pub(crate) fn count_in(
    alloc: Global,
    counts: &mut CountBook,
    labels: &LabelBook,
    number: Number,
    around: &[Number],
) -> Result<Numbers, AllocError>
    requires absent { map.get counts.old.rows number ≡ None }
    requires there { (q : ℕ) → IsMember around.now q → q ≢ number
        → IsSome (map.get counts.old.rows q) }
    requires once { EachOnce around.now }
    requires few { length around.now < 4294967296 }
    ensures counts { OnOk result (IsCountedIn labels.now number around.now counts.old counts.new) }
    ensures cores { IfOk result (AreNewCores counts.old counts.new) }
{
    let mut cores = raise_all(alloc, counts, number, around)?;
    enter(counts, labels, number, around)?;
    if counts.is_core(number) {
        cores.push(number)?;
    }
    Ok(cores)
}

// Counts one more at each of these records but the new one, and gives those that became core by
// this.
fn raise_all(
    alloc: Global,
    counts: &mut CountBook,
    number: Number,
    around: &[Number],
) -> Result<Numbers, AllocError>
    requires there { (q : ℕ) → IsMember around.now q → q ≢ number
        → IsSome (map.get counts.old.rows q) }
    requires once { EachOnce around.now }
    ensures counts { OnOk result (AreRaised number around.now counts.old counts.new) }
    ensures cores { IfOk result (AreNewCores counts.old counts.new) }
{
    let mut cores = Numbers::new(alloc);
    for i in 0..around.len() {
        if around[i] != number {
            raise(counts, around[i], &mut cores)?;
        }
    }
    Ok(cores)
}

// Counts one more at a record, and notes it where it became core. It has no anchor any longer then.
fn raise(counts: &mut CountBook, number: Number, cores: &mut Numbers) -> Result<(), AllocError>
    requires { IsSome (map.get counts.old.rows number) }
    ensures counts { OnOk result (IsRaised number counts.old counts.new) }
    ensures stays { IsCore counts.old number → IsCore counts.new number }
    ensures cores { OnOk result (IsNoted counts.old counts.new number cores.old cores.new) }
{
    if counts.add_one(number) {
        counts.set_anchor(number, None);
        cores.push(number)?;
    }
    Ok(())
}

// Enters the new record, with the first labelled one near it as its anchor where it isn't core.
fn enter(
    counts: &mut CountBook,
    labels: &LabelBook,
    number: Number,
    around: &[Number],
) -> Result<(), AllocError>
    requires absent { map.get counts.old.rows number ≡ None }
    requires few { length around.now < 4294967296 }
    ensures { OnOk result (ChangesRow number
        (Some (first_row counts.old.minpts labels.now around.now)) counts.old counts.new) }
{
    counts.enter(number, around.len() as u32, None)?;
    if !counts.is_core(number) {
        counts.set_anchor(number, first_core(labels, around));
    }
    Ok(())
}

// The first of these numbers that has a label.
fn first_core(labels: &LabelBook, around: &[Number]) -> Option<Number>
    ensures { result ≡ first_labelled labels.now around.now }
{
    for i in 0..around.len() {
        if labels.label_of(around[i]).is_some() {
            return Some(around[i]);
        }
    }
    None
}
