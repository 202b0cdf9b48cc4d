//! The record slots after a save.

ghost use Rattle.std.specs.Prelude.{◌≡◌, ◌<◌, ◌≤◌, ◌==◌, ◌||◌, ℕ, false, if◌then◌else◌};
ghost use Rattle.std.specs.Prelude.{length, map, get_or, IfOk, OnOk};
ghost use Rattle.node_places.specs.Slots.{has, record_slots};
ghost use Rattle.node_places.specs.Rising.{IsRising};
ghost use Rattle.node_places.specs.inside.Marks.{unmarked};

use crate::filling::{give, pad};
use std::alloc::{AllocError, Global};
use vec_record::{Number, Records};

/// The number where it is in the list, which marks it there, else 0.
fn marked(numbers: &[Number], number: Number, marks: &mut [bool]) -> Number
    requires rising { IsRising numbers.now }
    requires long { length marks.old ≡ length numbers.now }
    ensures number { result ≡ (if has numbers.now number then number else 0) }
    ensures marks { (k : ℕ) → k < length numbers.now → get_or marks.new k false
        ≡ (get_or marks.old k false || (number == get_or numbers.now k 0)) }
{
    match numbers.binary_search(&number) {
        Ok(at) => {
            marks[at] = true;
            number
        }
        Err(_) => 0,
    }
}

/// The numbers by slot, with 0 for those that aren't in the list; those that are are marked there.
fn freed(
    alloc: Global,
    slots: &[Number],
    numbers: &[Number],
    marks: &mut [bool],
) -> Result<Vec<Number>, AllocError>
    requires rising { IsRising numbers.now }
    requires long { length marks.old ≡ length numbers.now }
    requires clean { (k : ℕ) → k < length numbers.now → get_or marks.old k false ≡ false }
    ensures slots { IfOk result (λ v. v.items
        ≡ map (λ n. if has numbers.now n then n else 0) slots.now) }
    ensures marks { OnOk result ((k : ℕ) → k < length numbers.now → get_or marks.new k false
        ≡ has slots.now (get_or numbers.now k 0)) }
{
    let mut freed = Vec::new(alloc);
    for number in slots {
        freed.push(marked(numbers, *number, marks))?;
    }
    Ok(freed)
}

/// The numbers of a list that aren't marked.
fn unmarked(alloc: Global, numbers: &[Number], marks: &[bool]) -> Result<Vec<Number>, AllocError>
    requires { length marks.now ≡ length numbers.now }
    ensures { IfOk result (λ v. v.items ≡ unmarked marks.now numbers.now) }
{
    let mut new = Vec::new(alloc);
    for (k, number) in numbers.iter().enumerate() {
        if !marks[k] {
            new.push(*number)?;
        }
    }
    Ok(new)
}

/// The numbers by slot after a save of the records, with so many slots in a page: what is no longer
/// there is freed, what is new takes the lowest free slots, and new pages come behind the last.
/// One pass over the slots, with one look-up each, and one over the numbers of the records.
pub fn record_slots(
    alloc: Global,
    size: usize,
    records: &Records,
    numbers: &[Number],
) -> Result<Vec<Number>, AllocError>
    requires some { 0 < size }
    requires few { size ≤ 16384 }
    ensures { IfOk result (λ v. v.items ≡ record_slots size records.now.vectors numbers.now) }
{
    let held = records.numbers()?;
    let held = held.as_slice();
    let mut marks = vec![in alloc; false; held.len()]?;
    let mut slots = freed(alloc, numbers, held, &mut marks)?;
    let new = unmarked(alloc, held, &marks)?;
    give(&mut slots, &new)?;
    pad(&mut slots, size)?;
    Ok(slots)
}
