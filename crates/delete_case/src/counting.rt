//! Counts and cores, as one record less changes them.

ghost use Rattle.std.specs.Prelude.{◌≡◌, [], ℕ, OnOk, IsSome, IsTrue, ◌↔◌};
ghost use Rattle.std.specs.FinMap as map;
ghost use Rattle.count_book.specs.Counted.{CeasedToBeCore, updated};
ghost use Rattle.label_book.specs.Labels.{IsMember, EachOnce};
ghost use Rattle.delete_case.specs.Counting.{lowered, AreCountedOut};
ghost use Rattle.delete_case.specs.inside.Lowering.{IsLowered};

use count_book::CountBook;
use std::alloc::AllocError;
use vec_record::{Number, Numbers};

/// Counts one less at each record near the deleted one, takes that one out, and gives in `lost` the
/// records that ceased to be core by this. `around` is what is near the deleted record and remains.
pub(crate) fn count_out(
    counts: &mut CountBook,
    number: Number,
    around: &[Number],
    lost: &mut Numbers,
) -> Result<(), AllocError>
    requires once { EachOnce around.now }
    requires there { (q : ℕ) → IsMember around.now q → IsSome (map.get counts.old.rows q) }
    requires other { IsMember around.now number → ⊥ }
    requires empty { lost.old ≡ [] }
    ensures { OnOk result (AreCountedOut number around.now counts.old counts.new lost.new) }
{
    for i in 0..around.len() {
        lower(counts, around[i], lost)?;
    }
    counts.leave(number);
    Ok(())
}

// Counts one less at a record. Where it ceased to be core it comes behind the lost ones.
fn lower(counts: &mut CountBook, number: Number, lost: &mut Numbers) -> Result<(), AllocError>
    requires { IsSome (map.get counts.old.rows number) }
    ensures { OnOk result (IsLowered number counts.old counts.new lost.old lost.new) }
{
    if ceases(counts, number) {
        lost.push(number)?;
    }
    Ok(())
}

// Counts one less at a record, but for a count of 1; true exactly where it ceased to be core.
fn ceases(counts: &mut CountBook, number: Number) -> bool
    requires { IsSome (map.get counts.old.rows number) }
    ensures book { counts.new ≡ updated lowered counts.old number }
    ensures value { IsTrue result ↔ CeasedToBeCore counts.old counts.new number }
{
    match counts.count_of(number) {
        Some(count) => {
            if count > 1 {
                return counts.drop_one(number);
            }
            false
        }
        None => false,
    }
}
