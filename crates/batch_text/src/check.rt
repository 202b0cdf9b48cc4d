//! Whether changes can apply, before any of them does.

ghost use Rattle.std.specs.Prelude.{◌≡◌, ◌<◌, ◌+◌, ◌^◌, ℕ, List, [], length, Some, cond, IsOk};
ghost use Rattle.std.specs.Prelude.{IfErr, OnOk};
ghost use Rattle.std.specs.Map.{lookup};
ghost use Rattle.std.specs.Ordering.{nat_cmp};
ghost use Rattle.std.specs.BTreeMap.{is_at};
ghost use Rattle.vec_record.specs.Held.{Rows};
ghost use Rattle.batch_text.specs.After.{Explains, after, after_one};
ghost use Rattle.batch_text.specs.Present.{Applied, Stands, has_number};

use crate::faults::CheckFault;
use std::alloc::Global;
use std::collections::BTreeMap;
use vec_record::{Change, Changes, Number, Params, Records};

/// What stands while changes are checked: for each number that a change named, whether it is
/// present now, and how many records there are now. The records themselves are not copied.
#[derive(Drop)]
struct Standing {
    marks: BTreeMap<Number, bool>,
    count: usize,
}

/// Whether a number is present now.
fn has_number(records: &Records, standing: &Standing, number: Number) -> bool
    ensures { result ≡ has_number records.now.vectors standing.now number }
{
    match standing.marks.get(&number) {
        Some(mark) => *mark,
        None => records.get(number).is_some(),
    }
}

/// Marks a number as present or absent.
fn mark(standing: &mut Standing, number: Number, present: bool) -> Result<(), CheckFault>
    ensures marks { OnOk result
        ((n : ℕ) → lookup (is_at (nat_cmp n)) standing.new.marks.entries
        ≡ cond (is_at (nat_cmp number) n) (Some present)
        (lookup (is_at (nat_cmp n)) standing.old.marks.entries)) }
    ensures count { standing.new.count ≡ standing.old.count }
    ensures memory { IfErr result (λ e. e ≡ CheckFault.Memory) }
{
    match standing.marks.insert(number, present) {
        Ok(_) => Ok(()),
        Err(_) => Err(CheckFault::Memory),
    }
}

/// Checks an insertion, and marks its number as present.
fn check_insertion(
    records: &Records,
    cap: u32,
    standing: &mut Standing,
    place: u32,
    number: Number,
) -> Result<(), CheckFault>
    ensures ok { OnOk result ((now : Rows) (v : List ℕ)
        → Stands records.now.vectors standing.old now
        → Applied records.now.vectors standing.new
        (after_one place cap now (Change.Insert number v))) }
    ensures err { IfErr result
        (λ e. (now : Rows) (v : List ℕ) → Stands records.now.vectors standing.old now
        → Explains e (after_one place cap now (Change.Insert number v))) }
{
    if has_number(records, standing, number) {
        return Err(CheckFault::Repeated { place });
    }
    if standing.count >= cap as usize {
        return Err(CheckFault::Full { place });
    }
    standing.count += 1;
    mark(standing, number, true)
}

/// Checks a deletion, and marks its number as absent.
fn check_deletion(
    records: &Records,
    cap: u32,
    standing: &mut Standing,
    place: u32,
    number: Number,
) -> Result<(), CheckFault>
    ensures ok { OnOk result ((now : Rows) → Stands records.now.vectors standing.old now
        → Applied records.now.vectors standing.new
        (after_one place cap now (Change.Delete number))) }
    ensures err { IfErr result
        (λ e. (now : Rows) → Stands records.now.vectors standing.old now
        → Explains e (after_one place cap now (Change.Delete number))) }
{
    if !has_number(records, standing, number) {
        return Err(CheckFault::Unknown { place });
    }
    standing.count = standing.count.saturating_sub(1);
    mark(standing, number, false)
}

/// Checks one change.
fn check_one(
    records: &Records,
    cap: u32,
    standing: &mut Standing,
    place: u32,
    change: &Change,
) -> Result<(), CheckFault>
    ensures ok { OnOk result ((now : Rows) → Stands records.now.vectors standing.old now
        → Applied records.now.vectors standing.new (after_one place cap now change.now)) }
    ensures err { IfErr result
        (λ e. (now : Rows) → Stands records.now.vectors standing.old now
        → Explains e (after_one place cap now change.now)) }
{
    match change {
        Change::Insert(number, _) => check_insertion(records, cap, standing, place, *number),
        Change::Delete(number) => check_deletion(records, cap, standing, place, *number),
    }
}

/// Applies changes, fewer than 4,294,967,296, in their order to the set of the numbers that are
/// present, and answers the first that cannot apply: `Repeated` where an insertion's number is
/// present, `Unknown` where a deletion's number is absent, `Full` where an insertion finds
/// `params.cap` records. With no changes it takes no memory.
pub fn check_batch(
    alloc: Global,
    records: &Records,
    params: &Params,
    changes: &Changes,
) -> Result<(), CheckFault>
    requires { length changes.now < 2 ^ 32 }
    ensures accepts { OnOk result (IsOk (after params.now.cap records.now.vectors changes.now)) }
    ensures refuses { IfErr result
        (λ e. Explains e (after params.now.cap records.now.vectors changes.now)) }
    ensures empty { changes.now ≡ [] → IsOk result }
{
    let mut standing = Standing {
        marks: BTreeMap::new(alloc),
        count: records.len(),
    };
    let mut place = 0u32;
    for change in changes.as_slice() {
        place += 1;
        check_one(records, params.cap, &mut standing, place, change)?;
    }
    Ok(())
}
