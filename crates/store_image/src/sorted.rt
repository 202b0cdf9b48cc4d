//! The parts of body pages, checked as far as each stands for itself.

ghost use Rattle.std.specs.Prelude.{◌≡◌, ◌<◌, ◌+◌, ◌^◌, [], ◌∷◌, ◌++◌, length, map, Some, None};
ghost use Rattle.std.specs.Prelude.{IfErr, OnOk, MatchResult};
ghost use Rattle.std.specs.List.{AllByRecursion};
ghost use Rattle.std.specs.FinMap as maps;
ghost use Rattle.vec_record.specs.Limits.{width_of};
ghost use Rattle.page_layout.specs.Heads.{values_of};
ghost use Rattle.page_layout.specs.Slots.{Rows, IsSlot, IsRow};
ghost use Rattle.page_layout.specs.Bodies.{IsBody};
ghost use Rattle.store_image.specs.Images.{number_of};
ghost use Rattle.store_image.specs.Loading.{Fails};
ghost use Rattle.store_image.specs.inside.Reads.{repeats, parted, MayRepeat, Taking, Took};
ghost use Rattle.store_image.specs.inside.Reads.{ArePartsOf, line_with};

use crate::contents::take_apart;
use crate::fault::StoreFault;
use crate::finding::{are_few, slot_fault};
use node_refs::NodePage;
use page_layout::{Body, Slot};
use std::alloc::{AllocError, Global};
use stored_lines::Line;
use vec_record::{Number, Params, Records};

/// The parts of body pages: the kind of each page, the numbers by record slot, the lines of the
/// used slots, the pages as far as the tree is concerned, and the records.
#[derive(Drop)]
pub(crate) struct Sorted {
    pub kinds: Vec<u8>,
    pub numbers: Vec<Number>,
    pub lines: Vec<Line>,
    pub nodes: Vec<NodePage>,
    pub records: Records,
}

/// What was taken of slots.
#[derive(Drop)]
struct Taken {
    numbers: Vec<Number>,
    lines: Vec<Line>,
    records: Records,
}

/// Takes a record under a number that wasn't there.
fn take_record(
    params: &Params,
    kinds: &[u8],
    place: usize,
    slot: Slot,
    records: &mut Records,
) -> Result<(), StoreFault>
    requires pages { length kinds.now + 2 < 2 ^ 32 }
    requires slot { IsSlot (values_of params.now) slot }
    requires width { records.old.width ≡ width_of params.now.metric params.now.dim }
    ensures absent { OnOk result (maps.get records.old.vectors slot.number ≡ None) }
    ensures taken { OnOk result
        (records.new ≡ record records.old
        { vectors = maps.insert records.old.vectors slot.number slot.vector }) }
    ensures err { IfErr result (MayRepeat (values_of params.now) kinds.now place
        (maps.get records.old.vectors slot.number)) }
{
    if records.get(slot.number).is_some() {
        return Err(slot_fault(params, kinds, place, 0));
    }
    records.insert(slot.number, slot.vector)?;
    Ok(())
}

/// The line of a slot.
fn line_in(slot: &Slot) -> Line
    ensures { result ≡ line_with slot.now }
{
    Line {
        number: slot.number,
        count: slot.count,
        anchor: slot.anchor,
        label: slot.label,
    }
}

/// Adds a number, or says that memory is wanting.
fn push_number(numbers: &mut Vec<Number>, number: Number) -> Result<(), AllocError>
    ensures { OnOk result (numbers.new.items ≡ numbers.old.items ++ number ∷ []) }
{
    numbers.push(number)?;
    Ok(())
}

/// Adds a line, or says that memory is wanting.
fn push_line(lines: &mut Vec<Line>, line: Line) -> Result<(), AllocError>
    ensures { OnOk result (lines.new.items ≡ lines.old.items ++ line ∷ []) }
{
    lines.push(line)?;
    Ok(())
}

/// Takes a used slot.
fn take_used(params: &Params, kinds: &[u8], slot: Slot, taken: &mut Taken) -> Result<(), StoreFault>
    requires pages { length kinds.now + 2 < 2 ^ 32 }
    requires slot { IsSlot (values_of params.now) slot }
    requires width { taken.old.records.width ≡ width_of params.now.metric params.now.dim }
    ensures { (all rest : Rows)
        → Taking (values_of params.now) all (Some slot ∷ rest) taken.old.numbers.items
        taken.old.lines.items taken.old.records
        → MatchResult result (λ _. Taking (values_of params.now) all rest taken.new.numbers.items
        taken.new.lines.items taken.new.records)
        (λ e. Fails e (repeats (values_of params.now) kinds.now (map number_of all))) }
{
    let line = line_in(&slot);
    let place = taken.numbers.len();
    take_record(params, kinds, place, slot, &mut taken.records)?;
    push_number(&mut taken.numbers, line.number)?;
    push_line(&mut taken.lines, line)?;
    Ok(())
}

/// Takes the next slot.
fn take_slot(
    params: &Params,
    kinds: &[u8],
    row: Option<Slot>,
    taken: &mut Taken,
) -> Result<(), StoreFault>
    requires pages { length kinds.now + 2 < 2 ^ 32 }
    requires row { IsRow (values_of params.now) row }
    requires width { taken.old.records.width ≡ width_of params.now.metric params.now.dim }
    ensures { (all rest : Rows)
        → Taking (values_of params.now) all (row ∷ rest) taken.old.numbers.items
        taken.old.lines.items taken.old.records
        → MatchResult result (λ _. Taking (values_of params.now) all rest taken.new.numbers.items
        taken.new.lines.items taken.new.records)
        (λ e. Fails e (repeats (values_of params.now) kinds.now (map number_of all))) }
{
    match row {
        Some(slot) => take_used(params, kinds, slot, taken),
        None => {
            push_number(&mut taken.numbers, 0)?;
            Ok(())
        }
    }
}

/// Takes all slots: their numbers, their lines and their records.
fn take_slots(
    alloc: Global,
    params: &Params,
    kinds: &[u8],
    slots: Vec<Option<Slot>>,
) -> Result<Taken, StoreFault>
    requires pages { length kinds.now + 2 < 2 ^ 32 }
    requires lawful { AllByRecursion (IsRow (values_of params.now)) slots.items }
    ensures { MatchResult result (λ t. Took (values_of params.now) slots.items t.numbers.items
        t.lines.items t.records)
        (λ e. Fails e (repeats (values_of params.now) kinds.now (map number_of slots.items))) }
{
    let numbers = Vec::new(alloc);
    let lines = Vec::new(alloc);
    let records = Records::new(alloc, params.width());
    let mut taken = Taken {
        numbers,
        lines,
        records,
    };
    let mut left = slots;
    left.reverse();
    while let Some(row) = left.pop() {
        take_slot(params, kinds, row, &mut taken)?;
    }
    Ok(taken)
}

/// The parts of body pages, where the pages are few enough and no number stands in two slots.
pub(crate) fn sort_bodies(
    alloc: Global,
    params: &Params,
    bodies: Vec<Body>,
) -> Result<Sorted, StoreFault>
    requires { AllByRecursion (IsBody (values_of params.now)) bodies.items }
    ensures { MatchResult result (ArePartsOf (values_of params.now) bodies.items)
        (λ e. Fails e (parted (values_of params.now) bodies.items)) }
{
    let contents = take_apart(alloc, bodies)?;
    let few = are_few(params, &contents.kinds);
    if !few {
        return Err(StoreFault::Damaged { page: 1, offset: 0 });
    }
    let kinds = contents.kinds;
    let taken = take_slots(alloc, params, &kinds, contents.slots)?;
    Ok(Sorted {
        kinds,
        numbers: taken.numbers,
        lines: taken.lines,
        nodes: contents.nodes,
        records: taken.records,
    })
}
