//! A page of records, written and read: its slots in order.

ghost use Rattle.std.specs.Prelude.{◌≡◌, ◌≢◌, ◌<◌, ◌≤◌, ◌+◌, length, replicate, None};
ghost use Rattle.std.specs.Prelude.{Ok, IfOk, MatchResult};
ghost use Rattle.vec_record.specs.Limits.{width_of};
ghost use Rattle.page_gate.specs.Gate.{number_4};
ghost use Rattle.page_layout.specs.Fields.{IsWhy};
ghost use Rattle.page_layout.specs.Heads.{values_of};
ghost use Rattle.page_layout.specs.Slots.{is_core_count, is_anchor, is_label, AreRows, IsRow};
ghost use Rattle.page_layout.specs.Slots.{slots_in_page, rows_of_page, record_page, FillsRow};
ghost use Rattle.page_layout.specs.Steps.{slot_of, slots_of};

use crate::fault::LayoutFault;
use crate::field::{first_bad, first_set, is_between, word_at};
use crate::slot::{Slot, SlotRows, write_slot};
use crate::spelled::is_spelled;
use page_gate::Page;
use std::alloc::Global;
use vec_record::{Number, Params, Vector};

/// Writes a slot of a page in which it is free.
fn write_row(params: &Params, place: usize, row: &Option<Slot>, out: &mut Page)
    requires place { place < slots_in_page (width_of params.now.metric params.now.dim) }
    requires row { IsRow (values_of params.now) row.now }
    ensures { FillsRow (values_of params.now) place row.now out.old out.new }
{
    if let Some(slot) = row {
        write_slot(params, place, slot.as_view(), out);
    }
}

/// Writes the slots of a page in which all are free.
pub(crate) fn write_rows(params: &Params, rows: &[Option<Slot>], out: &mut Page)
    requires rows { AreRows (values_of params.now) rows.now }
    requires free { out.old ≡ record_page (width_of params.now.metric params.now.dim)
        (replicate (slots_in_page (width_of params.now.metric params.now.dim)) None) }
    ensures { out.new ≡ record_page (width_of params.now.metric params.now.dim) rows.now }
{
    for place in 0..rows.len() {
        write_row(params, place, &rows[place], out);
    }
}

/// Whether a count is that of a core.
fn is_core_count(params: &Params, count: u32) -> bool
    ensures { result ≡ is_core_count (values_of params.now) count }
{
    count >= params.minpts
}

/// Whether an anchor is lawful beside a count.
fn is_anchor(params: &Params, count: u32, anchor: Number) -> bool
    ensures { result ≡ is_anchor (values_of params.now) count anchor }
{
    !is_core_count(params, count) || anchor == 0
}

/// Whether a label is lawful beside a number and a count.
fn is_label(params: &Params, number: Number, count: u32, label: Number) -> bool
    ensures { result ≡ is_label (values_of params.now) number count label }
{
    if is_core_count(params, count) {
        is_between(1, number, label)
    } else {
        label == 0
    }
}

/// Reads a slot that is used.
fn read_used(
    alloc: Global,
    params: &Params,
    page: &[u8],
    at: usize,
) -> Result<Option<Slot>, LayoutFault>
    requires page { length page.now ≡ 16384 }
    requires within { at + 16 + width_of params.now.metric params.now.dim ≤ length page.now }
    requires used { number_4 at page.now ≢ 0 }
    ensures { MatchResult result (λ row. slot_of (values_of params.now) page.now at ≡ Ok row)
        (IsWhy (slot_of (values_of params.now) page.now at)) }
{
    let width = params.width() as usize;
    let vector = &page[at + 16..at + 16 + width];
    let number = word_at(page, at);
    let count = word_at(page, at + 4);
    let anchor = word_at(page, at + 8);
    let label = word_at(page, at + 12);
    let fields = [
        (at as u32 + 4, count >= 1),
        (at as u32 + 8, is_anchor(params, count, anchor)),
        (at as u32 + 12, is_label(params, number, count, label)),
        ((at + 15 + width) as u32, is_spelled(params, vector)),
    ];
    if let Some(offset) = first_bad(&fields) {
        return Err(LayoutFault::Damaged { offset });
    }
    Ok(Some(Slot {
        number,
        count,
        anchor,
        label,
        vector: Vector::from_slice(alloc, vector)?,
    }))
}

/// Reads the slot at an offset.
fn read_slot(
    alloc: Global,
    params: &Params,
    page: &[u8],
    at: usize,
) -> Result<Option<Slot>, LayoutFault>
    requires page { length page.now ≡ 16384 }
    requires within { at + 16 + width_of params.now.metric params.now.dim ≤ length page.now }
    ensures { MatchResult result (λ row. slot_of (values_of params.now) page.now at ≡ Ok row)
        (IsWhy (slot_of (values_of params.now) page.now at)) }
{
    if word_at(page, at) != 0 {
        return read_used(alloc, params, page, at);
    }
    let width = params.width() as usize;
    match first_set(page, at + 4, at + 16 + width) {
        None => Ok(None),
        Some(offset) => Err(LayoutFault::Damaged { offset }),
    }
}

/// Reads the slots from the first on.
fn read_slots(alloc: Global, params: &Params, page: &[u8]) -> Result<SlotRows, LayoutFault>
    requires { length page.now ≡ 16384 }
    ensures { MatchResult result (λ rows. slots_of (values_of params.now) page.now ≡ Ok rows)
        (IsWhy (slots_of (values_of params.now) page.now)) }
{
    let size = 16 + params.width() as usize;
    let slots = 16368 / size;
    let mut rows = SlotRows::with_room(alloc, slots)?;
    for k in 0..slots {
        let row = read_slot(alloc, params, page, 16 + size * k)?;
        rows.push(row)?;
    }
    Ok(rows)
}

/// Reads the bytes of a page of records.
pub(crate) fn read_rows(
    alloc: Global,
    params: &Params,
    page: &[u8],
) -> Result<SlotRows, LayoutFault>
    requires { length page.now ≡ 16384 }
    ensures rows { MatchResult result (λ rows. rows_of_page (values_of params.now) page.now ≡ Ok rows)
        (IsWhy (rows_of_page (values_of params.now) page.now)) }
    ensures lawful { IfOk result (AreRows (values_of params.now)) }
{
    if page[0] != 1 {
        return Err(LayoutFault::Damaged { offset: 0 });
    }
    if let Some(offset) = first_set(page, 1, 16) {
        return Err(LayoutFault::Damaged { offset });
    }
    let rows = read_slots(alloc, params, page)?;
    let size = 16 + params.width() as usize;
    if let Some(offset) = first_set(page, 16 + size * (16368 / size), 16384) {
        return Err(LayoutFault::Damaged { offset });
    }
    Ok(rows)
}
