//! A slot of a page of records: one record with its line.

ghost use Rattle.std.specs.Prelude.{◌≡◌, ◌≤◌, ◌<◌, ◌+◌, ℕ, [], ◌∷◌, ◌++◌, length, take, drop, set};
ghost use Rattle.std.specs.Prelude.{replicate, Some, None, OnOk, OnErr, IfOk};
ghost use Rattle.vec_record.specs.Limits.{width_of};
ghost use Rattle.page_layout.specs.Heads.{values_of};
ghost use Rattle.page_layout.specs.Slots.{IsSlot, lent, slots_in_page, slot_bytes};
ghost use Rattle.page_layout.specs.Slots.{record_page, PutsRow};

use crate::field::put_words;
use page_gate::Page;
use std::alloc::{AllocError, Global};
use std::marker::Model;
use vec_record::{Number, Params, Vector};

/// A record with its line, as it stands in a slot.
#[derive(Drop)]
pub struct Slot {
    pub number: Number,
    /// The size of its neighbourhood.
    pub count: u32,
    /// The anchor of a record that is no core, or 0.
    pub anchor: Number,
    /// The label of a core, or 0.
    pub label: Number,
    pub vector: Vector,
}

/// A record that is lent to be written.
#[derive(Clone, Copy)]
pub struct SlotView<'a> {
    pub number: Number,
    pub count: u32,
    pub anchor: Number,
    pub label: Number,
    pub vector: &'a Vector,
}

/// The slots of a page, `None` where one is free.
#[derive(Drop)]
pub struct SlotRows {
    items: Vec<Option<Slot>>,
}

impl Model for SlotRows {
    ghost use Rattle.std.specs.Prelude.{List, Option};
    ghost use Rattle.page_layout.specs.declared.slot.Slot.{Slot};

    ghost Value = { List (Option Slot) };

    ghost view = { λ r. r.items.items };
}

impl Slot {
    /// The record, lent to be written.
    pub fn as_view(&self) -> SlotView<'_>
        ensures { lent result ≡ self.now }
    {
        SlotView {
            number: self.number,
            count: self.count,
            anchor: self.anchor,
            label: self.label,
            vector: &self.vector,
        }
    }
}

impl SlotRows {
    /// No slots.
    pub fn new(alloc: Global) -> SlotRows
        ensures { result ≡ [] }
    {
        SlotRows {
            items: Vec::new(alloc),
        }
    }

    /// No slots, with room for so many.
    pub(crate) fn with_room(alloc: Global, slots: usize) -> Result<SlotRows, AllocError>
        ensures { IfOk result (λ rows. rows ≡ []) }
    {
        Ok(SlotRows {
            items: Vec::with_capacity(alloc, slots)?,
        })
    }

    pub fn push(&mut self, item: Option<Slot>) -> Result<(), AllocError>
        ensures ok { OnOk result (self.new ≡ self.old ++ item ∷ []) }
        ensures err { OnErr result (self.new ≡ self.old) }
    {
        self.items.push(item)?;
        Ok(())
    }

    pub fn len(&self) -> usize
        ensures { result ≡ length self.now }
    {
        self.items.len()
    }

    pub fn as_slice(&self) -> &[Option<Slot>]
        ensures { result.now ≡ self.now }
    {
        &self.items
    }

    /// The slots themselves, in their order.
    pub fn into_vec(self) -> Vec<Option<Slot>>
        ensures { result.items ≡ self }
    {
        self.items
    }
}

/// Fills a page of records with free slots, whatever their width.
pub fn clear_slots(out: &mut Page)
    ensures { (width : ℕ) → out.new ≡ record_page width (replicate (slots_in_page width) None) }
{
    out.clear();
    out.set(0, 1);
}

/// Writes a record from the offset on.
fn put_slot(out: &mut Page, at: usize, slot: SlotView<'_>)
    requires { at + 16 + length slot.vector.now ≤ 16384 }
    ensures { out.new ≡ take at out.old ++ slot_bytes (length slot.entry.vector.now)
        (Some (lent slot.entry)) ++ drop (at + 16 + length slot.entry.vector.now) out.old }
{
    put_words(out, at, &[slot.number, slot.count, slot.anchor, slot.label]);
    out.put(at + 16, slot.vector.as_slice());
}

/// Puts a record into its place in a page of records, and leaves the other slots as they are.
pub fn write_slot(params: &Params, place: usize, slot: SlotView<'_>, out: &mut Page)
    requires place { place < slots_in_page (width_of params.now.metric params.now.dim) }
    requires slot { IsSlot (values_of params.now) (lent slot) }
    ensures written { PutsRow (values_of params.now) place (Some (lent slot.entry))
        out.old out.new }
{
    let width = params.width() as usize;
    put_slot(out, 16 + (16 + width) * place, slot);
}
