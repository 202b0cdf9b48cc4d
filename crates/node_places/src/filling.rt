//! Free slots that are filled, and slots that are added.

ghost use Rattle.std.specs.Prelude.{◌≡◌, ◌<◌, ◌≤◌, ◌++◌, length, drop, OnOk};
ghost use Rattle.node_places.specs.Slots.{filled, padded};

use std::alloc::AllocError;

/// Gives numbers the free slots in order, and says how many found one.
fn fill(slots: &mut [u32], new: &[u32]) -> usize
    ensures within { result ≤ length new.now }
    ensures filled { slots.new ++ drop result new.now ≡ filled slots.old new.now }
{
    let mut next = 0;
    for slot in slots.iter_mut() {
        if *slot == 0 && next < new.len() {
            *slot = new[next];
            next += 1;
        }
    }
    next
}

/// Gives numbers the free slots in order, and slots behind the last.
pub(crate) fn give(slots: &mut Vec<u32>, new: &[u32]) -> Result<(), AllocError>
    ensures { OnOk result (slots.new.items ≡ filled slots.old.items new.now) }
{
    let used = fill(slots, new);
    slots.extend_from_slice(&new[used..])
}

/// Adds free slots up to a whole number of pages.
pub(crate) fn pad(slots: &mut Vec<u32>, size: usize) -> Result<(), AllocError>
    requires some { 0 < size }
    requires few { size ≤ 16384 }
    ensures { OnOk result (slots.new.items ≡ padded size slots.old.items) }
{
    let more = (size - slots.len() % size) % size;
    slots.resize(slots.len() + more, 0)
}
