//! Slots found by their place among all slots, and how many pages there may be.

ghost use Rattle.std.specs.Prelude.{◌≡◌, ◌<◌, ◌≤◌, ◌+◌, ◌^◌, ℕ, List, length, get_or, count_by};
ghost use Rattle.std.specs.Prelude.{◌==◌};
ghost use Rattle.vec_record.specs.Vectors.{IsWidth};
ghost use Rattle.vec_record.specs.Limits.{width_of};
ghost use Rattle.node_places.specs.Nodes.{pages_from};
ghost use Rattle.page_layout.specs.declared.body.Body.{Body};
ghost use Rattle.page_layout.specs.Heads.{values_of};
ghost use Rattle.page_layout.specs.Slots.{slots_in_page};
ghost use Rattle.store_image.specs.Contents.{kinds_of};
ghost use Rattle.store_image.specs.Loading.{record_limit, leaf_limit, inner_limit, are_few};
ghost use Rattle.store_image.specs.Loading.{slot_fault, used_slots};

use crate::fault::StoreFault;
use vec_record::{Number, Params};

/// How many slots a record page has.
fn slots_in_page(params: &Params) -> usize
    ensures value { result ≡ slots_in_page (width_of params.now.metric params.now.dim) }
    ensures width { IsWidth (width_of params.now.metric params.now.dim) }
{
    16368 / (16 + params.width() as usize)
}

/// The most record pages.
fn record_limit(params: &Params) -> usize
    ensures { result ≡ record_limit (values_of params.now) }
{
    let size = slots_in_page(params);
    (params.cap as usize + size - 1) / size
}

/// How many pages are of a kind.
fn count_of(kind: u8, kinds: &[u8]) -> usize
    ensures { result ≡ count_by (λ k. k == kind) kinds.now }
{
    kinds.iter().filter(|k| **k == kind).count()
}

/// Whether there are no more pages of each kind than needed.
pub(crate) fn are_few(params: &Params, kinds: &[u8]) -> bool
    ensures { (bodies : List Body) → kinds.now ≡ kinds_of bodies
        → result ≡ are_few (values_of params.now) bodies }
{
    let leaf_limit = (params.cap as usize / 7 + 63) / 63;
    let inner_limit = params.cap as usize / 42 + 1;
    count_of(1, kinds) <= record_limit(params)
        && count_of(2, kinds) <= leaf_limit
        && count_of(3, kinds) <= inner_limit
}

/// The page of the record pages that has this place among them, counted from 0; 0 where there is
/// none.
fn record_page(kinds: &[u8], place: usize) -> u32
    requires { length kinds.now + 2 < 2 ^ 32 }
    ensures { result ≡ get_or (pages_from 1 2 kinds.now) place 0 }
{
    let mut left = place;
    for i in 0..kinds.len() {
        if kinds[i] == 1 {
            if left == 0 {
                return i as u32 + 2;
            }
            left -= 1;
        }
    }
    0
}

/// The fault at a field of a slot, counted over all record pages.
pub(crate) fn slot_fault(params: &Params, kinds: &[u8], place: usize, field: u32) -> StoreFault
    requires pages { length kinds.now + 2 < 2 ^ 32 }
    requires field { field ≤ 12 }
    ensures { result
        ≡ slot_fault (width_of params.now.metric params.now.dim) kinds.now place field }
{
    let size = slots_in_page(params);
    let offset = 16 + (16 + params.width()) * (place % size) as u32 + field;
    StoreFault::Damaged {
        page: record_page(kinds, place / size),
        offset,
    }
}

/// The used slot that has this place among them, counted from 0; 0 where there is none.
pub(crate) fn used_slot(numbers: &[Number], place: usize) -> usize
    ensures { result ≡ get_or (used_slots numbers.now) place 0 }
{
    let mut left = place;
    for i in 0..numbers.len() {
        if numbers[i] != 0 {
            if left == 0 {
                return i;
            }
            left -= 1;
        }
    }
    0
}
