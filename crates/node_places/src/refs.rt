//! The references of slots.

ghost use Rattle.std.specs.Prelude.{◌≡◌, ◌+◌, ◌*◌, ◌<◌, ◌≤◌, ◌^◌, ◌++◌, length, IfOk, OnOk};
ghost use Rattle.std.specs.List.{range_with_len};
ghost use Rattle.node_places.specs.Nodes.{refs_from};

use std::alloc::{AllocError, Global};

/// Adds the references of the slots of a page.
fn add_page(refs: &mut Vec<u32>, page: u32, slots: u32) -> Result<(), AllocError>
    requires page { page < 2 ^ 26 }
    requires slots { slots ≤ 64 }
    ensures { OnOk result
        (refs.new.items ≡ refs.old.items ++ range_with_len (64 * page) slots) }
{
    for slot in 0..slots {
        refs.push(64 * page + slot)?;
    }
    Ok(())
}

/// The references of the slots of the pages of a kind, rising, with so many slots in a page.
pub(crate) fn refs_of(
    alloc: Global,
    kinds: &[u8],
    kind: u8,
    slots: u32,
) -> Result<Vec<u32>, AllocError>
    requires pages { length kinds.now + 2 < 2 ^ 26 }
    requires slots { slots ≤ 64 }
    ensures { IfOk result (λ v. v.items ≡ refs_from kind slots 2 kinds.now) }
{
    let mut refs = Vec::new(alloc);
    for (k, its) in kinds.iter().enumerate() {
        if *its == kind {
            add_page(&mut refs, k as u32 + 2, slots)?;
        }
    }
    Ok(refs)
}
