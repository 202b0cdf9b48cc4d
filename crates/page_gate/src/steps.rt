//! What a commit and a new store write: numbers, gates, redo items and images.

ghost use Rattle.std.specs.Prelude.{◌≡◌, ◌≢◌, ◌≤◌, ◌<◌, ◌+◌, ◌-◌, ◌*◌, ◌^◌, [], ◌∷◌, length};
ghost use Rattle.std.specs.Prelude.{get_or, IsTrue};
ghost use Rattle.site_disk.specs.Causes.{HasCause};
ghost use Rattle.site_disk.specs.Disk.{put};
ghost use Rattle.page_gate.specs.Gate.{number_4, number_8, items, rises};
ghost use Rattle.page_gate.specs.Same.{IsOutside, Puts, Keeps};
ghost use Rattle.page_gate.specs.Steps.{IsWord, IsNumber, IsItem, HasItems, IsThere, IsOther};
ghost use Rattle.page_gate.specs.Steps.{IsBefore, IsUnnamed, InPlace};
ghost use Rattle.page_gate.specs.Writes.{pairs, new_count};

use crate::page::PageWrite;
use site_disk::{Failed, Site};

/// The bytes of a page, and of a redo item.
pub(crate) const PAGE_SIZE: u64 = 16384;

pub(crate) const ITEM_BYTES: u64 = 16392;

/// Writes a number of 4 bytes.
pub(crate) fn write_number_4<T: Site>(site: &mut T, at: u64, number: u32) -> Result<(), Failed>
    requires { at + 4 ≤ 2 ^ 63 - 1 }
    ensures cause { HasCause (T.faults site.old) (T.faults site.new) result }
    ensures told { IsTrue T.tells
        → Puts (IsOutside at 4) (at + 4) (IsWord at number) result (T.state site.old)
        (T.state site.new) }
{
    site.write_at(at, &number.to_le_bytes())
}

/// Writes a number of 8 bytes.
pub(crate) fn write_number_8<T: Site>(site: &mut T, at: u64, number: u64) -> Result<(), Failed>
    requires { at + 8 ≤ 2 ^ 63 - 1 }
    ensures cause { HasCause (T.faults site.old) (T.faults site.new) result }
    ensures told { IsTrue T.tells
        → Puts (IsOutside at 8) (at + 8) (IsNumber at number) result (T.state site.old)
        (T.state site.new) }
{
    site.write_at(at, &number.to_le_bytes())
}

/// Writes a whole page or an image of one.
pub(crate) fn write_image<T: Site>(site: &mut T, at: u64, image: &[u8]) -> Result<(), Failed>
    requires room { at + 16384 ≤ 2 ^ 63 - 1 }
    requires page { length image.now ≡ 16384 }
    ensures cause { HasCause (T.faults site.old) (T.faults site.new) result }
    ensures told { IsTrue T.tells
        → Puts (IsOutside at 16384) (at + 16384) (IsThere at image.now) result (T.state site.old)
        (T.state site.new) }
{
    site.write_at(at, image)
}

/// Writes a redo item: the number of a page, and its image.
fn write_item<T: Site>(site: &mut T, at: u64, page: u32, image: &[u8]) -> Result<(), Failed>
    requires room { at + 16392 ≤ 2 ^ 63 - 1 }
    requires page { length image.now ≡ 16384 }
    ensures cause { HasCause (T.faults site.old) (T.faults site.new) result }
    ensures told { IsTrue T.tells
        → Puts (IsOutside at 16392) (at + 16392) (IsItem at page image.now) result
        (T.state site.old) (T.state site.new) }
{
    write_number_8(site, at, u64::from(page))?;
    write_image(site, at + 8, image)
}

/// Sets the redo gate, and makes that the only image.
pub(crate) fn turn_gate<T: Site>(site: &mut T, gate: u8) -> Result<(), Failed>
    ensures cause { HasCause (T.faults site.old) (T.faults site.new) result }
    ensures told { IsTrue T.tells
        → Keeps (IsOther 1) 2 (λ c. get_or c 1 0 ≡ gate) result (T.state site.old)
        (T.state site.new) }
{
    site.write_at(1, &[gate])?;
    site.sync()
}

/// Writes the redo items of some writes, one behind the other.
pub(crate) fn write_items<T: Site>(
    site: &mut T,
    start: u64,
    writes: &[PageWrite],
) -> Result<(), Failed>
    requires { start + 16392 * length writes.now ≤ 2 ^ 63 - 1 }
    ensures cause { HasCause (T.faults site.old) (T.faults site.new) result }
    ensures told { IsTrue T.tells
        → Puts (IsBefore start) (start + 16392 * length writes.now)
        (HasItems start (length writes.now) (pairs writes.now)) result (T.state site.old)
        (T.state site.new) }
{
    for k in 0..writes.len() {
        let write = &writes[k];
        let at = start + ITEM_BYTES * k as u64;
        write_item(site, at, write.page, write.bytes.as_slice())?;
    }
    Ok(())
}

/// Writes the images of some writes in their places.
pub(crate) fn write_pages<T: Site>(site: &mut T, writes: &[PageWrite]) -> Result<(), Failed>
    requires { IsTrue (rises 0 (new_count (pairs writes.now)) (pairs writes.now)) }
    ensures cause { HasCause (T.faults site.old) (T.faults site.new) result }
    ensures told { IsTrue T.tells
        → Puts (IsUnnamed (pairs writes.now)) (16384 * new_count (pairs writes.now))
        (InPlace (pairs writes.now)) result (T.state site.old) (T.state site.new) }
{
    for k in 0..writes.len() {
        let write = &writes[k];
        let at = PAGE_SIZE * u64::from(write.page);
        write_image(site, at, write.bytes.as_slice())?;
    }
    Ok(())
}
