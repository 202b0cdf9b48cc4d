//! The commit: pages written by way of redo items, so that all change or none.

ghost use Rattle.std.specs.Prelude.{◌≡◌, ◌<◌, ◌≤◌, ◌+◌, ◌-◌, ◌*◌, ◌^◌, length, IsTrue, OnOk, OnErr};
ghost use Rattle.site_disk.specs.Causes.{HasCause};
ghost use Rattle.page_gate.specs.Gate.{count_of, rises};
ghost use Rattle.page_gate.specs.Writes.{pairs, written, new_count, IsPlan};
ghost use Rattle.page_gate.specs.Same.{IsOutside, Puts, Keeps};
ghost use Rattle.page_gate.specs.Steps.{HasFields, Staged, IsSettled, IsUnnamed, InPlace};
ghost use Rattle.page_gate.specs.Promises.{Holds, Commits, IsBehind};

use crate::gate::number_4;
use crate::page::{PageWrite, PageWrites};
use crate::pages::Pages;
use crate::steps::{
    PAGE_SIZE, turn_gate, write_items, write_number_4, write_number_8, write_pages,
};
use site_disk::{Failed, Site};

/// The number of pages that page 1 of the writes brings.
fn new_count(writes: &[PageWrite]) -> u32
    ensures { result ≡ new_count (pairs writes.now) }
{
    if writes.is_empty() {
        return 0;
    }
    let first = &writes[0];
    number_4(first.bytes.as_slice(), 0)
}

/// Writes where the redo items start and how many they are.
fn write_redo_fields<T: Site>(site: &mut T, start: u64, count: u32) -> Result<(), Failed>
    ensures cause { HasCause (T.faults site.old) (T.faults site.new) result }
    ensures told { IsTrue T.tells
        → Puts (IsOutside 8 12) 20 (HasFields start count) result (T.state site.old)
        (T.state site.new) }
{
    write_number_8(site, 8, start)?;
    write_number_4(site, 16, count)
}

/// The first step: the redo items stand behind the file, with the redo gate closed.
fn stage<T: Site>(site: &mut T, start: u64, writes: &[PageWrite]) -> Result<(), Failed>
    requires start { 20 ≤ start }
    requires some { 0 < length writes.now }
    requires count { length writes.now < 2 ^ 32 }
    requires room { start + 16392 * length writes.now ≤ 2 ^ 63 - 1 }
    ensures cause { HasCause (T.faults site.old) (T.faults site.new) result }
    ensures told { IsTrue T.tells
        → Keeps (IsSettled start) (start + 16392 * length writes.now)
        (Staged start (pairs writes.now)) result (T.state site.old) (T.state site.new) }
{
    write_redo_fields(site, start, writes.len() as u32)?;
    write_items(site, start, writes)?;
    site.sync()
}

/// The third step: the images stand in their places.
fn settle<T: Site>(site: &mut T, writes: &[PageWrite]) -> Result<(), Failed>
    requires { IsTrue (rises 0 (new_count (pairs writes.now)) (pairs writes.now)) }
    ensures cause { HasCause (T.faults site.old) (T.faults site.new) result }
    ensures told { IsTrue T.tells
        → Keeps (IsUnnamed (pairs writes.now)) (16384 * new_count (pairs writes.now))
        (InPlace (pairs writes.now)) result (T.state site.old) (T.state site.new) }
{
    write_pages(site, writes)?;
    site.sync()
}

/// The four steps over the device. The pages are only what the contract speaks of.
fn write_through<T: Site>(site: &mut T, _pages: &Pages, writes: &[PageWrite]) -> Result<(), Failed>
    requires plan { IsPlan _pages.now.list (pairs writes.now) }
    requires held { IsTrue T.tells → Holds _pages.now.list (T.state site.old) }
    ensures cause { HasCause (T.faults site.old) (T.faults site.new) result }
    ensures small { new_count (pairs writes.now) < 2 ^ 32 }
    ensures told { IsTrue T.tells
        → Commits _pages.now.list (written _pages.now.list (pairs writes.now)) result
        (T.state site.old) (T.state site.new) }
    ensures behind { IsTrue T.tells
        → OnOk result (IsBehind (pairs writes.now) (T.state site.new).content) }
{
    let start = PAGE_SIZE * u64::from(new_count(writes));
    stage(site, start, writes)?;
    turn_gate(site, 1)?;
    settle(site, writes)?;
    turn_gate(site, 0)
}

/// Brings a file of pages from its page list to the one after the writes. At each moment a crash
/// leaves the one or the other.
pub fn commit<T: Site>(site: &mut T, pages: &mut Pages, writes: PageWrites) -> Result<(), Failed>
    requires plan { IsPlan pages.old.list (pairs writes) }
    requires room { new_count (pairs writes) ≤ length pages.old.list + 1 + pages.old.spare }
    requires held { IsTrue T.tells → Holds pages.old.list (T.state site.old) }
    ensures cause { HasCause (T.faults site.old) (T.faults site.new) result }
    ensures told { IsTrue T.tells
        → Commits pages.old.list (written pages.old.list (pairs writes)) result (T.state site.old)
        (T.state site.new) }
    ensures behind { IsTrue T.tells
        → OnOk result (IsBehind (pairs writes) (T.state site.new).content) }
    ensures ok { OnOk result (pages.new.list ≡ written pages.old.list (pairs writes)) }
    ensures err { OnErr result (pages.new ≡ pages.old) }
{
    write_through(site, pages, writes.as_slice())?;
    pages.take_all(writes);
    Ok(())
}
