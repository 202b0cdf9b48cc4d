//! The opening of a file: its checks, and what is left of a commit that was cut off.

ghost use Rattle.std.specs.Prelude.{◌≡◌, ◌≤◌, ◌<◌, ◌+◌, ◌-◌, ◌*◌, ◌/◌, ◌^◌, ℕ, ltb, ◌&&◌, length};
ghost use Rattle.std.specs.Prelude.{get_or, IsTrue, OnOk, IfOk};
ghost use Rattle.site_disk.specs.Causes.{HasCause};
ghost use Rattle.site_disk.specs.Calls.{Syncs};
ghost use Rattle.page_gate.specs.Gate.{items, opening};
ghost use Rattle.page_gate.specs.Same.{IsOnly, Puts};
ghost use Rattle.page_gate.specs.Steps.{IsUnnamed, InPlace};
ghost use Rattle.page_gate.specs.Looks.{Looks, ReadsWord, ReadsNumber, Tests, IsReady, TakesItem};
ghost use Rattle.page_gate.specs.Looks.{Settles, CanTake, HasGate, IsSound, Recovers, Loads, Fills};
ghost use Rattle.page_gate.specs.Looks.{Lists};
ghost use Rattle.page_gate.specs.Promises.{Asks, Finds, HasFault};

use crate::fault::OpenFault;
use crate::gate::{Gate, gate_of, is_blank_by};
use crate::page::Page;
use crate::pages::Pages;
use crate::steps::{ITEM_BYTES, PAGE_SIZE, turn_gate, write_image};
use site_disk::{Failed, Site};
use std::alloc::{AllocError, Global};

/// Whether no store has begun in the file. It syncs first.
pub fn is_blank<T: Site>(site: &mut T) -> Result<bool, Failed>
    ensures cause { HasCause (T.faults site.old) (T.faults site.new) result }
    ensures told { IsTrue T.tells → Asks result (T.state site.old) (T.state site.new) }
{
    site.sync()?;
    let len = site.len()?;
    let mut first = [0];
    site.read(0, &mut first)?;
    Ok(is_blank_by(len, first[0]))
}

/// Makes what a read gives the only image.
fn settle_first<T: Site>(device: &mut T) -> Result<(), Failed>
    ensures cause { HasCause (T.faults device.old) (T.faults device.new) result }
    ensures told { IsTrue T.tells → Syncs result (T.state device.old) (T.state device.new) }
{
    device.sync()
}

/// Reads the length and page 0.
fn look<T: Site>(site: &mut T, page: &mut Page) -> Result<u64, Failed>
    ensures cause { HasCause (T.faults site.old) (T.faults site.new) result }
    ensures bound { IfOk result (λ n. n ≤ 2 ^ 63 - 1) }
    ensures told { IsTrue T.tells → Looks result page.new (T.state site.old) (T.state site.new) }
{
    let len = site.len()?;
    page.fill_from(site, 0)?;
    Ok(len)
}

/// Reads a number of 4 bytes.
fn read_word<T: Site>(site: &mut T, at: u64) -> Result<u32, Failed>
    requires { IsTrue T.tells → at + 4 ≤ length (T.state site.old).content }
    ensures cause { HasCause (T.faults site.old) (T.faults site.new) result }
    ensures told { IsTrue T.tells → ReadsWord at result (T.state site.old) (T.state site.new) }
{
    let mut word = [0; 4];
    site.read(at, &mut word)?;
    Ok(u32::from_le_bytes(word))
}

/// Reads a number of 8 bytes.
fn read_number<T: Site>(site: &mut T, at: u64) -> Result<u64, Failed>
    requires { IsTrue T.tells → at + 8 ≤ length (T.state site.old).content }
    ensures cause { HasCause (T.faults site.old) (T.faults site.new) result }
    ensures told { IsTrue T.tells → ReadsNumber at result (T.state site.old) (T.state site.new) }
{
    let mut word = [0; 8];
    site.read(at, &mut word)?;
    Ok(u64::from_le_bytes(word))
}

/// Whether a number lies between two bounds.
fn is_between(low: u64, number: u64, limit: u64) -> bool
    ensures { result ≡ (ltb low number && ltb number limit) }
{
    low < number && number < limit
}

/// Whether the numbers of the redo items rise from 1 on and stay below the items themselves.
fn numbers_rise<T: Site>(site: &mut T, start: u64, count: u32) -> Result<bool, Failed>
    requires room { start + 16392 * count ≤ 2 ^ 63 - 1 }
    requires told { IsTrue T.tells → start + 16392 * count ≤ length (T.state site.old).content }
    ensures cause { HasCause (T.faults site.old) (T.faults site.new) result }
    ensures told { IsTrue T.tells → Tests start count result (T.state site.old) (T.state site.new) }
{
    let limit = start / PAGE_SIZE;
    let mut low = 0;
    for k in 0..count {
        let number = read_number(site, start + ITEM_BYTES * u64::from(k))?;
        if !is_between(low, number, limit) {
            return Ok(false);
        }
        low = number;
    }
    Ok(true)
}

/// Takes one redo item in: its image comes into the place of its page. The numbers were tested
/// before; the test here keeps the offset in bounds over a site that reads otherwise the second
/// time.
fn take_item<T: Site>(site: &mut T, page: &mut Page, at: u64, limit: u64) -> Result<(), Failed>
    requires limit { 16384 * limit ≤ 2 ^ 63 - 1 }
    requires room { at + 16392 ≤ 2 ^ 63 - 1 }
    requires told { IsTrue T.tells → at + 16392 ≤ length (T.state site.old).content }
    ensures cause { HasCause (T.faults site.old) (T.faults site.new) result }
    ensures told { IsTrue T.tells
        → TakesItem at limit result (T.state site.old) (T.state site.new) }
{
    let number = read_number(site, at)?;
    if number >= limit {
        return Ok(());
    }
    page.fill_from(site, at + 8)?;
    write_image(site, PAGE_SIZE * number, page.as_slice())
}

/// Takes the redo items in, from the first on.
fn take_in<T: Site>(site: &mut T, page: &mut Page, start: u64, count: u32) -> Result<(), Failed>
    requires room { start + 16392 * count ≤ 2 ^ 63 - 1 }
    requires told { IsTrue T.tells → IsReady start count (T.state site.old).content }
    ensures cause { HasCause (T.faults site.old) (T.faults site.new) result }
    ensures told { IsTrue T.tells
        → Puts (IsUnnamed (items start count (T.state site.old).content)) start
        (InPlace (items start count (T.state site.old).content)) result (T.state site.old)
        (T.state site.new) }
{
    let limit = start / PAGE_SIZE;
    for k in 0..count {
        take_item(site, page, start + ITEM_BYTES * u64::from(k), limit)?;
    }
    Ok(())
}

/// Takes the redo items in and closes the redo gate.
fn settle_items<T: Site>(
    site: &mut T,
    page: &mut Page,
    start: u64,
    count: u32,
) -> Result<(), Failed>
    requires room { start + 16392 * count ≤ 2 ^ 63 - 1 }
    requires told { IsTrue T.tells → CanTake start count (T.state site.old) }
    ensures cause { HasCause (T.faults site.old) (T.faults site.new) result }
    ensures told { IsTrue T.tells
        → Settles (opening (T.state site.old).content) (length (T.state site.old).content) result
        (T.state site.old) (T.state site.new) }
{
    take_in(site, page, start, count)?;
    site.sync()?;
    turn_gate(site, 0)
}

/// Tests the redo items and takes them in.
fn recover<T: Site>(site: &mut T, page: &mut Page, start: u64, count: u32) -> Result<(), OpenFault>
    requires room { start + 16392 * count ≤ 2 ^ 63 - 1 }
    requires told { IsTrue T.tells → HasGate (Gate.Open start count) (T.state site.old) }
    ensures cause { HasFault (T.faults site.old) (T.faults site.new) result }
    ensures told { IsTrue T.tells → Recovers result (T.state site.old) (T.state site.new) }
{
    match numbers_rise(site, start, count) {
        Err(_) => Err(OpenFault::SiteFault),
        Ok(false) => Err(OpenFault::Damaged {
            page: 0,
            offset: 16,
        }),
        Ok(true) => match settle_items(site, page, start, count) {
            Ok(()) => Ok(()),
            Err(_) => Err(OpenFault::SiteFault),
        },
    }
}

/// Does what the redo gate of the file asks for.
fn settle_gate<T: Site>(site: &mut T, page: &mut Page, gate: Gate) -> Result<(), OpenFault>
    requires sound { IsSound gate }
    requires told { IsTrue T.tells → HasGate gate (T.state site.old) }
    ensures cause { HasFault (T.faults site.old) (T.faults site.new) result }
    ensures told { IsTrue T.tells → Recovers result (T.state site.old) (T.state site.new) }
{
    match gate {
        Gate::Bad(fault) => Err(fault),
        Gate::Closed => Ok(()),
        Gate::Open(start, count) => recover(site, page, start, count),
    }
}

/// Reads a page.
fn load_page<T: Site>(alloc: Global, site: &mut T, at: u64) -> Result<Page, OpenFault>
    requires { IsTrue T.tells → at + 16384 ≤ length (T.state site.old).content }
    ensures cause { HasFault (T.faults site.old) (T.faults site.new) result }
    ensures told { IsTrue T.tells → Loads at result (T.state site.old) (T.state site.new) }
{
    let mut page = match Page::zeros(alloc) {
        Ok(page) => page,
        Err(_) => return Err(OpenFault::Memory),
    };
    match page.fill_from(site, at) {
        Ok(()) => Ok(page),
        Err(_) => Err(OpenFault::SiteFault),
    }
}

/// Reads the pages from page 1 on.
fn load_list<T: Site>(alloc: Global, site: &mut T, count: u32) -> Result<Pages, OpenFault>
    requires some { 2 ≤ count }
    requires told { IsTrue T.tells → 16384 * count ≤ length (T.state site.old).content }
    ensures cause { HasFault (T.faults site.old) (T.faults site.new) result }
    ensures told { IsTrue T.tells → Fills count result (T.state site.old) (T.state site.new) }
{
    let mut pages = Pages::new(alloc);
    for number in 1..count {
        let page = load_page(alloc, site, PAGE_SIZE * u64::from(number))?;
        if pages.push(page).is_err() {
            return Err(OpenFault::Memory);
        }
    }
    Ok(pages)
}

/// Reads the page list behind a closed redo gate.
fn read_list<T: Site>(alloc: Global, site: &mut T, len: u64) -> Result<Pages, OpenFault>
    requires len { IsTrue T.tells → len ≡ length (T.state site.old).content }
    requires long { IsTrue T.tells → 32768 ≤ length (T.state site.old).content }
    ensures cause { HasFault (T.faults site.old) (T.faults site.new) result }
    ensures told { IsTrue T.tells → Lists result (T.state site.old) (T.state site.new) }
{
    let count = match read_word(site, PAGE_SIZE) {
        Ok(count) => count,
        Err(_) => return Err(OpenFault::SiteFault),
    };
    if count < 2 || PAGE_SIZE * u64::from(count) > len {
        return Err(OpenFault::Damaged { page: 1, offset: 0 });
    }
    load_list(alloc, site, count)
}

/// Opens a file of pages. A commit or an opening that was cut off is brought to its end first. At
/// each moment a crash leaves a file that opens as this one, and unless the site fails, there is
/// one image in the end, whatever the answer.
pub fn open_pages<T: Site>(alloc: Global, site: &mut T) -> Result<Pages, OpenFault>
    ensures cause { HasFault (T.faults site.old) (T.faults site.new) result }
    ensures told { IsTrue T.tells → Finds result (T.state site.old) (T.state site.new) }
{
    // Before memory is taken, so that the want of it leaves one image too.
    if settle_first(site).is_err() {
        return Err(OpenFault::SiteFault);
    }
    let mut page = match Page::zeros(alloc) {
        Ok(page) => page,
        Err(_) => return Err(OpenFault::Memory),
    };
    let len = match look(site, &mut page) {
        Ok(len) => len,
        Err(_) => return Err(OpenFault::SiteFault),
    };
    let gate = gate_of(len, page.as_slice());
    settle_gate(site, &mut page, gate)?;
    read_list(alloc, site, len)
}
