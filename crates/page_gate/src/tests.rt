//! Tables of files and what opening them answers, and sites that fail or stop.

ghost use Rattle.std.specs.Prelude.{◌≡◌, ℕ, List, length, IfOk};
ghost use Rattle.page_gate.specs.Gate.{count_of};
ghost use Rattle.page_gate.specs.Writes.{pairs, new_count, IsPlan};

use crate::gate::number_4;
use crate::{OpenFault, Page, PageWrite, PageWrites, Pages, birth, commit, is_blank, open_pages};
use site_disk::{Failed, MemSite, Site};
use std::alloc::{AllocError, Global};
use std::test::Fail;
use vec_record::{Bytes, Numbers};

/// Lengths with a byte 0, and what opening them answers.
const LENGTHS: [(u64, u8, OpenFault); 5] = [
    (0, 0, OpenFault::Blank),
    (1, 1, OpenFault::Blank),
    (2, 1, OpenFault::Foreign),
    (32_768, 0, OpenFault::Blank),
    (32_769, 0, OpenFault::Foreign),
];

/// A byte changed in the store of one page, and what opening it answers.
const DAMAGES: [(u64, u8, u32); 3] = [(9, 1, 8), (32_768, 0, 16), (20, 5, 20)];

fn site(alloc: Global, content: &[u8], stop: Option<u32>) -> Result<MemSite, AllocError> {
    let mut bytes = Bytes::new(alloc);
    bytes.append(content)?;
    Ok(MemSite::new(bytes, Numbers::new(alloc), stop))
}

/// A site at which one call fails.
fn failing_site(alloc: Global, content: &[u8], call: u32) -> Result<MemSite, AllocError> {
    let mut bytes = Bytes::new(alloc);
    bytes.append(content)?;
    let mut fail = Numbers::new(alloc);
    fail.push(call)?;
    Ok(MemSite::new(bytes, fail, None))
}

/// A file of this length with this byte 0 and zeros behind it.
fn file<T: Site>(site: &mut T, len: u64, first: u8) -> Result<(), Failed> {
    if len > 1 && len < 100_000 {
        site.write_at(len - 1, &[0])?;
    }
    if len > 0 {
        site.write_at(0, &[first])?;
    }
    Ok(())
}

/// A store of one page behind this redo gate, and a redo item in which byte 4 of that page is 9.
fn store<T: Site>(site: &mut T, gate: u8) -> Result<(), Failed> {
    site.write_at(49_159, &[0])?;
    site.write_at(0, b"\x01\0denswh\0\x80\0\0\0\0\0\0\x01")?;
    site.write_at(1, &[gate])?;
    site.write_at(16_384, &[2])?;
    site.write_at(32_768, b"\x01\0\0\0\0\0\0\0\x02\0\0\0\x09")
}

/// Byte 4 of page 1, where the store opens.
fn mark(opened: Result<Pages, OpenFault>) -> Option<u8> {
    match opened {
        Ok(pages) if pages.count() == 2 && pages.page(2).is_none() => {
            pages.page(1).map(|page| page.as_slice()[4])
        }
        _ => None,
    }
}

#[test]
fn lengths(rt: HostRuntime) -> Result<(), Fail> {
    let alloc = rt.alloc();
    for (len, first, fault) in LENGTHS {
        let mut device = site(alloc, b"", None)?;
        assert!(rt; file(&mut device, len, first).is_ok());
        let blank = is_blank(&mut device).is_ok_and(|blank| blank == (fault == OpenFault::Blank));
        let same = open_pages(alloc, &mut device).is_err_and(|other| other == fault);
        assert!(rt; blank && same, "length {len}");
    }
    Ok(())
}

#[test]
fn gates(rt: HostRuntime) -> Result<(), Fail> {
    let alloc = rt.alloc();
    // the redo gate, byte 4 of page 1 in the end, and the redo gate then
    for (gate, want, after) in [(0, 0, 0), (7, 0, 7), (1, 9, 0)] {
        let mut device = site(alloc, b"", None)?;
        assert!(rt; store(&mut device, gate).is_ok());
        let marks = mark(open_pages(alloc, &mut device)) == Some(want);
        let turned = device.content().get(1).is_some_and(|byte| *byte == after);
        assert!(rt; marks && turned, "gate {gate}");
    }
    Ok(())
}

#[test]
fn damages(rt: HostRuntime) -> Result<(), Fail> {
    let alloc = rt.alloc();
    for (at, byte, offset) in DAMAGES {
        let mut device = site(alloc, b"", None)?;
        let made = store(&mut device, 1).is_ok() && device.write_at(at, &[byte]).is_ok();
        let want = OpenFault::Damaged { page: 0, offset };
        let same = open_pages(alloc, &mut device).is_err_and(|fault| fault == want);
        assert!(rt; made && same, "offset {offset}");
    }
    Ok(())
}

/// Each image that a cut opening leaves opens with the same page.
#[test]
fn cut_openings(rt: HostRuntime) -> Result<(), Fail> {
    let alloc = rt.alloc();
    let mut made = site(alloc, b"", None)?;
    assert!(rt; store(&mut made, 1).is_ok());
    for stop in 0..16 {
        let mut device = site(alloc, made.content(), Some(stop))?;
        let _ = open_pages(alloc, &mut device);
        for pick in 0..4 {
            let image = device.crash_image(pick)?;
            let mut again = site(alloc, image.as_slice(), None)?;
            let marks = mark(open_pages(alloc, &mut again)) == Some(9);
            assert!(rt; marks, "stop {stop} pick {pick}");
        }
    }
    Ok(())
}

/// Makes a store of a blank file, where the page has 2 as its count.
fn bear<T: Site>(site: &mut T, first: &Page) -> Result<bool, Failed> {
    let blank = is_blank(site)?;
    let count = number_4(first.as_slice(), 0);
    if !blank {
        return Ok(false);
    }
    if count != 2 {
        return Ok(false);
    }
    birth(site, first)?;
    Ok(true)
}

/// Each image that a cut birth leaves is blank or opens with the first page.
#[test]
fn cut_births(rt: HostRuntime) -> Result<(), Fail> {
    let alloc = rt.alloc();
    let mut first = Page::zeros(alloc)?;
    first.set(0, 2);
    first.set(4, 9);
    for stop in 0..40 {
        let mut device = site(alloc, b"", Some(stop))?;
        let born = bear(&mut device, &first).is_ok_and(|born| born);
        for pick in 0..4 {
            let image = device.crash_image(pick)?;
            let mut again = site(alloc, image.as_slice(), None)?;
            let blank = is_blank(&mut again).is_ok_and(|blank| blank);
            let marks = mark(open_pages(alloc, &mut again)) == Some(9);
            assert!(rt; (blank && !born) || marks, "stop {stop} pick {pick}");
        }
    }
    Ok(())
}

/// A store of two pages behind the gate page, with a byte of each set.
fn two_pages<T: Site>(site: &mut T) -> Result<(), Failed> {
    site.write_at(49_151, &[0])?;
    site.write_at(0, b"\x01\0denswh")?;
    site.write_at(16_384, b"\x03\0\0\0\x09")?;
    site.write_at(32_768, &[7])
}

/// A page with two bytes set.
fn marked(alloc: Global, first: u8, fifth: u8) -> Result<Page, AllocError>
    ensures { IfOk result (λ page. count_of page ≡ first) }
{
    let mut page = Page::zeros(alloc)?;
    page.set(0, first);
    page.set(4, fifth);
    Ok(page)
}

/// Pages 1 to 3 as writes.
fn three(alloc: Global, first: Page, second: Page, third: Page) -> Result<PageWrites, AllocError>
    requires { count_of first ≡ 4 }
    ensures plan { IfOk result
        (λ w. (pages : List (List ℕ)) → length pages ≡ 2 → IsPlan pages (pairs w)) }
    ensures count { IfOk result (λ w. new_count (pairs w) ≡ 4) }
{
    let mut writes = PageWrites::new(alloc);
    writes.push(PageWrite {
        page: 1,
        bytes: first,
    })?;
    writes.push(PageWrite {
        page: 2,
        bytes: second,
    })?;
    writes.push(PageWrite {
        page: 3,
        bytes: third,
    })?;
    Ok(writes)
}

/// What the store holds in the end.
fn new_pages(alloc: Global) -> Result<PageWrites, AllocError>
    ensures plan { IfOk result
        (λ w. (pages : List (List ℕ)) → length pages ≡ 2 → IsPlan pages (pairs w)) }
    ensures count { IfOk result (λ w. new_count (pairs w) ≡ 4) }
{
    let first = marked(alloc, 4, 8)?;
    let second = marked(alloc, 6, 0)?;
    let third = marked(alloc, 5, 0)?;
    three(alloc, first, second, third)
}

/// Changes both pages of a store of two and adds one.
fn advance<T: Site>(alloc: Global, site: &mut T) -> Result<(), OpenFault> {
    let mut pages = open_pages(alloc, site)?;
    let Ok(writes) = new_pages(alloc) else {
        return Err(OpenFault::Memory);
    };
    if pages.count() != 3 || pages.reserve(1).is_err() {
        return Err(OpenFault::Memory);
    }
    match commit(site, &mut pages, writes) {
        Ok(()) => Ok(()),
        Err(_) => Err(OpenFault::SiteFault),
    }
}

/// The number of pages and a byte of each, where the store opens.
fn marks(opened: Result<Pages, OpenFault>) -> Option<(u32, u8, u8, Option<u8>)> {
    match opened {
        Ok(pages) => {
            let first = pages.page(1)?.as_slice()[4];
            let second = pages.page(2)?.as_slice()[0];
            let third = pages.page(3).map(|page| page.as_slice()[0]);
            Some((pages.count(), first, second, third))
        }
        Err(_) => None,
    }
}

const OLD: Option<(u32, u8, u8, Option<u8>)> = Some((3, 9, 7, None));

const NEW: Option<(u32, u8, u8, Option<u8>)> = Some((4, 8, 6, Some(5)));

/// Whether each image of now opens with the old pages or the new ones, or with the new ones alone.
fn opens_well(alloc: Global, device: &MemSite, done: bool) -> Result<bool, AllocError> {
    let mut well = true;
    for pick in 0..4 {
        let image = device.crash_image(pick)?;
        let mut again = site(alloc, image.as_slice(), None)?;
        let found = marks(open_pages(alloc, &mut again));
        well = well && (found == NEW || (found == OLD && !done));
    }
    Ok(well)
}

/// Whether a commit is made as it should be, and each image that it leaves opens well.
fn advances_well(alloc: Global, mut device: MemSite, whole: bool) -> Result<bool, AllocError> {
    let done = advance(alloc, &mut device).is_ok();
    let well = opens_well(alloc, &device, done)?;
    Ok(well && done == whole)
}

/// Each image that a cut commit leaves opens with the old pages or the new ones; after one that was
/// not cut there are the new ones alone.
#[test]
fn cut_commits(rt: HostRuntime) -> Result<(), Fail> {
    let alloc = rt.alloc();
    let mut made = site(alloc, b"", None)?;
    assert!(rt; two_pages(&mut made).is_ok());
    for stop in 0..26 {
        let device = site(alloc, made.content(), Some(stop))?;
        assert!(rt; advances_well(alloc, device, stop >= 23)?, "stop {stop}");
    }
    Ok(())
}

/// So it is where one call fails.
#[test]
fn failing_commits(rt: HostRuntime) -> Result<(), Fail> {
    let alloc = rt.alloc();
    let mut made = site(alloc, b"", None)?;
    assert!(rt; two_pages(&mut made).is_ok());
    for call in 1..26 {
        let device = failing_site(alloc, made.content(), call)?;
        assert!(rt; advances_well(alloc, device, call > 23)?, "call {call}");
    }
    Ok(())
}

/// Whether each image of now is blank or opens with the page, or opens with it alone.
fn bears_well(alloc: Global, device: &MemSite, born: bool) -> Result<bool, AllocError> {
    let mut well = true;
    for pick in 0..4 {
        let image = device.crash_image(pick)?;
        let mut again = site(alloc, image.as_slice(), None)?;
        let blank = is_blank(&mut again).is_ok_and(|blank| blank);
        let whole = mark(open_pages(alloc, &mut again)) == Some(9);
        well = well && ((blank && !born) || whole);
    }
    Ok(well)
}

/// A birth in which one call fails leaves a blank file or the new store.
#[test]
fn failing_births(rt: HostRuntime) -> Result<(), Fail> {
    let alloc = rt.alloc();
    let first = marked(alloc, 2, 9)?;
    for call in 1..42 {
        let mut device = failing_site(alloc, b"", call)?;
        let born = bear(&mut device, &first).is_ok_and(|born| born);
        assert!(rt; bears_well(alloc, &device, born)?, "call {call}");
    }
    Ok(())
}

/// A recovery in which one call fails leaves what opens with the same page.
#[test]
fn failing_openings(rt: HostRuntime) -> Result<(), Fail> {
    let alloc = rt.alloc();
    let mut made = site(alloc, b"", None)?;
    assert!(rt; store(&mut made, 1).is_ok());
    for call in 1..18 {
        let mut device = failing_site(alloc, made.content(), call)?;
        let opened = mark(open_pages(alloc, &mut device));
        assert!(rt; opened.is_none() || opened == Some(9), "call {call}");
        assert!(rt; bears_well(alloc, &device, true)?, "call {call}");
    }
    Ok(())
}

/// Whether these bytes stand at these offsets, and so many bytes of all aren't zero.
fn has_bytes(content: &[u8], rows: &[(usize, &[u8])], set: usize) -> bool {
    for (at, bytes) in rows {
        if !content
            .get(*at..)
            .is_some_and(|rest| rest.starts_with(bytes))
        {
            return false;
        }
    }
    content.iter().filter(|byte| **byte != 0).count() == set
}

/// A file behind a commit of three pages, 4 the number of pages then: the gates, the letters, the
/// redo start 65,536 and the redo count 3; the pages in their places; and the items of 16,392
/// bytes.
const COMMITTED: [(usize, &[u8]); 7] = [
    (0, b"\x01\0denswh\0\0\x01\0\0\0\0\0\x03\0\0\0"),
    (16_384, b"\x04\0\0\0\x08"),
    (32_768, b"\x06"),
    (49_152, b"\x05"),
    (65_536, b"\x01\0\0\0\0\0\0\0\x04\0\0\0\x08"),
    (81_928, b"\x02\0\0\0\0\0\0\0\x06"),
    (98_320, b"\x03\0\0\0\0\0\0\0\x05"),
];

#[test]
fn committed_bytes(rt: HostRuntime) -> Result<(), Fail> {
    let mut device = site(rt.alloc(), b"", None)?;
    assert!(rt; two_pages(&mut device).is_ok());
    assert!(rt; advance(rt.alloc(), &mut device).is_ok());
    assert_eq!(rt; device.content().len(), 114_712);
    assert!(rt; has_bytes(device.content(), &COMMITTED, 20));
    Ok(())
}

/// A new store of a page with two bytes set.
const BORN: [(usize, &[u8]); 2] = [(0, b"\x01\0denswh"), (16_384, b"\x02\0\0\0\x09")];

#[test]
fn born_bytes(rt: HostRuntime) -> Result<(), Fail> {
    let first = marked(rt.alloc(), 2, 9)?;
    let mut device = site(rt.alloc(), b"", None)?;
    assert!(rt; bear(&mut device, &first).is_ok_and(|born| born));
    assert_eq!(rt; device.content().len(), 32_768);
    assert!(rt; has_bytes(device.content(), &BORN, 9));
    Ok(())
}

/// The gate page then, the page that was taken in, and its item.
const REFUSED: [(usize, &[u8]); 3] = [
    (0, b"\x01\0denswh\0\x80\0\0\0\0\0\0\x01"),
    (16_384, b"\x01\0\0\0\x09"),
    (32_768, b"\x01\0\0\0\0\0\0\0\x01\0\0\0\x09"),
];

/// The redo items are taken in before the number of pages refuses, and the redo gate is closed.
#[test]
fn refused_after_the_redo(rt: HostRuntime) -> Result<(), Fail> {
    let mut device = site(rt.alloc(), b"", None)?;
    assert!(rt; store(&mut device, 1).is_ok() && device.write_at(32_776, &[1]).is_ok());
    let want = OpenFault::Damaged { page: 1, offset: 0 };
    assert!(rt; open_pages(rt.alloc(), &mut device).is_err_and(|fault| fault == want));
    assert!(rt; has_bytes(device.content(), &REFUSED, 14));
    Ok(())
}
