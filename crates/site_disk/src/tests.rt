//! Ten calls on a site in memory, with the images that a stop leaves after each.

use crate::callers::{say_often, write_twice};
use crate::parts::{read_whole, write_whole};
use crate::slow_file::SlowFile;
use crate::{Failed, FileSite, MemSite, MemSource, Site, SiteError, Source, StdSource};
use std::alloc::{AllocError, Global};
use std::test::Fail;
use std::{fs, io};
use vec_record::{Bytes, Numbers};

/// A call of a table.
#[derive(Clone, Copy)]
enum Step {
    Write(u64, &'static [u8]),
    Say(&'static [u8]),
    Sync,
    Look,
}

/// Ten calls: writes that overlap, one that lengthens the file, one behind a gap, an empty one past
/// the end, and two syncs.
const STEPS: [Step; 10] = [
    Step::Write(2, b"XYZ"),
    Step::Write(3, b"12"),
    Step::Say(b"hi\n"),
    Step::Look,
    Step::Sync,
    Step::Write(7, b"PQRS"),
    Step::Write(13, b"uv"),
    Step::Say(b"lo"),
    Step::Sync,
    Step::Write(20, b""),
];

/// The images of picks 0 to 3 after so many of the ten calls, by hand.
const ROWS: [[&[u8]; 4]; 11] = [
    [b"abcdefgh", b"abcdefgh", b"abcdefgh", b"abcdefgh"],
    [b"abcdefgh", b"abXYZfgh", b"abX\xa5\xa5fgh", b"abXYZfgh"],
    [b"abcdefgh", b"abX12fgh", b"abX1\xa5fgh", b"abX12fgh"],
    [b"abcdefgh", b"abX12fgh", b"abX1\xa5fgh", b"abX12fgh"],
    [b"abcdefgh", b"abX12fgh", b"abX1\xa5fgh", b"abX12fgh"],
    [b"abX12fgh", b"abX12fgh", b"abX12fgh", b"abX12fgh"],
    [
        b"abX12fgh",
        b"abX12fgPQRS",
        b"abX12fgPQ\xa5\xa5",
        b"abX12fgP",
    ],
    [
        b"abX12fgh",
        b"abX12fgPQRS\0\0uv",
        b"abX12fgPQ\xa5\xa5\0\0u\xa5",
        b"abX12fgP",
    ],
    [
        b"abX12fgh",
        b"abX12fgPQRS\0\0uv",
        b"abX12fgPQ\xa5\xa5\0\0u\xa5",
        b"abX12fgP",
    ],
    [
        b"abX12fgPQRS\0\0uv",
        b"abX12fgPQRS\0\0uv",
        b"abX12fgPQRS\0\0uv",
        b"abX12fgPQRS\0\0uv",
    ],
    [
        b"abX12fgPQRS\0\0uv",
        b"abX12fgPQRS\0\0uv",
        b"abX12fgPQRS\0\0uv",
        b"abX12fgPQRS\0\0uv",
    ],
];

/// The content and the bytes said after the ten calls, where the call of this number failed, by
/// hand.
const WITHOUT: [(&[u8], &[u8]); 10] = [
    (b"abc12fgPQRS\0\0uv", b"hi\nlo"),
    (b"abXYZfgPQRS\0\0uv", b"hi\nlo"),
    (b"abX12fgPQRS\0\0uv", b"lo"),
    (b"abX12fgPQRS\0\0uv", b"hi\nlo"),
    (b"abX12fgPQRS\0\0uv", b"hi\nlo"),
    (b"abX12fgh\0\0\0\0\0uv", b"hi\nlo"),
    (b"abX12fgPQRS", b"hi\nlo"),
    (b"abX12fgPQRS\0\0uv", b"hi\n"),
    (b"abX12fgPQRS\0\0uv", b"hi\nlo"),
    (b"abX12fgPQRS\0\0uv", b"hi\nlo"),
];

fn bytes(alloc: Global, list: &[u8]) -> Result<Bytes, AllocError> {
    let mut bytes = Bytes::new(alloc);
    bytes.append(list)?;
    Ok(bytes)
}

fn numbers(alloc: Global, list: &[u32]) -> Result<Numbers, AllocError> {
    let mut numbers = Numbers::new(alloc);
    for number in list {
        numbers.push(*number)?;
    }
    Ok(numbers)
}

fn site(alloc: Global, fail: &[u32], stop: Option<u32>) -> Result<MemSite, AllocError> {
    Ok(MemSite::new(bytes(alloc, b"abcdefgh")?, numbers(alloc, fail)?, stop))
}

fn act(site: &mut MemSite, step: &Step) -> Result<(), Failed> {
    match step {
        Step::Write(at, bytes) => site.write_at(*at, bytes),
        Step::Say(bytes) => site.say(bytes),
        Step::Sync => site.sync(),
        Step::Look => site.read(5, &mut [0; 3]),
    }
}

/// Whether each pick gives the image of its place in a row.
fn picks(site: &MemSite, row: &[&[u8]; 4]) -> Result<bool, AllocError> {
    let mut pick = 0u8;
    for want in row {
        if site.crash_image(pick)?.as_slice() != *want {
            return Ok(false);
        }
        pick = pick.saturating_add(1);
    }
    Ok(site.crash_image(255)?.as_slice() == row[3])
}

/// Whether each call fails exactly where it is to.
fn fails_at(site: &mut MemSite, from: usize, to: usize) -> bool {
    for (i, step) in STEPS.iter().enumerate() {
        if act(site, step).is_err() != (from <= i && i < to) {
            return false;
        }
    }
    true
}

#[test]
fn stops_at_each_place(rt: HostRuntime) -> Result<(), Fail> {
    for (stop, row) in ROWS.iter().enumerate() {
        let mut site = site(rt.alloc(), &[], Some(stop as u32))?;
        let fails = fails_at(&mut site, stop, STEPS.len());
        assert!(rt; fails && picks(&site, row)?, "stop {stop}");
    }
    Ok(())
}

#[test]
fn fails_at_each_place(rt: HostRuntime) -> Result<(), Fail> {
    for (at, (content, said)) in WITHOUT.iter().enumerate() {
        let mut site = site(rt.alloc(), &[at as u32 + 1], None)?;
        let fails = fails_at(&mut site, at, at + 1);
        let counts = site.faults() == 1 && site.wants() == 0;
        let holds = site.content() == *content && site.said() == *said;
        assert!(rt; fails && counts && holds, "without call {at}");
    }
    Ok(())
}

/// The images behind a sync that fails, the fifth call, and behind the good one that follows.
#[test]
fn goes_on_after_a_failed_sync(rt: HostRuntime) -> Result<(), Fail> {
    let mut site = site(rt.alloc(), &[5], None)?;
    let rows: [(&[Step], [&[u8]; 4]); 2] = [
        (
            &STEPS[..6],
            [
                b"abcdefgh",
                b"abX12fgPQRS",
                b"abX1\xa5fgPQ\xa5\xa5",
                b"abX12fgP",
            ],
        ),
        (&STEPS[6..], ROWS[10]),
    ];
    for (steps, row) in rows {
        for step in steps {
            let _ = act(&mut site, step);
        }
        assert!(rt; picks(&site, &row)?);
    }
    Ok(())
}

/// What a blank site shows, and leaves blank.
fn is_blank<S: Site>(site: &mut S) -> Result<bool, Failed> {
    let mut into = [7; 10];
    site.sync()?;
    site.write_at(5, b"")?;
    site.read(3, &mut into)?;
    Ok(site.len()? == 0 && into == [0; 10])
}

/// Writes at the start and behind a gap, and says nothing.
fn write_gap<S: Site>(site: &mut S) -> Result<(), Failed> {
    site.write_at(0, b"abc")?;
    site.write_at(6, b"z")?;
    site.say(b"")?;
    site.sync()
}

/// Reads over the end, and far behind it.
fn shows_gap<S: Site>(site: &mut S) -> Result<bool, Failed> {
    let (mut into, mut far) = ([7; 10], [7; 3]);
    site.read(0, &mut into)?;
    site.read(u64::MAX, &mut far)?;
    Ok(site.len()? == 7 && into == *b"abc\0\0\0z\0\0\0" && far == [0; 3])
}

/// Where a site saw no file, it takes none that comes to be later.
fn takes_no_later_file(rt: &HostRuntime, name: &str) -> io::Result<bool> {
    let mut site = FileSite::new(rt);
    let sees_none = site.len().ok() == Some(0);
    fs::write(rt, name, "other")?;
    let refuses = site.write_at(0, b"mine").is_err() && site.len().ok() == Some(0);
    Ok(sees_none && refuses && fs::read_to_string(rt, name)?.as_str() == "other")
}

/// A second site on the file waits for the first to end.
#[test]
fn keeps_a_file(rt: HostRuntime) -> Result<(), Fail> {
    let name = "warehouse.idb";
    let _ = fs::remove_file(&rt, name);
    let mut site = FileSite::new(&rt);
    assert_eq!(rt; is_blank(&mut site).ok(), Some(true));
    assert!(rt; !fs::exists(&rt, name)? && write_gap(&mut site).is_ok());
    assert_eq!(rt; shows_gap(&mut site).ok(), Some(true));
    let mut second = FileSite::new(&rt);
    assert!(rt; second.len().is_err() && matches!(second.last_error(), Some(SiteError::Locked)));
    drop_site(site);
    assert_eq!(rt; shows_gap(&mut second).ok(), Some(true));
    fs::remove_file(&rt, name)?;
    assert!(rt; takes_no_later_file(&rt, name)?);
    fs::remove_file(&rt, name)?;
    Ok(())
}

/// Closes the file of a site.
fn drop_site(_site: FileSite) {}

/// Whole pieces through a device that takes and gives one byte a call and is cut in on before each.
#[test]
fn moves_whole_pieces(rt: HostRuntime) -> Result<(), Fail> {
    let mut slow = SlowFile::new(rt.alloc());
    let mut into = [7; 9];
    assert!(rt;
        write_whole(&mut slow, 2, b"hello").is_ok() && write_whole(&mut slow, 5, b"p!").is_ok()
    );
    assert_eq!(rt; slow.bytes(), b"\0\0help!".as_slice());
    assert!(rt; read_whole(&mut slow, 1, &mut into).is_ok());
    assert_eq!(rt; into, *b"\0help!\0\0\0");
    Ok(())
}

#[test]
fn keeps_a_file_in_memory(rt: HostRuntime) -> Result<(), Fail> {
    let alloc = rt.alloc();
    let mut site = MemSite::new(Bytes::new(alloc), Numbers::new(alloc), None);
    assert_eq!(rt; is_blank(&mut site).ok(), Some(true));
    assert!(rt; write_gap(&mut site).is_ok());
    assert_eq!(rt; shows_gap(&mut site).ok(), Some(true));
    Ok(())
}

#[test]
fn goes_on_for_any_site(rt: HostRuntime) -> Result<(), Fail> {
    let alloc = rt.alloc();
    let mut site = MemSite::new(bytes(alloc, b"abcdefgh")?, Numbers::new(alloc), None);
    assert!(rt; write_twice(&mut site, 1, b"12", 6, b"345", b"done\n").is_ok());
    assert!(rt; site.content() == b"a12def345".as_slice() && site.said() == b"done\n".as_slice());
    assert!(rt; say_often(&mut site, b"line\n", 100_000).is_ok());
    assert_eq!(rt; site.said().len(), 500_005);
    Ok(())
}

/// Takes twenty times, and counts the calls that failed, and those that gave this many bytes.
fn drain(source: &mut MemSource, given: &mut Bytes, piece: usize) -> Result<(u8, u8), AllocError> {
    let (mut failed, mut whole) = (0u8, 0u8);
    for _ in 0..20 {
        let mut into = [0; 5];
        match source.take(&mut into) {
            Ok(amount) => {
                if amount == piece {
                    whole = whole.saturating_add(1);
                }
                given.append(&into[..amount])?;
            }
            Err(Failed) => failed = failed.saturating_add(1),
        }
    }
    Ok((failed, whole))
}

/// Pieces of a size, the calls that fail, and how many whole pieces come, of at most five bytes
/// each.
#[test]
fn gives_pieces(rt: HostRuntime) -> Result<(), Fail> {
    let alloc = rt.alloc();
    let rows = [(1, 1, 11), (2, 2, 5), (4, 4, 2), (7, 5, 2), (4096, 20, 2)];
    for (piece, fail, whole) in rows {
        let text = bytes(alloc, b"hello world")?;
        let mut source = MemSource::new(text, piece, numbers(alloc, &[fail])?);
        let mut given = Bytes::new(alloc);
        let counts = drain(&mut source, &mut given, piece.min(5))?;
        let ends = source.left().is_empty() && source.faults() == 1;
        assert!(rt; ends && counts == (1, whole), "piece {piece}");
        assert_eq!(rt; given.as_slice(), b"hello world".as_slice());
    }
    assert_eq!(rt; StdSource::new(&rt).take(&mut []).ok(), Some(0));
    Ok(())
}
