//! Sessions that a device or a source breaks off, and what the store holds then.
use super::{bytes_of, failing, run_in_memory, words_of};
use session_desk::Status;
use site_disk::{MemSite, MemSource};
use std::alloc::{AllocError, Global};
use std::test::Fail;
use vec_record::{Bytes, Numbers};

/// Two batches, a refused one between them, a watcher that is asked and dropped, and a report.
const SESSION: &str = "batch\n+,1,0\n+,2,1\n+,3,2\n+,4,3\n+,5,4\nend\nbatch\n+,1,9\nend\n\
watch 1\ndrop 1\nbatch\n-,3\nend\nreport\n";

/// The report of the store before the session, and after each of its batches.
const REPORTS: [&str; 3] = [
    "records 0 cores 0 borders 0 noise 0 clusters 0\n",
    "1 core 1\n2 core 1\n3 core 1\n4 core 1\n5 core 1\nrecords 5 cores 5 borders 0 noise 0 clusters 1\n",
    "1 core 1\n2 core 1\n4 core 4\n5 core 4\nrecords 4 cores 4 borders 0 noise 0 clusters 2\n",
];

/// Runs words on an input in pieces, with a take that is to fail, or none at 0.
fn run_on_site(
    rt: &HostRuntime,
    words: &str,
    input: &str,
    cuts: (usize, u32),
    site: &mut MemSite,
) -> Result<Status, AllocError> {
    let alloc = rt.alloc();
    let words = words_of(alloc, words)?;
    let input = bytes_of(alloc, input.as_bytes())?;
    let mut source = MemSource::new(input, cuts.0.max(1), failing(alloc, cuts.1)?);
    run_in_memory(rt, &words, &mut source, site)
}

fn device(
    alloc: Global,
    content: &[u8],
    fail: u32,
    stop: Option<u32>,
) -> Result<MemSite, AllocError> {
    Ok(MemSite::new(bytes_of(alloc, content)?, failing(alloc, fail)?, stop))
}

/// A device with a new store.
fn born(rt: &HostRuntime) -> Result<MemSite, AllocError> {
    let mut site = device(rt.alloc(), b"", 0, None)?;
    let _ = run_on_site(rt, "init l1 1 1 2 100", "", (1, 0), &mut site)?;
    Ok(site)
}

/// How many batches of the session an image holds, by its report; none where it is no such store.
fn batches_in(rt: &HostRuntime, image: &[u8]) -> Result<Option<usize>, AllocError> {
    let mut site = device(rt.alloc(), image, 0, None)?;
    let status = run_on_site(rt, "serve", "report\n", (4096, 0), &mut site)?;
    if status != Status::Fine {
        return Ok(None);
    }
    Ok(
        REPORTS
            .iter()
            .position(|report| report.as_bytes() == site.said()),
    )
}

/// How many whole receipts were said: lines that begin with these letters, and that end.
fn receipts_in(said: &[u8]) -> usize {
    let whole = said.iter().rposition(|byte| *byte == b'\n').unwrap_or(0);
    said[..whole]
        .split(|byte| *byte == b'\n')
        .filter(|line| line.starts_with(b"ok "))
        .count()
}

/// Whether each image that a crash may leave now holds as many batches as receipts were said, or
/// up to so many more.
fn keeps_batches(rt: &HostRuntime, site: &MemSite, more: usize) -> Result<bool, AllocError> {
    let said = receipts_in(site.said());
    let mut well = true;
    for pick in 0..4u8 {
        let image = site.crash_image(pick)?;
        let held = batches_in(rt, image.as_slice())?;
        well = well && held.is_some_and(|held| said <= held && held - said <= more);
    }
    Ok(well)
}

/// Whether an image is a new store, or blank where nothing was said.
fn is_born(rt: &HostRuntime, image: &[u8], said: &[u8]) -> Result<bool, AllocError> {
    let mut site = device(rt.alloc(), image, 0, None)?;
    let status = run_on_site(rt, "serve", "report\n", (4096, 0), &mut site)?;
    let new = status == Status::Fine && site.said() == REPORTS[0].as_bytes();
    Ok(new || (said.is_empty() && status == Status::Blank))
}

/// Whether each image that a crash may leave of a birth is the new store, or blank with nothing
/// said.
fn bears_well(rt: &HostRuntime, site: &MemSite) -> Result<bool, AllocError> {
    let mut well = true;
    for pick in 0..4u8 {
        let image = site.crash_image(pick)?;
        well = well && is_born(rt, image.as_slice(), site.said())?;
    }
    Ok(well)
}

/// How a run over a device ended.
#[derive(Clone, Copy, Drop)]
struct End {
    /// Whether the device or the source broke it off.
    cut: bool,
    /// Whether the status is what it should be, and each image that a crash may leave.
    well: bool,
}

/// Runs the session over a new store, or the birth of one, over a device.
fn end_on(rt: &HostRuntime, is_birth: bool, mut site: MemSite) -> Result<End, AllocError> {
    let (words, whole) = if is_birth {
        ("init l1 1 1 2 100", Status::Fine)
    } else {
        ("serve", Status::Refused)
    };
    let status = run_on_site(rt, words, SESSION, (4096, 0), &mut site)?;
    let cut = site.faults() > 0;
    let due = if cut { Status::SiteFault } else { whole };
    let well = if is_birth {
        bears_well(rt, &site)?
    } else {
        keeps_batches(rt, &site, 1)?
    };
    Ok(End {
        cut,
        well: well && status == due,
    })
}

/// Runs the session from a source in pieces, of which a take fails: each image then holds exactly
/// the batches whose receipts were said.
fn end_from(rt: &HostRuntime, store: &[u8], cuts: (usize, u32)) -> Result<End, AllocError> {
    let mut site = device(rt.alloc(), store, 0, None)?;
    let status = run_on_site(rt, "serve", SESSION, cuts, &mut site)?;
    let cut = status == Status::SourceFault;
    Ok(End {
        cut,
        well: (cut || status == Status::Refused) && keeps_batches(rt, &site, 0)?,
    })
}

/// The file before a session or a birth.
fn before(rt: &HostRuntime, is_birth: bool) -> Result<Bytes, AllocError> {
    if is_birth {
        return Ok(Bytes::new(rt.alloc()));
    }
    let store = born(rt)?;
    bytes_of(rt.alloc(), store.content())
}

/// The runs make no more device calls and no more takes than this.
const CALLS: u32 = 60;

/// Each call of the device fails in turn, each sync of a commit among them, or the device stops
/// before it; behind the last call nothing does.
#[test]
fn broken_off(rt: HostRuntime) -> Result<(), Fail> {
    for (is_birth, cuts) in [(false, 2 * 45), (true, 2 * 35)] {
        let content = before(&rt, is_birth)?;
        let mut cut = 0u32;
        for call in 0..=CALLS {
            for (fail, stop) in [(call + 1, None), (0, Some(call))] {
                let site = device(rt.alloc(), content.as_slice(), fail, stop)?;
                let end = end_on(&rt, is_birth, site)?;
                assert!(rt; end.well, "birth {is_birth}, call {call}, fails {fail}");
                cut = cut.saturating_add(u32::from(end.cut));
            }
        }
        assert_eq!(rt; cut, cuts, "birth {is_birth}");
    }
    Ok(())
}

/// Each take of the source fails in turn, whatever pieces it gives; behind the last nothing does.
#[test]
fn failing_sources(rt: HostRuntime) -> Result<(), Fail> {
    let store = born(&rt)?;
    for (piece, takes) in [(4096usize, 2), (2, 47), (7, 15)] {
        let mut cut = 0u32;
        for call in 1..=CALLS {
            let end = end_from(&rt, store.content(), (piece, call))?;
            assert!(rt; end.well, "piece {piece}, take {call}");
            cut = cut.saturating_add(u32::from(end.cut));
        }
        assert_eq!(rt; cut, takes, "piece {piece}");
    }
    Ok(())
}
