//! Single runs on inputs in memory, and what the other tables share.

ghost use Rattle.std.specs.Prelude.{◌≡◌, ◌<◌};

use event_feed::{LastHundred, Tally, Watcher};
use session_desk::{Status, run};
use site_disk::{MemSite, MemSource};
use std::alloc::{AllocError, Global};
use std::marker::Brand;
use std::sync::ledger::{Blank, Ledger};
use std::test::Fail;
use vec_record::{Bytes, Numbers, Steps};

mod crashes;
mod lines;
mod lives;
mod questions;
mod stores;
mod trials;
mod watching;

const USAGE: &str =
    "usage: once METRIC DIM EPS MINPTS, init METRIC DIM EPS MINPTS CAP, serve, check, trial SEED COUNT\n";

fn run_with<L: Ledger>(
    rt: &HostRuntime,
    words: &[String],
    source: &mut MemSource,
    site: &mut MemSite,
    watchers: Vec<Box<dyn Watcher>>,
    blank: Blank,
) -> Status
    requires name { blank.name ≡ L.name }
    requires parts { blank.parts ≡ L.parts }
    requires some { 0 < blank.parts }
{
    let mut steps = Steps::<L>::new(rt, blank);
    run(rt.alloc(), words, source, site, watchers, &mut steps)
}

/// How a run ended, and what stands after it.
#[derive(Drop)]
struct Outcome {
    status: Status,
    said: Vec<u8>,
    source_faults: u64,
    site_faults: u64,
    wants: u64,
}

/// Runs the program with these watchers.
fn run_watched(
    rt: &HostRuntime,
    words: &[String],
    source: &mut MemSource,
    site: &mut MemSite,
    watchers: Vec<Box<dyn Watcher>>,
) -> Status {
    run_with::<Brand>(rt, words, source, site, watchers, Blank::new(1))
}

/// Runs the program with the watchers that it has.
fn run_in_memory(
    rt: &HostRuntime,
    words: &[String],
    source: &mut MemSource,
    site: &mut MemSite,
) -> Result<Status, AllocError> {
    let alloc = rt.alloc();
    let mut watchers: Vec<Box<dyn Watcher>> = Vec::with_capacity(alloc, 2)?;
    watchers.push(Box::new(alloc, Tally::new())?)?;
    watchers.push(Box::new(alloc, LastHundred::new(alloc)?)?)?;
    Ok(run_watched(rt, words, source, site, watchers))
}

fn ended(
    alloc: Global,
    status: Status,
    source: &MemSource,
    site: &MemSite,
) -> Result<Outcome, AllocError> {
    Ok(Outcome {
        status,
        said: Vec::from_slice(alloc, site.said())?,
        source_faults: source.faults(),
        site_faults: site.faults(),
        wants: site.wants(),
    })
}

/// Runs the program on an input in pieces, with a take or a say that is to fail, or none at 0.
fn run_on(
    rt: &HostRuntime,
    words: &str,
    input: Bytes,
    piece: usize,
    fails: (u32, u32),
) -> Result<Outcome, AllocError> {
    let alloc = rt.alloc();
    let words = words_of(alloc, words)?;
    let mut source = MemSource::new(input, piece.max(1), failing(alloc, fails.0)?);
    let mut site = MemSite::new(Bytes::new(alloc), failing(alloc, fails.1)?, None);
    let status = run_in_memory(rt, &words, &mut source, &mut site)?;
    ended(alloc, status, &source, &site)
}

/// The words of a command line, which has single spaces between them.
fn words_of(alloc: Global, line: &str) -> Result<Vec<String>, AllocError> {
    let mut words = Vec::new(alloc);
    if !line.is_empty() {
        for word in line.split(' ') {
            words.push(String::from_str(alloc, word)?)?;
        }
    }
    Ok(words)
}

fn bytes_of(alloc: Global, text: &[u8]) -> Result<Bytes, AllocError> {
    let mut bytes = Bytes::new(alloc);
    bytes.append(text)?;
    Ok(bytes)
}

/// The calls that are to fail: one, or none where the number is 0.
fn failing(alloc: Global, call: u32) -> Result<Numbers, AllocError> {
    let mut calls = Numbers::new(alloc);
    if call != 0 {
        calls.push(call)?;
    }
    Ok(calls)
}

/// Numbers from 1 on, all at one place or each at its own, as records.
fn rising_records(alloc: Global, count: u32, apart: bool) -> Result<String, AllocError> {
    let mut text = String::new(alloc);
    for i in 0..count {
        let number = u64::from(i) + 1;
        let coordinate = if apart { i } else { 7 };
        let line = format!(in alloc; "+,{number},{coordinate}\n")?;
        text.push_str(line.as_str())?;
    }
    Ok(text)
}

/// The report in which all numbers from 1 on are cores of the cluster 1.
fn one_cluster(alloc: Global, count: u32) -> Result<String, AllocError> {
    let mut text = String::new(alloc);
    for i in 0..count {
        let number = u64::from(i) + 1;
        let line = format!(in alloc; "{number} core 1\n")?;
        text.push_str(line.as_str())?;
    }
    let last = format!(in alloc; "records {count} cores {count} borders 0 noise 0 clusters 1\n")?;
    text.push_str(last.as_str())?;
    Ok(text)
}

/// Words and an input, and how a run on them ends.
struct Row {
    words: &'static str,
    input: &'static [u8],
    status: Status,
    said: &'static str,
}

const ROWS: &[Row] = &[
    Row {
        words: "once l1 1 1 2",
        input: b"+,1,0\n+,2,1\n+,3,9\n",
        status: Status::Fine,
        said: "1 core 1\n2 core 1\n3 noise\nrecords 3 cores 2 borders 0 noise 1 clusters 1\n",
    },
    Row {
        words: "once l1 1 0 1",
        input: b"+,7,5\n+,3,5\n",
        status: Status::Fine,
        said: "3 core 3\n7 core 3\nrecords 2 cores 2 borders 0 noise 0 clusters 1\n",
    },
    Row {
        words: "once l1 1 1 4",
        input: b"+,1,8\n+,2,8\n+,3,9\n+,4,11\n+,5,12\n+,6,12\n+,7,10\n",
        status: Status::Fine,
        said: "1 border 3\n2 border 3\n3 core 3\n4 core 4\n5 border 4\n6 border 4\n7 border 3\nrecords 7 cores 2 borders 5 noise 0 clusters 2\n",
    },
    Row {
        words: "once max 2 3 2",
        input: b"+,1,0,0\n+,2,3,3\n+,3,4,7\n",
        status: Status::Fine,
        said: "1 core 1\n2 core 1\n3 noise\nrecords 3 cores 2 borders 0 noise 1 clusters 1\n",
    },
    Row {
        words: "once hamming 9 1 2",
        input: b"+,1,000000000\n+,2,000000001\n+,3,110000000\n",
        status: Status::Fine,
        said: "1 core 1\n2 core 1\n3 noise\nrecords 3 cores 2 borders 0 noise 1 clusters 1\n",
    },
    Row {
        words: "once hamming 9 1 2",
        input: b"+,1,000000000\n+,2,0000,00001\n+,3,110000000\n",
        status: Status::Fine,
        said: "1 core 1\n2 core 1\n3 noise\nrecords 3 cores 2 borders 0 noise 1 clusters 1\n",
    },
    Row {
        words: "once l1 2 1 2",
        input: b"+,1,0,0\n+,2,0,1\n",
        status: Status::Fine,
        said: "1 core 1\n2 core 1\nrecords 2 cores 2 borders 0 noise 0 clusters 1\n",
    },
    Row {
        words: "once l1 01 0000000001 2",
        input: b"\n\n+,0000000001,0\n\n+,2,001",
        status: Status::Fine,
        said: "1 core 1\n2 core 1\nrecords 2 cores 2 borders 0 noise 0 clusters 1\n",
    },
    Row {
        words: "once l1 1 1 2",
        input: b"+,4294967295,1\n",
        status: Status::Fine,
        said: "4294967295 noise\nrecords 1 cores 0 borders 0 noise 1 clusters 0\n",
    },
    Row {
        words: "once l1 1 65535 65535",
        input: b"+,1,0\n",
        status: Status::Fine,
        said: "1 noise\nrecords 1 cores 0 borders 0 noise 1 clusters 0\n",
    },
    Row {
        words: "once l1 1 1 2",
        input: b"",
        status: Status::Fine,
        said: "records 0 cores 0 borders 0 noise 0 clusters 0\n",
    },
    Row {
        words: "once l1 1 1 2",
        input: b"+,1,0\n-,1\n",
        status: Status::Fine,
        said: "records 0 cores 0 borders 0 noise 0 clusters 0\n",
    },
    Row {
        words: "once l1 1 0 1",
        input: b"+,5,0\n-,5\n+,5,9\n",
        status: Status::Fine,
        said: "5 core 5\nrecords 1 cores 1 borders 0 noise 0 clusters 1\n",
    },
    Row {
        words: "once l1 1 1 2",
        input: b"\"+\",\"1\",\"0\"\r\n",
        status: Status::Fine,
        said: "1 noise\nrecords 1 cores 0 borders 0 noise 1 clusters 0\n",
    },
    Row {
        words: "once l1 1 1 2",
        input: b"\xef\xbb\xbf+,1,0\n",
        status: Status::Fine,
        said: "1 noise\nrecords 1 cores 0 borders 0 noise 1 clusters 0\n",
    },
    Row {
        words: "once l1 1 1 2",
        input: b"+,1,0\r+,2,1\r",
        status: Status::Fine,
        said: "1 core 1\n2 core 1\nrecords 2 cores 2 borders 0 noise 0 clusters 1\n",
    },
    Row {
        words: "once l1 1 1 2",
        input: b"\r\n\n+,1,0\n\r\n+,2,1\n",
        status: Status::Fine,
        said: "1 core 1\n2 core 1\nrecords 2 cores 2 borders 0 noise 0 clusters 1\n",
    },
    Row {
        words: "once l1 1 1 2",
        input: b"+,1,0\n+,\"2\"\"\",1\n",
        status: Status::Refused,
        said: "refused 11 at 2\n",
    },
    Row {
        words: "once l1 1 1 2",
        input: b"+,1,0\n+,2\"2,1\n",
        status: Status::Refused,
        said: "refused 11 at 2\n",
    },
    Row {
        words: "once l1 1 1 2",
        input: b"+,1,0\n\"+,2,1\n+,1,0\n",
        status: Status::Refused,
        said: "refused 11 at 2\n",
    },
    Row {
        words: "once l1 1 1 2",
        input: b"+,1,0\n+,2,0\n+,1,9\n*",
        status: Status::Refused,
        said: "refused 13 at 3\n",
    },
    Row {
        words: "once l1 1 1 2",
        input: b"+,1,0\n*\n+,1,9\n",
        status: Status::Refused,
        said: "refused 11 at 2\n",
    },
    Row {
        words: "once l1 1 1 2",
        input: b"+,4,256,1\n",
        status: Status::Refused,
        said: "refused 11 at 1\n",
    },
    Row {
        words: "once l1 1 1 2",
        input: b"-,4,1\n",
        status: Status::Refused,
        said: "refused 11 at 1\n",
    },
    Row {
        words: "once l1 1 1 2",
        input: b"+,0,1\n",
        status: Status::Refused,
        said: "refused 11 at 1\n",
    },
    Row {
        words: "once l1 1 1 2",
        input: b"+,4294967296,1\n",
        status: Status::Refused,
        said: "refused 11 at 1\n",
    },
    Row {
        words: "once l1 1 1 2",
        input: b"*,4,1\n",
        status: Status::Refused,
        said: "refused 11 at 1\n",
    },
    Row {
        words: "once l1 1 1 2",
        input: b"+,4,\n",
        status: Status::Refused,
        said: "refused 11 at 1\n",
    },
    Row {
        words: "once l1 1 1 2",
        input: b"+,4,\xff\n",
        status: Status::Refused,
        said: "refused 11 at 1\n",
    },
    Row {
        words: "once l1 1 1 2",
        input: b"+,00000000001,1\n",
        status: Status::Refused,
        said: "refused 11 at 1\n",
    },
    Row {
        words: "once l1 1 1 2",
        input: b"+,4\n",
        status: Status::Refused,
        said: "refused 12 at 1\n",
    },
    Row {
        words: "once l1 1 1 2",
        input: b"+,4,1,1\n",
        status: Status::Refused,
        said: "refused 12 at 1\n",
    },
    Row {
        words: "once hamming 9 1 2",
        input: b"+,1,0000,0000\n",
        status: Status::Refused,
        said: "refused 12 at 1\n",
    },
    Row {
        words: "once hamming 9 1 2",
        input: b"+,1,00000000,2\n",
        status: Status::Refused,
        said: "refused 11 at 1\n",
    },
    Row {
        words: "once l1 1 1 2",
        input: b"-,4\n",
        status: Status::Refused,
        said: "refused 14 at 1\n",
    },
    Row {
        words: "",
        input: b"+,1,0\n",
        status: Status::Words,
        said: USAGE,
    },
    Row {
        words: "serve now",
        input: b"+,1,0\n",
        status: Status::Words,
        said: USAGE,
    },
    Row {
        words: "once l1 0 1 2",
        input: b"+,1,0\n",
        status: Status::Words,
        said: USAGE,
    },
    Row {
        words: "once l1 257 1 2",
        input: b"+,1,0\n",
        status: Status::Words,
        said: USAGE,
    },
    Row {
        words: "once hamming 2049 1 2",
        input: b"+,1,0\n",
        status: Status::Words,
        said: USAGE,
    },
    Row {
        words: "once l1 1 65536 2",
        input: b"+,1,0\n",
        status: Status::Words,
        said: USAGE,
    },
    Row {
        words: "once l1 1 1 0",
        input: b"+,1,0\n",
        status: Status::Words,
        said: USAGE,
    },
    Row {
        words: "once l1 1 1 65536",
        input: b"+,1,0\n",
        status: Status::Words,
        said: USAGE,
    },
    Row {
        words: "once l2 1 1 2",
        input: b"+,1,0\n",
        status: Status::Words,
        said: USAGE,
    },
    Row {
        words: "once l1 1 1 2 3",
        input: b"+,1,0\n",
        status: Status::Words,
        said: USAGE,
    },
    Row {
        words: "once l1 1 -1 2",
        input: b"+,1,0\n",
        status: Status::Words,
        said: USAGE,
    },
];

/// Whether a run ended as its row has it, and no device failed.
fn ends_as(row: &Row, end: &Outcome) -> bool {
    let calm = end.source_faults == 0 && end.site_faults == 0 && end.wants == 0;
    calm && end.status == row.status && end.said.as_slice() == row.said.as_bytes()
}

/// Whether a run ended with nothing said because the site failed once.
fn ends_unsaid(end: &Outcome) -> bool {
    let failed = end.status == Status::SiteFault && end.site_faults == 1;
    failed && end.said.is_empty() && end.wants == 0
}

/// What the words and the input of a row say, in pieces of each size. They call the site once, to
/// say it: where its second call is to fail, nothing fails, and where the first one is, nothing is
/// said.
#[test]
fn rows(rt: HostRuntime) -> Result<(), Fail> {
    for row in ROWS {
        for (piece, fail) in [(1usize, 2u32), (2, 2), (7, 2), (4096, 2), (7, 1)] {
            let input = bytes_of(rt.alloc(), row.input)?;
            let end = run_on(&rt, row.words, input, piece, (0, fail))?;
            let well = if fail == 1 {
                ends_unsaid(&end)
            } else {
                ends_as(row, &end)
            };
            assert!(rt; well, "{}: {:?}", row.words, row.input);
        }
    }
    Ok(())
}

/// A take that fails at first, in the middle or at the end of the input ends the run with nothing
/// said; one past the last is not made. The 18 bytes and the end of the input take 19 calls of one
/// byte, 10 of two, 4 of seven and 2 of 4,096.
#[test]
fn failing_takes(rt: HostRuntime) -> Result<(), Fail> {
    for (piece, call, fails) in [
        (1usize, 1u32, true),
        (1, 10, true),
        (1, 19, true),
        (1, 20, false),
        (2, 10, true),
        (2, 11, false),
        (7, 2, true),
        (7, 4, true),
        (7, 5, false),
        (4096, 1, true),
        (4096, 2, true),
        (4096, 3, false),
    ] {
        let input = bytes_of(rt.alloc(), b"+,1,0\n+,2,1\n+,3,9\n")?;
        let end = run_on(&rt, "once l1 1 1 2", input, piece, (call, 0))?;
        assert_eq!(rt;
            end.status == Status::SourceFault,
            fails,
            "call {call} of {piece}"
        );
        assert_eq!(rt; end.source_faults == 1, fails, "call {call} of {piece}");
        assert_eq!(rt; end.said.is_empty(), fails, "call {call} of {piece}");
    }
    Ok(())
}

/// Equal vectors, and a chain of points, are one cluster.
#[test]
fn whole_clusters(rt: HostRuntime) -> Result<(), Fail> {
    for (words, count, apart) in [
        ("once l1 1 0 1", 31u32, false),
        ("once l1 1 1 2", 200, true),
    ] {
        let input = bytes_of(
            rt.alloc(),
            rising_records(rt.alloc(), count, apart)?.as_bytes(),
        )?;
        let end = run_on(&rt, words, input, 4096, (0, 0))?;
        assert_eq!(rt; end.status, Status::Fine);
        assert_eq!(rt;
            end.said.as_slice(),
            one_cluster(rt.alloc(), count)?.as_bytes()
        );
    }
    Ok(())
}

/// So many times the same line.
fn repeated(alloc: Global, line: &[u8], count: u32) -> Result<Bytes, AllocError> {
    let mut bytes = Bytes::new(alloc);
    for _ in 0..count {
        bytes.append(line)?;
    }
    Ok(bytes)
}

/// An input of as many bytes as there may be is read, one of a byte more is not; a batch of as many
/// records as there may be is judged, one of a record more is not.
#[test]
fn longest_inputs(rt: HostRuntime) -> Result<(), Fail> {
    for (line, count, status, said) in [
        (
            b"\n".as_slice(),
            67_108_864u32,
            Status::Fine,
            "records 0 cores 0 borders 0 noise 0 clusters 0\n",
        ),
        (
            b"\n".as_slice(),
            67_108_865,
            Status::TooLong,
            "session too long\n",
        ),
        (
            b"-,1\n".as_slice(),
            100_000,
            Status::Refused,
            "refused 14 at 1\n",
        ),
        (
            b"-,1\n".as_slice(),
            100_001,
            Status::Refused,
            "refused 16\n",
        ),
    ] {
        let input = repeated(rt.alloc(), line, count)?;
        let end = run_on(&rt, "once l1 1 1 2", input, 4096, (0, 0))?;
        assert_eq!(rt; end.status, status, "{count}");
        assert_eq!(rt; end.said.as_slice(), said.as_bytes(), "{count}");
    }
    Ok(())
}

/// A line of 4,096 bytes is judged as a record; one of a byte more is refused, before too many
/// records are, and its CR counts.
#[test]
fn longest_lines(rt: HostRuntime) -> Result<(), Fail> {
    for (letters, last, count, said) in [
        (4096u32, b"".as_slice(), 0u32, "refused 11 at 1\n"),
        (4096, b"\n".as_slice(), 0, "refused 11 at 1\n"),
        (4096, b"\r\n".as_slice(), 0, "refused 18\n"),
        (4097, b"".as_slice(), 0, "refused 18\n"),
        (4097, b"\n".as_slice(), 100_001, "refused 18\n"),
    ] {
        let mut input = repeated(rt.alloc(), b"-,1\n", count)?;
        input.append(repeated(rt.alloc(), b"x", letters)?.as_slice())?;
        input.append(last)?;
        let end = run_on(&rt, "once l1 1 1 2", input, 4096, (0, 0))?;
        assert_eq!(rt; end.status, Status::Refused, "{letters}");
        assert_eq!(rt; end.said.as_slice(), said.as_bytes(), "{letters}");
    }
    Ok(())
}

/// The process ends with the place of the status.
#[test]
fn status_numbers(rt: HostRuntime) {
    assert_eq!(rt; Status::Fine.number(), 0);
    assert_eq!(rt; Status::Words.number(), 2);
    assert_eq!(rt; Status::TooLong.number(), 8);
    assert_eq!(rt; Status::Differs.number(), 10);
}
