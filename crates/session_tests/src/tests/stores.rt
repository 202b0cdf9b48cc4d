//! Files that were made or changed by hand, and inputs and lines of the greatest length.
use super::{bytes_of, ended, repeated, run_in_memory, words_of};
use session_desk::Status;
use site_disk::{MemSite, MemSource, Site};
use std::alloc::{AllocError, Global};
use std::test::Fail;
use vec_record::{Bytes, Numbers};

/// The runs that may be made before a file is changed: the birth of its store, and a batch with two
/// cores.
const RUNS: [(&str, &str); 2] = [
    ("init l1 1 1 2 100", ""),
    ("serve", "batch\n+,1,0\n+,2,1\nend\n"),
];

/// The content of a file behind so many of them.
fn made(rt: &HostRuntime, runs: usize) -> Result<Bytes, AllocError> {
    let alloc = rt.alloc();
    let mut site = MemSite::new(Bytes::new(alloc), Numbers::new(alloc), None);
    for (words, input) in RUNS.iter().take(runs) {
        let words = words_of(alloc, words)?;
        let input = bytes_of(alloc, input.as_bytes())?;
        let mut source = MemSource::new(input, 4096, Numbers::new(alloc));
        let _ = run_in_memory(rt, &words, &mut source, &mut site)?;
    }
    bytes_of(alloc, site.content())
}

/// A new store has a gate page and a head page, whose other bytes are zero.
#[test]
fn new_store_bytes(rt: HostRuntime) -> Result<(), Fail> {
    let mut due = bytes_of(rt.alloc(), b"\x01\0denswh")?;
    due.append(repeated(rt.alloc(), b"\0", 16_376)?.as_slice())?;
    due.append(b"\x02\0\0\0\x01\0\0\0\x01\0\0\0\x01\0\0\0\x01\0\0\0\x02\0\0\0\x64\0\0\0")?;
    due.append(repeated(rt.alloc(), b"\0", 16_356)?.as_slice())?;
    assert_eq!(rt; made(&rt, 1)?.as_slice(), due.as_slice());
    Ok(())
}

/// Where the pages behind two cores begin, and with which bytes: the head page with one batch, two
/// records, the root and one level; the slots of the two, each with its count and its label; the
/// leaf with both.
const SAVED: [(usize, &[u8]); 3] = [
    (
        16_384,
        b"\x04\0\0\0\x01\0\0\0\x01\0\0\0\x01\0\0\0\x01\0\0\0\x02\0\0\0\x64\0\0\0\
        \x01\0\0\0\x02\0\0\0\xc0\0\0\0\x01\0\0\0\0",
    ),
    (
        32_768,
        b"\x01\0\0\0\0\0\0\0\0\0\0\0\0\0\0\0\
        \x01\0\0\0\x02\0\0\0\0\0\0\0\x01\0\0\0\0\
        \x02\0\0\0\x02\0\0\0\0\0\0\0\x01\0\0\0\x01\0",
    ),
    (
        49_152,
        b"\x02\0\0\0\0\0\0\0\0\0\0\0\0\0\0\0\
        \x02\0\0\0\0\0\0\0\0\0\0\0\0\0\0\0\
        \x01\0\0\0\0\0\0\0\x02\0\0\0\0\0\0\0\0",
    ),
];

/// A batch is saved as pages of records and of leaves, with three redo items behind four pages.
#[test]
fn saved_bytes(rt: HostRuntime) -> Result<(), Fail> {
    let content = made(&rt, 2)?;
    assert_eq!(rt; content.len(), 4 * 16_384 + 3 * 16_392);
    for (at, due) in &SAVED {
        let begins = match content.as_slice().get(*at..) {
            Some(rest) => rest.starts_with(due),
            None => false,
        };
        assert!(rt; begins, "{at}");
    }
    Ok(())
}

/// What a run over a file with this content comes to.
fn run_on_file(
    rt: &HostRuntime,
    words: &str,
    input: Bytes,
    mut site: MemSite,
) -> Result<(Status, Bytes), AllocError> {
    let alloc = rt.alloc();
    let words = words_of(alloc, words)?;
    let mut source = MemSource::new(input, 4096, Numbers::new(alloc));
    let status = run_in_memory(rt, &words, &mut source, &mut site)?;
    Ok((status, bytes_of(alloc, site.said())?))
}

/// A file that was changed by hand.
#[derive(Clone, Copy, Drop)]
struct Changed {
    /// How many runs were made before.
    runs: usize,
    at: u64,
    bytes: &'static [u8],
    words: &'static str,
    input: &'static str,
    status: Status,
    said: &'static str,
}

const CHANGED: [Changed; 15] = [
    Changed {
        runs: 0,
        at: 99,
        bytes: b"\0",
        words: "serve",
        input: "report\n",
        status: Status::Blank,
        said: "blank store\n",
    },
    Changed {
        runs: 0,
        at: 99,
        bytes: b"\0",
        words: "init l1 1 1 2 100",
        input: "",
        status: Status::Fine,
        said: "born\n",
    },
    Changed {
        runs: 0,
        at: 39_999,
        bytes: b"\0",
        words: "serve",
        input: "report\n",
        status: Status::Broken,
        said: "foreign store\n",
    },
    Changed {
        runs: 0,
        at: 39_999,
        bytes: b"\0",
        words: "init l1 1 1 2 100",
        input: "",
        status: Status::Exists,
        said: "store exists\n",
    },
    // The version of the store: an unknown one, and the one before the tree was kept.
    Changed {
        runs: 1,
        at: 16_388,
        bytes: b"\x07",
        words: "serve",
        input: "report\n",
        status: Status::Broken,
        said: "foreign store\n",
    },
    Changed {
        runs: 1,
        at: 16_388,
        bytes: b"\0",
        words: "serve",
        input: "report\n",
        status: Status::Broken,
        said: "foreign store\n",
    },
    // The metric.
    Changed {
        runs: 1,
        at: 16_392,
        bytes: b"\x09",
        words: "serve",
        input: "report\n",
        status: Status::Broken,
        said: "damaged page 1 offset 8\n",
    },
    // How many records it has: one, and no root.
    Changed {
        runs: 1,
        at: 16_416,
        bytes: b"\x01",
        words: "serve",
        input: "report\n",
        status: Status::Broken,
        said: "damaged page 1 offset 36\n",
    },
    // How many records it has: one that isn't there.
    Changed {
        runs: 2,
        at: 16_416,
        bytes: b"\x03",
        words: "serve",
        input: "report\n",
        status: Status::Broken,
        said: "damaged page 1 offset 32\n",
    },
    // The root: a leaf slot that is free.
    Changed {
        runs: 2,
        at: 16_420,
        bytes: b"\xc1",
        words: "serve",
        input: "report\n",
        status: Status::Broken,
        said: "damaged page 1 offset 36\n",
    },
    // The count of the first record: by it it isn't a core, and has a label all the same.
    Changed {
        runs: 2,
        at: 32_788,
        bytes: b"\x01",
        words: "serve",
        input: "report\n",
        status: Status::Broken,
        said: "damaged page 2 offset 28\n",
    },
    // The label of the first record: a number that isn't below its own.
    Changed {
        runs: 2,
        at: 32_796,
        bytes: b"\x02",
        words: "serve",
        input: "report\n",
        status: Status::Broken,
        said: "damaged page 2 offset 28\n",
    },
    // The second number in the leaf: it has no record.
    Changed {
        runs: 2,
        at: 49_192,
        bytes: b"\x03",
        words: "serve",
        input: "report\n",
        status: Status::Broken,
        said: "damaged page 3 offset 40\n",
    },
    // Its distance from an object above: the leaf is the root.
    Changed {
        runs: 2,
        at: 49_196,
        bytes: b"\x01",
        words: "serve",
        input: "report\n",
        status: Status::Broken,
        said: "damaged page 3 offset 44\n",
    },
    // The number of batches: no more can come.
    Changed {
        runs: 1,
        at: 16_412,
        bytes: b"\xff\xff\xff\xff",
        words: "serve",
        input: "batch\n+,1,0\nend\nreport\n",
        status: Status::Refused,
        said: "refused 19\nrecords 0 cores 0 borders 0 noise 0 clusters 0\n",
    },
];

/// The file before its change.
fn before(rt: &HostRuntime, runs: usize) -> Result<MemSite, AllocError> {
    let content = made(rt, runs)?;
    Ok(MemSite::new(content, Numbers::new(rt.alloc()), None))
}

/// Whether a run over a changed file comes to what its row says.
fn comes_to(rt: &HostRuntime, row: &Changed) -> Result<bool, AllocError> {
    let alloc = rt.alloc();
    let mut site = before(rt, row.runs)?;
    let made = row.at < 100_000 && site.write_at(row.at, row.bytes).is_ok();
    let input = bytes_of(alloc, row.input.as_bytes())?;
    let (status, said) = run_on_file(rt, row.words, input, site)?;
    Ok(made && status == row.status && said.as_slice() == row.said.as_bytes())
}

#[test]
fn changed_files(rt: HostRuntime) -> Result<(), Fail> {
    for row in &CHANGED {
        assert!(rt; comes_to(&rt, row)?, "{}: {}", row.at, row.words);
    }
    Ok(())
}

/// A line of so many letters, by itself or in a batch.
fn long_line(alloc: Global, letters: u32, in_batch: bool) -> Result<Bytes, AllocError> {
    let mut input = Bytes::new(alloc);
    if in_batch {
        input.append(b"batch\n")?;
    }
    input.append(repeated(alloc, b"x", letters)?.as_slice())?;
    input.append(if in_batch {
        b"\nend\n"
    } else {
        b"\n".as_slice()
    })?;
    Ok(input)
}

#[test]
fn long_lines(rt: HostRuntime) -> Result<(), Fail> {
    for (letters, in_batch, said) in [
        (4096u32, false, "refused 21\n"),
        (4097, false, "refused 18\n"),
        (4096, true, "refused 11 at 1\n"),
        (4097, true, "refused 18\n"),
    ] {
        let site = before(&rt, 1)?;
        let input = long_line(rt.alloc(), letters, in_batch)?;
        let end = run_on_file(&rt, "serve", input, site)?;
        assert_eq!(rt; end.0, Status::Refused, "{letters} {in_batch}");
        assert_eq!(rt; end.1.as_slice(), said.as_bytes(), "{letters} {in_batch}");
    }
    Ok(())
}

const LINE_FEEDS: &[u8; 64] =
    b"\n\n\n\n\n\n\n\n\n\n\n\n\n\n\n\n\n\n\n\n\n\n\n\n\n\n\n\n\n\n\n\n\n\n\n\n\n\n\n\n\n\n\n\n\n\n\n\n\n\n\n\n\n\n\n\n\n\n\n\n\n\n\n\n";

/// What a session of 64 MiB of line feeds, with bytes before and behind them, comes to over a new
/// store.
fn feed(rt: &HostRuntime, front: &[u8], more: &[u8]) -> Result<(Status, Bytes), AllocError> {
    let alloc = rt.alloc();
    let site = before(rt, 1)?;
    let mut input = bytes_of(alloc, front)?;
    input.append(repeated(alloc, LINE_FEEDS, 1_048_576)?.as_slice())?;
    input.append(more)?;
    run_on_file(rt, "serve", input, site)
}

/// A session of as many bytes as there may be is read to its end, and one of a byte more is too
/// long. A batch that is open where the bytes that count end has no answer.
#[test]
fn longest_sessions(rt: HostRuntime) -> Result<(), Fail> {
    for (front, more, status, said) in [
        ("", "", Status::Fine, ""),
        ("", "\n", Status::TooLong, "session too long\n"),
        ("batch\n", "end\n", Status::TooLong, "session too long\n"),
    ] {
        let end = feed(&rt, front.as_bytes(), more.as_bytes())?;
        assert!(rt;
            end.0 == status && end.1.as_slice() == said.as_bytes(),
            "{front:?} {more:?}"
        );
    }
    Ok(())
}
