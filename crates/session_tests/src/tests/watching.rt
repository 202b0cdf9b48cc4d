//! Sessions whose watchers are asked and dropped: those of the program, and a test's own.

ghost use Rattle.std.specs.Prelude.{◌≡◌};

use super::lives::{Turn, first_undue};
use super::{bytes_of, failing, rising_records, run_in_memory, run_watched, words_of};
use event_feed::Watcher;
use session_desk::Status;
use site_disk::{MemSite, MemSource};
use std::alloc::{AllocError, Global};
use std::cell::Cell;
use std::rc::Rc;
use std::test::Fail;
use vec_record::{Bytes, Event, Numbers};

const MERGED: &str =
    "batch\n+,1,0\n+,2,1\n+,4,3\n+,5,4\nend\nbatch\n+,3,2\nend\nwatch 1\nwatch 2\n";

/// A refused batch between two texts that are the same, a watcher that is dropped, and one that
/// goes on.
const DROPPED: &str = "batch\n+,1,0\n+,2,1\nend\nwatch 1\nbatch\n+,1,5\nend\nwatch 1\n\
drop 1\nwatch 1\nwatch 2\nbatch\n-,2\nend\nwatch 2\n";

const SLOTS: &str = "drop 2\ndrop 2\nwatch 1\nwatch 3\ndrop 3\nwatch 4294967295\n\
watch 0001\nwatch 0\ndrop 0\nwatch 4294967296\nwatch 00000000001\nwatch  1\nwatch 1 \nWatch 1\n\
watch\nwatch x\ndrop 001\n";

const WATCHED: [&[Turn]; 3] = [
    &[
        ("init l1 1 1 2 100", "", Status::Fine, "born\n"),
        (
            "serve",
            MERGED,
            Status::Fine,
            "ok 1 +4 -0 noise 2 created 2 absorbed 0 merged 0 removed 0 reduced 0 split 0\n\
            ok 2 +1 -0 noise 0 created 0 absorbed 0 merged 2 removed 0 reduced 0 split 0\n\
            tally noise 2 created 2 absorbed 0 merged 2 removed 0 reduced 0 split 0\n\
            recent 6\nnoise 0 1\ncreated 0 1\nnoise 0 4\ncreated 0 4\nmerged 1 1\nmerged 4 1\n",
        ),
        (
            "serve",
            "watch 1\nwatch 2\n",
            Status::Fine,
            "tally noise 0 created 0 absorbed 0 merged 0 removed 0 reduced 0 split 0\nrecent 0\n",
        ),
    ],
    &[
        ("init l1 1 1 2 100", "", Status::Fine, "born\n"),
        (
            "serve",
            DROPPED,
            Status::Refused,
            "ok 1 +2 -0 noise 1 created 1 absorbed 0 merged 0 removed 0 reduced 0 split 0\n\
            tally noise 1 created 1 absorbed 0 merged 0 removed 0 reduced 0 split 0\n\
            refused 13 at 1\n\
            tally noise 1 created 1 absorbed 0 merged 0 removed 0 reduced 0 split 0\n\
            dropped 1\nrefused 24\nrecent 2\nnoise 0 1\ncreated 0 1\n\
            ok 2 +0 -1 noise 0 created 0 absorbed 0 merged 0 removed 1 reduced 0 split 0\n\
            recent 3\nnoise 0 1\ncreated 0 1\nremoved 1 0\n",
        ),
    ],
    &[
        ("init l1 1 1 2 100", "", Status::Fine, "born\n"),
        (
            "serve",
            SLOTS,
            Status::Refused,
            "dropped 2\nrefused 24\n\
            tally noise 0 created 0 absorbed 0 merged 0 removed 0 reduced 0 split 0\n\
            refused 24\nrefused 24\nrefused 24\n\
            tally noise 0 created 0 absorbed 0 merged 0 removed 0 reduced 0 split 0\n\
            refused 21\nrefused 21\nrefused 21\nrefused 21\nrefused 21\nrefused 21\nrefused 21\n\
            refused 21\nrefused 21\ndropped 1\n",
        ),
    ],
];

#[test]
fn watched_lives(rt: HostRuntime) -> Result<(), Fail> {
    for (number, turns) in WATCHED.iter().enumerate() {
        if let Some((place, end)) = first_undue(&rt, turns, 4096)? {
            assert_eq!(rt;
                String::from_utf8_lossy(rt.alloc(), &end.said)?.as_str(),
                "",
                "life {number}, turn {place}"
            );
        }
    }
    Ok(())
}

/// A new store, as `init` with these parameters makes it.
fn born(rt: &HostRuntime, words: &str) -> Result<MemSite, AllocError> {
    let alloc = rt.alloc();
    let words = words_of(alloc, words)?;
    let mut source = MemSource::new(Bytes::new(alloc), 1, Numbers::new(alloc));
    let mut site = MemSite::new(Bytes::new(alloc), Numbers::new(alloc), None);
    let _ = run_in_memory(rt, &words, &mut source, &mut site)?;
    let content = bytes_of(alloc, site.content())?;
    Ok(MemSite::new(content, Numbers::new(alloc), None))
}

/// What a session over a new store says of 101 equal vectors, which are one event more than the
/// second watcher keeps.
fn hundred_and_one(rt: &HostRuntime) -> Result<(Status, Bytes), AllocError> {
    let alloc = rt.alloc();
    let mut input = bytes_of(alloc, b"batch\n")?;
    input.append(rising_records(alloc, 101, false)?.as_bytes())?;
    input.append(b"end\nwatch 2\nwatch 3\n")?;
    let mut site = born(rt, "init l1 1 0 1 200")?;
    let mut source = MemSource::new(input, 4096, Numbers::new(alloc));
    let words = words_of(alloc, "serve")?;
    let status = run_in_memory(rt, &words, &mut source, &mut site)?;
    Ok((status, bytes_of(alloc, site.said())?))
}

#[test]
fn the_last_hundred_events(rt: HostRuntime) -> Result<(), Fail> {
    let mut due = bytes_of(
        rt.alloc(),
        b"ok 1 +101 -0 noise 0 created 1 absorbed 100 merged 0 removed 0 reduced 0 split 0\nrecent 100\n",
    )?;
    for _ in 0..100 {
        due.append(b"absorbed 1 1\n")?;
    }
    due.append(b"refused 24\n")?;
    let (status, said) = hundred_and_one(&rt)?;
    assert_eq!(rt; status, Status::Refused);
    assert_eq!(rt; said.as_slice(), due.as_slice());
    Ok(())
}

/// A watcher that says the same text whatever it is told, and notes in a shared cell when it is
/// dropped.
struct Talker {
    text: Bytes,
    drops: Rc<Cell<u32>>,
}

impl Drop for Talker {
    fn drop(self) {
        let Talker { text: _, drops } = self;
        drops.set(drops.get().wrapping_add(1));
    }
}

impl Watcher for Talker {
    ghost says_after = { λ talker _. talker.text };

    fn tell(&mut self, event: Event) {
        let _ = event;
    }

    fn text(&self, out: &mut Bytes) -> Result<(), AllocError> {
        out.append(self.text.as_slice())
    }
}

/// What an input comes to over a new store with one watcher that says a text: the status, what was
/// said, and how often the watcher was dropped. A call of the device or of the source may fail.
fn talk(
    rt: &HostRuntime,
    text: &str,
    input: Bytes,
    fails: (u32, u32),
) -> Result<(Status, Bytes, u32), AllocError> {
    let alloc = rt.alloc();
    let drops = Rc::new(alloc, Cell::new(0u32))?;
    let mut watchers: Vec<Box<dyn Watcher>> = Vec::with_capacity(alloc, 1)?;
    let talker = Talker {
        text: bytes_of(alloc, text.as_bytes())?,
        drops: drops.clone()?,
    };
    watchers.push(Box::new(alloc, talker)?)?;
    let store = born(rt, "init l1 1 1 2 100")?;
    let mut site = MemSite::new(
        bytes_of(alloc, store.content())?,
        failing(alloc, fails.0)?,
        None,
    );
    let mut source = MemSource::new(input, 4096, failing(alloc, fails.1)?);
    let words = words_of(alloc, "serve")?;
    let status = run_watched(rt, &words, &mut source, &mut site, watchers);
    Ok((status, bytes_of(alloc, site.said())?, drops.get()))
}

/// The last line of a watcher's text is ended, an empty text says nothing, and one that looks like
/// a receipt is no receipt.
#[test]
fn watchers_of_a_test(rt: HostRuntime) -> Result<(), Fail> {
    for (text, said) in [
        ("", "dropped 1\n"),
        ("\n", "\ndropped 1\n"),
        ("one", "one\ndropped 1\n"),
        ("one\n\ntwo", "one\n\ntwo\ndropped 1\n"),
        (
            "ok 1 +0 -0 noise 0 created 0 absorbed 0 merged 0 removed 0 reduced 0 split 0\n",
            "ok 1 +0 -0 noise 0 created 0 absorbed 0 merged 0 removed 0 reduced 0 split 0\ndropped 1\n",
        ),
    ] {
        let input = bytes_of(rt.alloc(), b"watch 1\ndrop 1\n")?;
        let (status, told, drops) = talk(&rt, text, input, (0, 0))?;
        assert!(rt; status == Status::Fine && drops == 1, "{text:?}");
        assert_eq!(rt; told.as_slice(), said.as_bytes(), "{text:?}");
    }
    Ok(())
}

/// A session with this line that is longer than an input may be, or not.
fn session_of(alloc: Global, line: &str, is_long: bool) -> Result<Bytes, AllocError> {
    let mut input = bytes_of(alloc, line.as_bytes())?;
    if is_long {
        input.append(super::repeated(alloc, &[b'\n'; 4096], 16_384)?.as_slice())?;
    }
    Ok(input)
}

/// A watcher is dropped once, by the line or at the end, however the run ends.
#[test]
fn dropped_once(rt: HostRuntime) -> Result<(), Fail> {
    for (line, is_long, fails, status) in [
        ("watch 1\n", false, (0u32, 0u32), Status::Fine),
        ("drop 1\n", false, (0, 0), Status::Fine),
        ("drop 1\ndrop 1\n", false, (0, 0), Status::Refused),
        ("watch 2\n", false, (0, 0), Status::Refused),
        ("watch 1\n", false, (1, 0), Status::SiteFault),
        ("drop 1\n", false, (0, 2), Status::SourceFault),
        ("watch 1\n", true, (0, 0), Status::TooLong),
    ] {
        let input = session_of(rt.alloc(), line, is_long)?;
        let end = talk(&rt, "text", input, fails)?;
        assert!(rt; end.0 == status && end.2 == 1, "{line:?} {is_long}");
    }
    Ok(())
}
