//! Rows of what watchers say, an event over the room of the recent ones, and a watcher that is
//! dropped.

ghost use Rattle.std.specs.Prelude.{ℕ, [], codes};

use crate::{Feed, LastHundred, Recent, Tally, Watcher};
use std::alloc::{AllocError, Global};
use std::cell::Cell;
use std::rc::Rc;
use std::test::Fail;
use vec_record::{Bytes, Event, Events, Kind, Number};

const MERGED_BY_3: [(Kind, Number, Number); 6] = [
    (Kind::Noise, 0, 1),
    (Kind::Created, 0, 1),
    (Kind::Noise, 0, 4),
    (Kind::Created, 0, 4),
    (Kind::Merged, 1, 1),
    (Kind::Merged, 4, 1),
];

const ONE_OF_EACH: [(Kind, Number, Number); 6] = [
    (Kind::Absorbed, 1, 1),
    (Kind::Absorbed, 2, 2),
    (Kind::Removed, 3, 0),
    (Kind::Reduced, 4, 4),
    (Kind::Split, 1, 4_294_967_295),
    (Kind::Split, 1, 6),
];

/// A watcher that says nothing.
#[derive(Drop)]
struct Silent;

impl Watcher for Silent {
    ghost says_after = { λ _ _. [] };

    fn tell(&mut self, event: Event) {
        let _ = event;
    }

    fn text(&self, out: &mut Bytes) -> Result<(), AllocError> {
        let _ = out;
        Ok(())
    }
}

/// A watcher without a line feed, that notes in a shared cell when it is dropped.
struct Noting {
    drops: Rc<Cell<u32>>,
}

impl Drop for Noting {
    fn drop(self) {
        let Noting { drops } = self;
        drops.set(drops.get().wrapping_add(1));
    }
}

impl Watcher for Noting {
    ghost says_after = { λ _ _. codes "noted" };

    fn tell(&mut self, event: Event) {
        let _ = event;
    }

    fn text(&self, out: &mut Bytes) -> Result<(), AllocError> {
        out.append(b"noted")
    }
}

// The events of a row.
fn events_of(alloc: Global, row: &[(Kind, Number, Number)]) -> Result<Events, AllocError> {
    let mut events = Events::new(alloc);
    for (kind, from, to) in row {
        events.push(Event {
            kind: *kind,
            from: *from,
            to: *to,
        })?;
    }
    Ok(events)
}

// Whether a slot says a text.
fn says(alloc: Global, feed: &Feed, slot: u32, text: &str) -> Result<bool, AllocError> {
    let mut out = Bytes::new(alloc);
    let full = feed.text_of(slot, &mut out)?;
    Ok(full && out.as_slice() == text.as_bytes())
}

#[test]
fn watchers_say_what_they_were_told(rt: HostRuntime) -> Result<(), Fail> {
    const ROWS: [(&[(Kind, Number, Number)], &str, &str); 3] = [
        (
            &[],
            "tally noise 0 created 0 absorbed 0 merged 0 removed 0 reduced 0 split 0\n",
            "recent 0\n",
        ),
        (
            &MERGED_BY_3,
            "tally noise 2 created 2 absorbed 0 merged 2 removed 0 reduced 0 split 0\n",
            "recent 6\nnoise 0 1\ncreated 0 1\nnoise 0 4\ncreated 0 4\nmerged 1 1\nmerged 4 1\n",
        ),
        (
            &ONE_OF_EACH,
            "tally noise 0 created 0 absorbed 2 merged 0 removed 1 reduced 1 split 2\n",
            "recent 6\nabsorbed 1 1\nabsorbed 2 2\nremoved 3 0\nreduced 4 4\n\
             split 1 4294967295\nsplit 1 6\n",
        ),
    ];
    for (row, tally, recent) in ROWS {
        let alloc = rt.alloc();
        let mut watchers: Vec<Box<dyn Watcher>> = Vec::new(alloc);
        watchers.push(Box::new(alloc, Tally::new())?)?;
        watchers.push(Box::new(alloc, LastHundred::new(alloc)?)?)?;
        let mut feed = Feed::new(alloc, watchers)?;
        feed.tell_all(&events_of(alloc, row)?);
        assert!(rt; says(alloc, &feed, 1, tally)?);
        assert!(rt; says(alloc, &feed, 2, recent)?);
    }
    Ok(())
}

// Tells a watcher so many events.
fn tell_many(watcher: &mut impl Watcher, many: u32) {
    for number in 0..many {
        watcher.tell(Event {
            kind: Kind::Absorbed,
            from: number,
            to: number,
        });
    }
}

// The text of so many such events, from a number on.
fn text_from(alloc: Global, first: u32, end: u32) -> Result<Bytes, AllocError> {
    let mut text = Bytes::new(alloc);
    let head = format!(in alloc; "recent {}\n", end.saturating_sub(first))?;
    text.append(head.as_bytes())?;
    for number in first..end {
        let line = format!(in alloc; "absorbed {number} {number}\n")?;
        text.append(line.as_bytes())?;
    }
    Ok(text)
}

#[test]
fn the_last_events_are_kept(rt: HostRuntime) -> Result<(), Fail> {
    // how many events are told, and the first that is kept
    const ROWS: [(u32, u32); 5] = [(99, 0), (100, 0), (101, 1), (200, 100), (201, 101)];
    for (many, first) in ROWS {
        let mut recent = Recent::<100>::new(rt.alloc())?;
        tell_many(&mut recent, many);
        let mut out = Bytes::new(rt.alloc());
        recent.text(&mut out)?;
        let text = text_from(rt.alloc(), first, many)?;
        assert!(rt; out.as_slice() == text.as_slice());
    }
    Ok(())
}

#[test]
fn a_dropped_watcher_is_dropped_once(rt: HostRuntime) -> Result<(), Fail> {
    let alloc = rt.alloc();
    let drops = Rc::new(alloc, Cell::new(0))?;
    let mut watchers: Vec<Box<dyn Watcher>> = Vec::new(alloc);
    watchers.push(Box::new(alloc, Silent)?)?;
    let noting = Noting {
        drops: drops.clone()?,
    };
    watchers.push(Box::new(alloc, noting)?)?;
    let mut feed = Feed::new(alloc, watchers)?;
    assert!(rt; says(alloc, &feed, 1, "")?);
    assert!(rt; says(alloc, &feed, 2, "noted")?);
    // a slot, whether it was full, and how many watchers were dropped then
    const ROWS: [(u32, bool, u32); 5] = [
        (0, false, 0),
        (3, false, 0),
        (2, true, 1),
        (2, false, 1),
        (1, true, 1),
    ];
    for (slot, full, count) in ROWS {
        assert!(rt; feed.drop_one(slot) == full);
        assert!(rt; drops.get() == count);
    }
    assert!(rt; !says(alloc, &feed, 1, "")?);
    Ok(())
}
