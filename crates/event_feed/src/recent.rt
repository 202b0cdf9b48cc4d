//! The most recent events.

ghost use Rattle.std.specs.Prelude.{◌≡◌, ◌≤◌, ◌++◌, List, IfOk, OnOk, OnErr};
ghost use Rattle.std.specs.List.{flat_map};
ghost use Rattle.vec_record.specs.declared.event.Event.{Event};
ghost use Rattle.event_feed.specs.Texts.{head_text, event_text, kind_word, recent_text};

use crate::watcher::Watcher;
use std::alloc::{AllocError, Global};
use std::marker::Model;
use vec_record::{Bytes, Event, Kind};

/// The last `N` events, seen as their list, the oldest first. It takes its memory in `new`.
#[derive(Drop)]
pub struct Recent<const N: usize> {
    // N places; those that hold no event yet come last
    ring: Vec<Event>,
    // how many events it holds
    count: usize,
    // the place of the next event
    next: usize,
}

impl<const N: usize> Model for Recent<N> {
    ghost use Rattle.std.specs.Prelude.{List};
    ghost use Rattle.vec_record.specs.declared.event.Event.{Event};
    ghost use Rattle.event_feed.specs.inside.Ring.{IsRing, held};

    ghost Value = { List Event };

    ghost view = { λ r. held r.ring.items r.count r.next };

    ghost invariant = { λ r. IsRing N r.ring.items r.count r.next };
}

impl<const N: usize> Recent<N> {
    /// No events, with room for `N` (1 to 1,000).
    pub fn new(alloc: Global) -> Result<Recent<N>, AllocError>
        requires least { 1 ≤ N }
        requires most { N ≤ 1000 }
        ensures { IfOk result (λ recent. (more : List Event)
            → ⟦<Recent<N> as Watcher>⟧.says_after recent more ≡ recent_text N more) }
    {
        let none = Event {
            kind: Kind::Noise,
            from: 0,
            to: 0,
        };
        let ring = vec![in alloc; none; N]?;
        Ok(Recent {
            ring,
            count: 0,
            next: 0,
        })
    }
}

impl<const N: usize> Watcher for Recent<N> {
    ghost says_after = { λ held more. recent_text N (held ++ more) };

    fn tell(&mut self, event: Event) {
        self.ring[self.next] = event;
        self.count = (self.count + 1).min(N);
        self.next = (self.next + 1) % N;
    }

    fn text(&self, out: &mut Bytes) -> Result<(), AllocError> {
        let mut text = Bytes::new(out.allocator());
        append_head(&mut text, self.count)?;
        append_events(&mut text, &self.ring[self.next..self.count])?;
        append_events(&mut text, &self.ring[..self.next])?;
        out.append(text.as_slice())
    }
}

/// The last 100 events. A box of watchers takes this type, since it takes none with a parameter.
#[derive(Drop)]
pub struct LastHundred {
    recent: Recent<100>,
}

impl LastHundred {
    /// No events, with room for 100.
    pub fn new(alloc: Global) -> Result<LastHundred, AllocError>
        ensures { IfOk result (λ last. (more : List Event)
            → ⟦<LastHundred as Watcher>⟧.says_after last more ≡ recent_text 100 more) }
    {
        Ok(LastHundred {
            recent: Recent::new(alloc)?,
        })
    }
}

impl Watcher for LastHundred {
    ghost says_after = { λ last. ⟦<Recent<100> as Watcher>⟧.says_after last.recent };

    fn tell(&mut self, event: Event) {
        self.recent.tell(event);
    }

    fn text(&self, out: &mut Bytes) -> Result<(), AllocError> {
        self.recent.text(out)
    }
}

// Appends how many events there are, one line.
fn append_head(text: &mut Bytes, count: usize) -> Result<(), AllocError>
    ensures { OnOk result (text.new ≡ text.old ++ head_text count) }
{
    let line = format!(in text.allocator(); "recent {count}\n")?;
    text.append(line.as_bytes())
}

// Appends the lines of events.
fn append_events(text: &mut Bytes, events: &[Event]) -> Result<(), AllocError>
    ensures { OnOk result (text.new ≡ text.old ++ flat_map event_text events.now) }
{
    for event in events {
        append_event(text, *event)?;
    }
    Ok(())
}

// Appends the line of an event.
fn append_event(text: &mut Bytes, event: Event) -> Result<(), AllocError>
    ensures { OnOk result (text.new ≡ text.old ++ event_text event) }
{
    let (word, from, to) = (word_of(event.kind), event.from, event.to);
    let line = format!(in text.allocator(); "{word} {from} {to}\n")?;
    text.append(line.as_bytes())
}

// The word of a kind.
fn word_of(kind: Kind) -> &'static str
    ensures { result.now ≡ kind_word kind }
{
    match kind {
        Kind::Noise => "noise",
        Kind::Created => "created",
        Kind::Absorbed => "absorbed",
        Kind::Merged => "merged",
        Kind::Removed => "removed",
        Kind::Reduced => "reduced",
        Kind::Split => "split",
    }
}
