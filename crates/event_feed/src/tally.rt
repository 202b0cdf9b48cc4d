//! The tally: how many events of each kind there were.

ghost use Rattle.std.specs.Prelude.{◌≡◌, ◌+◌, ◌++◌, List, min, OnOk};
ghost use Rattle.vec_record.specs.declared.event.Event.{Event};
ghost use Rattle.event_feed.specs.Texts.{count_limit, growth_counts, decline_counts, tally_text};
ghost use Rattle.event_feed.specs.inside.Counts.{count_in, one_more_of, tally_says};

use crate::watcher::Watcher;
use std::alloc::AllocError;
use vec_record::{Bytes, Event, Kind};

/// How many events of each kind there were. A count at the greatest `u64` stays.
#[derive(Drop)]
pub struct Tally {
    noise: u64,
    created: u64,
    absorbed: u64,
    merged: u64,
    removed: u64,
    reduced: u64,
    split: u64,
}

impl Tally {
    /// The tally of no events.
    pub fn new() -> Tally
        ensures { (more : List Event)
            → ⟦<Tally as Watcher>⟧.says_after result more ≡ tally_text more }
    {
        Tally {
            noise: 0,
            created: 0,
            absorbed: 0,
            merged: 0,
            removed: 0,
            reduced: 0,
            split: 0,
        }
    }

    // One more of a kind.
    fn count_one(&mut self, kind: Kind)
        ensures { self.new ≡ one_more_of kind self.old }
    {
        match kind {
            Kind::Noise => self.noise = one_more(self.noise),
            Kind::Created => self.created = one_more(self.created),
            Kind::Absorbed => self.absorbed = one_more(self.absorbed),
            Kind::Merged => self.merged = one_more(self.merged),
            Kind::Removed => self.removed = one_more(self.removed),
            Kind::Reduced => self.reduced = one_more(self.reduced),
            Kind::Split => self.split = one_more(self.split),
        }
    }
}

impl Watcher for Tally {
    ghost says_after = { tally_says };

    fn tell(&mut self, event: Event) {
        self.count_one(event.kind);
    }

    fn text(&self, out: &mut Bytes) -> Result<(), AllocError> {
        let mut line = Bytes::new(out.allocator());
        append_growth(&mut line, self)?;
        append_decline(&mut line, self)?;
        out.append(line.as_slice())
    }
}

// Appends the counts of events of clusters that grow.
fn append_growth(line: &mut Bytes, tally: &Tally) -> Result<(), AllocError>
    ensures { OnOk result (line.new ≡ line.old ++ growth_counts (count_in tally.now)) }
{
    let (noise, created) = (tally.noise, tally.created);
    let (absorbed, merged) = (tally.absorbed, tally.merged);
    let text = format!(in line.allocator();
        "tally noise {noise} created {created} absorbed {absorbed} merged {merged}"
    )?;
    line.append(text.as_bytes())
}

// Appends the counts of events of clusters that shrink.
fn append_decline(line: &mut Bytes, tally: &Tally) -> Result<(), AllocError>
    ensures { OnOk result (line.new ≡ line.old ++ decline_counts (count_in tally.now)) }
{
    let (removed, reduced, split) = (tally.removed, tally.reduced, tally.split);
    let text = format!(in line.allocator();
        " removed {removed} reduced {reduced} split {split}\n"
    )?;
    line.append(text.as_bytes())
}

// One more, or the greatest count.
fn one_more(count: u64) -> u64
    ensures { result ≡ min (count + 1) count_limit }
{
    count.saturating_add(1)
}
