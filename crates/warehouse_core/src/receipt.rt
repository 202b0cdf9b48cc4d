//! The receipt of an accepted batch.
ghost use Rattle.std.specs.Prelude.{◌≡◌, ◌++◌, codes, count_by, IfOk, OnOk};
ghost use Rattle.warehouse_core.specs.Receipts.{is_insertion, is_deletion, events_like, batch_text};
ghost use Rattle.warehouse_core.specs.Receipts.{growth_text, decline_text};

use std::alloc::{AllocError, Global};
use vec_record::{Bytes, Change, Event, Kind};

pub(crate) fn count_insertions(changes: &[Change]) -> usize
    ensures { result ≡ count_by is_insertion changes.now }
{
    changes
        .iter()
        .filter(|change| match change {
            Change::Insert(..) => true,
            Change::Delete(_) => false,
        })
        .count()
}

pub(crate) fn count_deletions(changes: &[Change]) -> usize
    ensures { result ≡ count_by is_deletion changes.now }
{
    changes
        .iter()
        .filter(|change| match change {
            Change::Insert(..) => false,
            Change::Delete(_) => true,
        })
        .count()
}

/// How many of the events are of a kind.
fn count_events(events: &[Event], kind: Kind) -> usize
    ensures { result ≡ events_like kind events.now }
{
    events.iter().filter(|event| event.kind == kind).count()
}

/// Appends the number of a batch, and how many insertions and deletions it has.
fn append_batch(
    line: &mut Bytes,
    batch: u32,
    insertions: usize,
    deletions: usize,
) -> Result<(), AllocError>
    ensures { OnOk result (line.new ≡ line.old ++ batch_text batch insertions deletions) }
{
    let text = format!(in line.allocator(); "ok {batch} +{insertions} -{deletions}")?;
    line.append(text.as_bytes())
}

/// Appends the counts of events of clusters that grow.
fn append_growth(line: &mut Bytes, events: &[Event]) -> Result<(), AllocError>
    ensures { OnOk result (line.new ≡ line.old ++ growth_text events.now) }
{
    let noise = count_events(events, Kind::Noise);
    let created = count_events(events, Kind::Created);
    let absorbed = count_events(events, Kind::Absorbed);
    let merged = count_events(events, Kind::Merged);
    let text = format!(in line.allocator();
        " noise {noise} created {created} absorbed {absorbed} merged {merged}"
    )?;
    line.append(text.as_bytes())
}

/// Appends the counts of events of clusters that shrink.
fn append_decline(line: &mut Bytes, events: &[Event]) -> Result<(), AllocError>
    ensures { OnOk result (line.new ≡ line.old ++ decline_text events.now) }
{
    let removed = count_events(events, Kind::Removed);
    let reduced = count_events(events, Kind::Reduced);
    let split = count_events(events, Kind::Split);
    let text = format!(in line.allocator(); " removed {removed} reduced {reduced} split {split}")?;
    line.append(text.as_bytes())
}

/// The line of the receipt: the number of the batch, how many insertions and deletions it has, and
/// its events by kind.
pub(crate) fn receipt(
    alloc: Global,
    batch: u32,
    insertions: usize,
    deletions: usize,
    events: &[Event],
) -> Result<Bytes, AllocError>
    ensures { IfOk result (λ line. line
        ≡ batch_text batch insertions deletions
        ++ (growth_text events.now ++ (decline_text events.now ++ codes "\n"))) }
{
    let mut line = Bytes::new(alloc);
    append_batch(&mut line, batch, insertions, deletions)?;
    append_growth(&mut line, events)?;
    append_decline(&mut line, events)?;
    line.push(b'\n')?;
    Ok(line)
}
