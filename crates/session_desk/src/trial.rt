//! The word `trial`: changes that a generator makes, applied to a warehouse without a store.

ghost use Rattle.std.specs.Prelude.{◌≡◌, ◌≤◌, ◌<◌, ◌+◌, ◌⊎◌, ◌∷◌, [], IsTrue, IsOk, IfOk, OnOk};
ghost use Rattle.std.specs.FinMap as map;
ghost use Rattle.page_layout.specs.Heads.{values_of};
ghost use Rattle.batch_text.specs.After.{after};
ghost use Rattle.batch_text.specs.Batch.{IsChangeOf};
ghost use Rattle.event_feed.specs.Meanings.{meanings, told_all};
ghost use Rattle.warehouse_core.specs.Batches.{density_by, events_of, rows_after};
ghost use Rattle.warehouse_core.specs.Work.{work_of};
ghost use Rattle.site_disk.specs.Causes.{Rose};
ghost use Rattle.session_desk.specs.Moments.{Says, LeavesAlone};
ghost use Rattle.session_desk.specs.Trial.{draw, drawn_number, coordinate, drawn_change};
ghost use Rattle.session_desk.specs.Trial.{last_draw, trial_values, trial_changes, trial_text};
ghost use Rattle.session_desk.specs.Trial.{held_on, trial_work};
ghost use Rattle.session_desk.specs.Trying.{IsUnsaved, TallyFirst};

use crate::saying::say;
use crate::status::Status;
use cluster_report::counts_text;
use event_feed::{Tally, Watcher, WatcherSlots};
use int_metric::L1;
use site_disk::Site;
use std::alloc::{AllocError, Global};
use std::sync::ledger::Ledger;
use vec_record::{Bytes, Change, Changes, Events, MetricKind, Params, Records, Steps, Vector};
use warehouse_core::Warehouse;

/// A trial: where the generator starts, and how many changes it makes.
#[derive(Clone, Copy)]
pub struct Trial {
    pub seed: u32,
    pub count: u32,
}

/// A change, and the last number that was drawn for it.
#[derive(Drop)]
struct Drawn {
    change: Change,
    last: u32,
}

/// The parameters of every trial.
fn trial_params() -> Params
    ensures { values_of result ≡ trial_values }
{
    Params {
        metric: MetricKind::L1,
        dim: 2,
        eps: 3,
        minpts: 4,
        cap: 200_000,
    }
}

/// The number that the generator draws behind another.
fn draw(x: u32) -> u32
    ensures { result ≡ draw x }
{
    ((1_664_525 * u64::from(x) + 1_013_904_223) % 4_294_967_296) as u32
}

/// The coordinate that a draw gives.
fn coordinate(x: u32) -> u8
    ensures { result ≡ coordinate x }
{
    (x / 16_777_216) as u8
}

/// The number, from 1 to `count`, that a draw names.
fn drawn_number(count: u32, x: u32) -> u32
    requires { 0 < count }
    ensures number { result ≡ drawn_number count x }
{
    1 + (x / 256) % count
}

/// The change of the next draw over records: its number goes where it is present, and else comes
/// with the coordinates of two further draws.
fn draw_change(alloc: Global, count: u32, x: u32, records: &Records) -> Result<Drawn, AllocError>
    requires { 0 < count }
    ensures change { IfOk result
        (λ drawn. drawn.change ≡ drawn_change count (draw x) records.now.vectors) }
    ensures last { IfOk result
        (λ drawn. drawn.last ≡ last_draw count (draw x) records.now.vectors) }
{
    let first = draw(x);
    let number = drawn_number(count, first);
    if records.get(number).is_some() {
        return Ok(Drawn {
            change: Change::Delete(number),
            last: first,
        });
    }
    let second = draw(first);
    let third = draw(second);
    let vector = Vector::from_slice(alloc, &[coordinate(second), coordinate(third)])?;
    Ok(Drawn {
        change: Change::Insert(number, vector),
        last: third,
    })
}

/// Applies one change, and tells the feed its events. What it may count it counts after want of
/// memory too.
fn apply_change<W: Watcher, L: Ledger>(
    alloc: Global,
    change: Change,
    warehouse: &mut Warehouse<L1>,
    feed: &mut WatcherSlots<W>,
    steps: &mut Steps<L>,
) -> Result<(), AllocError>
    requires unsaved { IsUnsaved warehouse.old }
    requires fits { IsChangeOf 2 change }
    requires accepted { IsOk (after 200000 warehouse.old.rows (change ∷ [])) }
    ensures unsaved { OnOk result (IsUnsaved warehouse.new) }
    ensures rows { OnOk result (warehouse.new.rows
        ≡ rows_after trial_values warehouse.old.rows (change ∷ [])) }
    ensures told { OnOk result (meanings W.says_after feed.new.slots.items
        ≡ told_all (events_of trial_values warehouse.old.rows (change ∷ []))
        (meanings W.says_after feed.old.slots.items)) }
    ensures work { steps.new ≤ steps.old
        + work_of (density_by trial_values) (held_on warehouse.old.rows) change }
{
    let mut changes = Changes::new(alloc);
    changes.push(change)?;
    let mut events = Events::new(alloc);
    warehouse.apply_unsaved(&changes, &mut events, steps)?;
    feed.tell_all(&events);
    Ok(())
}

/// Makes the changes of a trial, applies each, and tells the feed its events at once.
fn apply_drawn<W: Watcher, L: Ledger>(
    alloc: Global,
    trial: Trial,
    warehouse: &mut Warehouse<L1>,
    feed: &mut WatcherSlots<W>,
    steps: &mut Steps<L>,
) -> Result<(), AllocError>
    requires count { trial.count ≤ 100_000 }
    requires unsaved { IsUnsaved warehouse.old }
    requires none { warehouse.old.rows ≡ map.empty }
    ensures unsaved { OnOk result (IsUnsaved warehouse.new) }
    ensures rows { OnOk result (warehouse.new.rows
        ≡ rows_after trial_values map.empty (trial_changes trial.seed trial.count)) }
    ensures told { OnOk result (meanings W.says_after feed.new.slots.items
        ≡ told_all (events_of trial_values map.empty (trial_changes trial.seed trial.count))
        (meanings W.says_after feed.old.slots.items)) }
    ensures work { steps.new ≤ steps.old + trial_work trial.seed trial.count }
{
    let mut x = trial.seed;
    for _ in 0..trial.count {
        let drawn = draw_change(alloc, trial.count, x, warehouse.records())?;
        x = drawn.last;
        apply_change(alloc, drawn.change, warehouse, feed, steps)?;
    }
    Ok(())
}

/// A feed with a tally in slot 1.
fn make_feed(alloc: Global) -> Result<WatcherSlots<Tally>, AllocError>
    ensures { IfOk result (λ feed. TallyFirst
        (meanings ⟦<Tally as Watcher>⟧.says_after feed.slots.items)) }
{
    let mut watchers = Vec::with_capacity(alloc, 1)?;
    watchers.push(Tally::new())?;
    WatcherSlots::new(alloc, watchers)
}

/// What a trial says: the tally of all events, then the summary.
fn make_text<L: Ledger>(
    alloc: Global,
    trial: Trial,
    steps: &mut Steps<L>,
) -> Result<Bytes, AllocError>
    requires { trial.count ≤ 100_000 }
    ensures text { IfOk result (λ text. text ≡ trial_text trial.seed trial.count) }
    ensures work { steps.new ≤ steps.old + trial_work trial.seed trial.count }
{
    let mut warehouse = Warehouse::<L1>::fresh(alloc, trial_params())?;
    let mut feed = make_feed(alloc)?;
    apply_drawn(alloc, trial, &mut warehouse, &mut feed, steps)?;
    let mut text = Bytes::new(alloc);
    feed.text_of(1, &mut text)?;
    counts_text(&warehouse.summary(), &mut text)?;
    Ok(text)
}

/// Runs a trial, and says what it comes to.
pub fn run_trial<T: Site, L: Ledger>(
    alloc: Global,
    trial: Trial,
    site: &mut T,
    steps: &mut Steps<L>,
) -> Status
    requires { trial.count ≤ 100_000 }
    ensures answers { (result ≡ Status.Fine) ⊎ (result ≡ Status.SiteFault)
        ⊎ (result ≡ Status.Memory) }
    ensures says { IsTrue T.tells → Says (trial_text trial.seed trial.count) result
        (T.state site.old) (T.state site.new) }
    ensures alone { IsTrue T.tells → LeavesAlone (T.state site.old) (T.state site.new) }
    ensures quiet { IsTrue T.tells → result ≡ Status.Memory
        → (T.state site.new).said ≡ (T.state site.old).said }
    ensures fault { result ≡ Status.SiteFault → Rose (T.faults site.old) (T.faults site.new) }
    ensures later { T.faults site.old ≤ T.faults site.new }
    ensures work { steps.new ≤ steps.old + trial_work trial.seed trial.count }
{
    match make_text(alloc, trial, steps) {
        Ok(text) => say(site, Status::Fine, text.as_slice()),
        Err(_) => Status::Memory,
    }
}
