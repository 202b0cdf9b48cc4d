//! The word `serve`.
ghost use Rattle.std.specs.Prelude.{◌≡◌, ◌≤◌, ◌<◌, ◌+◌, ◌*◌, ◌++◌, ◌⊎◌, [], ℕ, List, Ok, None};
ghost use Rattle.std.specs.Prelude.{true, false, IsTrue, IfOk, IfErr, MatchResult};
ghost use Rattle.std.specs.FinMap as maps;
ghost use Rattle.site_disk.specs.Causes.{Rose};
ghost use Rattle.site_disk.specs.State.{Safe, Joins};
ghost use Rattle.page_gate.specs.Promises.{Holds, HasFault};
ghost use Rattle.page_layout.specs.Heads.{Values};
ghost use Rattle.store_image.specs.Loading.{load_of, count_said, Fails};
ghost use Rattle.store_image.specs.Stores.{IsSound, records_on};
ghost use Rattle.event_feed.specs.Meanings.{meanings, filled};
ghost use Rattle.warehouse_core.specs.States.{IsClustered};
ghost use Rattle.session_desk.specs.Moments.{IsSaying};
ghost use Rattle.session_desk.specs.Statuses.{is_fault};
ghost use Rattle.session_desk.specs.Reading.{IsTaken};
ghost use Rattle.session_desk.specs.Headline.{Serves, IsComplete, LeavesUnopened, HasDueLines};
ghost use Rattle.session_desk.specs.Talks.{IsServing, IsTalk, Concludes, IsCutOff, IsKept, IsEven};
ghost use Rattle.session_desk.specs.Session.{requests_of};
ghost use Rattle.session_desk.specs.Costs.{session_work};
ghost use Rattle.session_desk.specs.Talks.{desk_of, works_on};
ghost use Rattle.session_desk.specs.Opened.{state_of, is_outside, fault_of as fault_said};
ghost use Rattle.session_desk.specs.Opened.{refusal_course, IsLoaded, Loads};

use crate::converse::hold_session;
use crate::reading::INPUT_LIMIT;
use crate::saying::say;
use crate::session::Session;
use crate::status::Status;
use event_feed::{Feed, Watcher, WatcherSlots};
use int_metric::{Hamming, L1, Max};
use page_gate::{OpenFault, Pages, open_pages};
use site_disk::{Site, Source};
use std::alloc::Global;
use std::sync::ledger::Ledger;
use store_image::laws::{loads_are_stores, loads_count_records, same_openings_are_alike};
use store_image::{StoreFault, read_params};
use vec_record::{MetricKind, Steps};
use warehouse_core::Warehouse;

/// A warehouse, by the metric of its store.
#[derive(Drop)]
pub enum AnyWarehouse {
    L1(Warehouse<L1>),
    Max(Warehouse<Max>),
    Hamming(Warehouse<Hamming>),
}

/// The warehouse of pages.
fn load<L: Ledger>(
    alloc: Global,
    pages: Pages,
    steps: &mut Steps<L>,
) -> Result<AnyWarehouse, StoreFault>
    ensures loaded { MatchResult result (λ w. IsLoaded pages.list (state_of w))
        (λ e. Fails e (load_of pages.list)) }
    ensures bounded { steps.new ≤ steps.old + 8 * count_said pages.list }
{
    match read_params(&pages)?.metric {
        MetricKind::L1 => Ok(AnyWarehouse::L1(Warehouse::load(alloc, pages, steps)?)),
        MetricKind::Max => Ok(AnyWarehouse::Max(Warehouse::load(alloc, pages, steps)?)),
        MetricKind::Hamming => Ok(AnyWarehouse::Hamming(Warehouse::load(alloc, pages, steps)?)),
    }
}

fn fault_of(fault: StoreFault) -> OpenFault
    ensures { result ≡ fault_said fault }
{
    match fault {
        StoreFault::Foreign => OpenFault::Foreign,
        StoreFault::Damaged { page, offset } => OpenFault::Damaged { page, offset },
        StoreFault::Memory => OpenFault::Memory,
    }
}

/// Opens the store as a warehouse.
fn begin<T: Site, L: Ledger>(
    alloc: Global,
    site: &mut T,
    steps: &mut Steps<L>,
) -> Result<AnyWarehouse, OpenFault>
    ensures serving { IfOk result (λ w. IsServing (state_of w)) }
    ensures cause { HasFault (T.faults site.old) (T.faults site.new) result }
    ensures told { IsTrue T.tells → Loads result (T.state site.old) (T.state site.new) }
    ensures work { IsTrue T.tells → IsSound (T.state site.old).content
        → steps.new ≤ steps.old + 8 * maps.len (records_on (T.state site.old).content) }
{
    loads_count_records();
    loads_are_stores();
    let pages = open_pages(alloc, site)?;
    match load(alloc, pages, steps) {
        Ok(warehouse) => Ok(warehouse),
        Err(fault) => Err(fault_of(fault)),
    }
}

/// Says where the store is damaged.
fn say_damage<T: Site>(alloc: Global, site: &mut T, page: u32, offset: u32) -> Status
    ensures status { is_fault result ≡ false → result ≡ Status.Broken }
    ensures said { IsTrue T.tells → is_fault result ≡ false → (T.state site.new).said
        ≡ (T.state site.old).said ++ (refusal_course (OpenFault.Damaged page offset)).ending }
    ensures moments { IsTrue T.tells
        → Safe (T.state site.old) (T.state site.new)
        (IsSaying (T.state site.old) (refusal_course (OpenFault.Damaged page offset)).ending) }
    ensures quiet { result ≡ Status.Memory → site.new ≡ site.old }
    ensures answers { (result ≡ Status.Broken)
        ⊎ ((result ≡ Status.SiteFault) ⊎ (result ≡ Status.Memory)) }
    ensures fault { result ≡ Status.SiteFault → Rose (T.faults site.old) (T.faults site.new) }
    ensures later { T.faults site.old ≤ T.faults site.new }
{
    let Ok(line) = format!(in alloc; "damaged page {page} offset {offset}\n") else {
        return Status::Memory;
    };
    say(site, Status::Broken, line.as_bytes())
}

/// Says why the store doesn't open.
fn say_fault<T: Site>(alloc: Global, site: &mut T, fault: OpenFault) -> Status
    ensures status { is_fault result ≡ false → (is_outside fault ≡ false)
        × (result ≡ (refusal_course fault).status) }
    ensures said { IsTrue T.tells → is_fault result ≡ false → (T.state site.new).said
        ≡ (T.state site.old).said ++ (refusal_course fault).ending }
    ensures moments { IsTrue T.tells
        → Safe (T.state site.old) (T.state site.new)
        (IsSaying (T.state site.old) (refusal_course fault).ending) }
    ensures still { is_outside fault ≡ true → site.new ≡ site.old }
    ensures quiet { result ≡ Status.Memory → site.new ≡ site.old }
    ensures answers { (result ≡ Status.Blank)
        ⊎ ((result ≡ Status.Broken) ⊎ ((result ≡ Status.SiteFault) ⊎ (result ≡ Status.Memory))) }
    ensures fault { result ≡ Status.SiteFault → (fault ≡ OpenFault.SiteFault)
        ⊎ Rose (T.faults site.old) (T.faults site.new) }
    ensures later { T.faults site.old ≤ T.faults site.new }
{
    match fault {
        OpenFault::Blank => say(site, Status::Blank, b"blank store\n"),
        OpenFault::Foreign => say(site, Status::Broken, b"foreign store\n"),
        OpenFault::Damaged { page, offset } => say_damage(alloc, site, page, offset),
        OpenFault::SiteFault => Status::SiteFault,
        OpenFault::Memory => Status::Memory,
    }
}

/// A session before its first request, whatever the metric of its store.
#[derive(Drop)]
struct AnySession<W> {
    alloc: Global,
    warehouse: AnyWarehouse,
    feed: WatcherSlots<W>,
}

/// Answers the requests of an input, whatever the metric.
fn converse_by_metric<W: Watcher, S: Source, T: Site, L: Ledger>(
    session: AnySession<W>,
    source: &mut S,
    site: &mut T,
    steps: &mut Steps<L>,
) -> Status
    requires serving { IsServing (state_of session.warehouse) }
    requires ready { IsTrue T.tells → Holds (state_of session.warehouse).pages (T.state site.old) }
    ensures answers { IsTrue S.tells → IsTrue T.tells → IsClustered (state_of session.warehouse)
        → is_fault result ≡ false → Concludes
        (desk_of W.says_after (state_of session.warehouse) session.feed) (S.left source.old) result
        (T.state site.old) (T.state site.new) }
    ensures whole { IsTrue S.tells → IsTrue T.tells → IsClustered (state_of session.warehouse)
        → result ≡ Status.SourceFault → IsCutOff
        (desk_of W.says_after (state_of session.warehouse) session.feed) (S.left source.old)
        (S.left source.new) (T.state site.old) (T.state site.new) }
    ensures moments { IsTrue S.tells → IsTrue T.tells → IsClustered (state_of session.warehouse)
        → Safe (T.state site.old) (T.state site.new)
        (IsTalk (desk_of W.says_after (state_of session.warehouse) session.feed) (S.left source.old)
        (T.state site.old)) }
    ensures end { IsTrue S.tells → IsTrue T.tells → IsClustered (state_of session.warehouse)
        → is_fault result ≡ false → IsKept
        (desk_of W.says_after (state_of session.warehouse) session.feed) (S.left source.old)
        (T.state site.new) }
    ensures settled { IsTrue S.tells → IsTrue T.tells → IsClustered (state_of session.warehouse)
        → (result ≡ Status.SourceFault) ⊎ (result ≡ Status.Memory) → IsEven
        (desk_of W.says_after (state_of session.warehouse) session.feed) (S.left source.old)
        (T.state site.old) (T.state site.new) }
    ensures work { IsTrue S.tells → IsClustered (state_of session.warehouse)
        → steps.new ≤ steps.old
        + works_on (desk_of W.says_after (state_of session.warehouse) session.feed)
        (requests_of (S.left source.old)) }
    ensures status { (result ≡ Status.Fine) ⊎ (result ≡ Status.Refused) ⊎ (result ≡ Status.TooLong)
        ⊎ (is_fault result ≡ true) }
    ensures site { result ≡ Status.SiteFault → Rose (T.faults site.old) (T.faults site.new) }
    ensures source { result ≡ Status.SourceFault
        → Rose (S.faults source.old) (S.faults source.new) }
    ensures joins { IsTrue T.tells → Joins (T.state site.old) (T.state site.new) }
    ensures begins { IsTrue T.tells → (more : List ℕ)
        × ((T.state site.new).said ≡ (T.state site.old).said ++ more) }
    ensures taken { IsTrue S.tells
        → IsTaken (INPUT_LIMIT + 1) (S.left source.old) (S.left source.new) }
    ensures ended { IsTrue S.tells → (result ≡ Status.Fine) ⊎ (result ≡ Status.Refused)
        → S.left source.new ≡ [] }
    ensures source_later { S.faults source.old ≤ S.faults source.new }
    ensures site_later { T.faults site.old ≤ T.faults site.new }
{
    let AnySession {
        alloc,
        warehouse,
        feed,
    } = session;
    match warehouse {
        AnyWarehouse::L1(warehouse) => {
            let session = Session {
                alloc,
                warehouse,
                feed,
            };
            hold_session(session, source, site, steps)
        }
        AnyWarehouse::Max(warehouse) => {
            let session = Session {
                alloc,
                warehouse,
                feed,
            };
            hold_session(session, source, site, steps)
        }
        AnyWarehouse::Hamming(warehouse) => {
            let session = Session {
                alloc,
                warehouse,
                feed,
            };
            hold_session(session, source, site, steps)
        }
    }
}

/// Opens the store and runs the session of the input.
fn serve_slots<W: Watcher, S: Source, T: Site, L: Ledger>(
    alloc: Global,
    feed: WatcherSlots<W>,
    source: &mut S,
    site: &mut T,
    steps: &mut Steps<L>,
) -> Status
    ensures serves { IsTrue S.tells → IsTrue T.tells → HasDueLines (T.state site.old).content
        → Serves
        (meanings W.says_after feed.slots.items) (S.left source.old) (S.left source.new) result
        (T.state site.old) (T.state site.new) }
    ensures complete { IsTrue S.tells → IsTrue T.tells → HasDueLines (T.state site.old).content
        → (Rose (S.faults source.old) (S.faults source.new) → ⊥)
        → (Rose (T.faults site.old) (T.faults site.new) → ⊥) → IsComplete
        (meanings W.says_after feed.slots.items) (S.left source.old) result (T.state site.old) }
    ensures work { IsTrue S.tells → IsTrue T.tells → IsSound (T.state site.old).content
        → steps.new ≤ steps.old + session_work (T.state site.old).content
        (meanings W.says_after feed.slots.items) (S.left source.old) }
    ensures unopened { IsTrue T.tells
        → LeavesUnopened result (T.state site.old) (T.state site.new) }
    ensures known { result ≡ Status.Words → ⊥ }
    ensures site { result ≡ Status.SiteFault → Rose (T.faults site.old) (T.faults site.new) }
    ensures source { result ≡ Status.SourceFault
        → Rose (S.faults source.old) (S.faults source.new) }
    ensures joins { IsTrue T.tells → Joins (T.state site.old) (T.state site.new) }
    ensures begins { IsTrue T.tells → (more : List ℕ)
        × ((T.state site.new).said ≡ (T.state site.old).said ++ more) }
    ensures taken { IsTrue S.tells
        → IsTaken (INPUT_LIMIT + 1) (S.left source.old) (S.left source.new) }
    ensures ended { IsTrue S.tells → (result ≡ Status.Fine) ⊎ (result ≡ Status.Refused)
        → S.left source.new ≡ [] }
    ensures source_later { S.faults source.old ≤ S.faults source.new }
    ensures site_later { T.faults site.old ≤ T.faults site.new }
{
    same_openings_are_alike();
    match begin(alloc, site, steps) {
        Ok(warehouse) => {
            let session = AnySession {
                alloc,
                warehouse,
                feed,
            };
            converse_by_metric(session, source, site, steps)
        }
        Err(fault) => say_fault(alloc, site, fault),
    }
}

/// Opens the store and runs the session of the input with these watchers. Over a store that doesn't
/// open they are dropped.
pub fn serve<S: Source, T: Site, L: Ledger>(
    alloc: Global,
    source: &mut S,
    site: &mut T,
    watchers: Vec<Box<dyn Watcher>>,
    steps: &mut Steps<L>,
) -> Status
    ensures serves { IsTrue S.tells → IsTrue T.tells → HasDueLines (T.state site.old).content
        → Serves
        (filled ⟦<Box<dyn Watcher> as Watcher>⟧.says_after watchers.items) (S.left source.old)
        (S.left source.new) result (T.state site.old) (T.state site.new) }
    ensures complete { IsTrue S.tells → IsTrue T.tells → HasDueLines (T.state site.old).content
        → (Rose (S.faults source.old) (S.faults source.new) → ⊥)
        → (Rose (T.faults site.old) (T.faults site.new) → ⊥) → IsComplete
        (filled ⟦<Box<dyn Watcher> as Watcher>⟧.says_after watchers.items) (S.left source.old)
        result (T.state site.old) }
    ensures work { IsTrue S.tells → IsTrue T.tells → IsSound (T.state site.old).content
        → steps.new ≤ steps.old + session_work (T.state site.old).content
        (filled ⟦<Box<dyn Watcher> as Watcher>⟧.says_after watchers.items) (S.left source.old) }
    ensures unopened { IsTrue T.tells
        → LeavesUnopened result (T.state site.old) (T.state site.new) }
    ensures known { result ≡ Status.Words → ⊥ }
    ensures site { result ≡ Status.SiteFault → Rose (T.faults site.old) (T.faults site.new) }
    ensures source { result ≡ Status.SourceFault
        → Rose (S.faults source.old) (S.faults source.new) }
    ensures joins { IsTrue T.tells → Joins (T.state site.old) (T.state site.new) }
    ensures begins { IsTrue T.tells → (more : List ℕ)
        × ((T.state site.new).said ≡ (T.state site.old).said ++ more) }
    ensures taken { IsTrue S.tells
        → IsTaken (INPUT_LIMIT + 1) (S.left source.old) (S.left source.new) }
    ensures ended { IsTrue S.tells → (result ≡ Status.Fine) ⊎ (result ≡ Status.Refused)
        → S.left source.new ≡ [] }
    ensures source_later { S.faults source.old ≤ S.faults source.new }
    ensures site_later { T.faults site.old ≤ T.faults site.new }
{
    same_openings_are_alike();
    match Feed::new(alloc, watchers) {
        Ok(feed) => serve_slots(alloc, feed, source, site, steps),
        Err(_) => Status::Memory,
    }
}
