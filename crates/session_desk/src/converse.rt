//! The session over a warehouse that was loaded.
ghost use Rattle.std.specs.Prelude.{◌≡◌, ◌≤◌, ◌+◌, ◌++◌, ◌⊎◌, ℕ, List, [], false, true};
ghost use Rattle.std.specs.Prelude.{IsTrue, codes, if◌then◌else◌};
ghost use Rattle.site_disk.specs.Causes.{Rose};
ghost use Rattle.site_disk.specs.State.{Safe, Joins};
ghost use Rattle.page_gate.specs.Promises.{Holds};
ghost use Rattle.warehouse_core.specs.States.{IsClustered};
ghost use Rattle.session_desk.specs.Statuses.{is_fault};
ghost use Rattle.session_desk.specs.Reading.{IsTaken};
ghost use Rattle.session_desk.specs.Moments.{IsSaying, LeavesAlone};
ghost use Rattle.session_desk.specs.Session.{requests_of};
ghost use Rattle.session_desk.specs.Talks.{IsServing, IsTalk, desk_of, works_on};
ghost use Rattle.session_desk.specs.Talks.{Concludes, IsCutOff, IsKept, IsEven};

use crate::lines::LineReader;
use crate::reading::{INPUT_LIMIT, ReadFault};
use crate::requests::next_request;
use crate::saying::say;
use crate::session::Session;
use crate::status::Status;
use event_feed::Watcher;
use site_disk::{Site, Source};
use std::sync::ledger::Ledger;
use store_image::laws::loads_are_stores;
use vec_record::{Metric, Steps};

/// The status of a session whose input came to its end.
fn end_of(refused: bool) -> Status
    ensures { result ≡ (if refused then Status.Refused else Status.Fine) }
{
    if refused {
        Status::Refused
    } else {
        Status::Fine
    }
}

/// Ends a session whose input gives no further request before its end.
fn break_off<T: Site>(site: &mut T, fault: ReadFault) -> Status
    ensures status { (result ≡ Status.SourceFault) ⊎ (result ≡ Status.TooLong)
        ⊎ (result ≡ Status.Memory) ⊎ (result ≡ Status.SiteFault) }
    ensures source { result ≡ Status.SourceFault → fault ≡ ReadFault.Source }
    ensures memory { result ≡ Status.Memory → fault ≡ ReadFault.Memory }
    ensures too_long { result ≡ Status.TooLong → fault ≡ ReadFault.TooMuch }
    ensures still { (fault ≡ ReadFault.TooMuch → ⊥) → site.new ≡ site.old }
    ensures said { IsTrue T.tells → result ≡ Status.TooLong → (T.state site.new).said
        ≡ (T.state site.old).said ++ codes "session too long\n" }
    ensures moments { IsTrue T.tells
        → Safe (T.state site.old) (T.state site.new)
        (IsSaying (T.state site.old) (codes "session too long\n")) }
    ensures alone { IsTrue T.tells → LeavesAlone (T.state site.old) (T.state site.new) }
    ensures begins { IsTrue T.tells → (more : List ℕ)
        × ((T.state site.new).said ≡ (T.state site.old).said ++ more) }
    ensures fault { result ≡ Status.SiteFault → Rose (T.faults site.old) (T.faults site.new) }
    ensures later { T.faults site.old ≤ T.faults site.new }
{
    match fault {
        ReadFault::Source => Status::SourceFault,
        ReadFault::TooMuch => say(site, Status::TooLong, b"session too long\n"),
        ReadFault::Memory => Status::Memory,
    }
}

/// Answers the requests of an input, one by one.
fn converse<M: Metric, W: Watcher, S: Source, T: Site, L: Ledger>(
    session: &mut Session<M, W>,
    source: &mut S,
    site: &mut T,
    steps: &mut Steps<L>,
) -> Status
    requires serving { IsServing session.old.warehouse }
    requires ready { IsTrue T.tells → Holds session.old.warehouse.pages (T.state site.old) }
    ensures answers { IsTrue S.tells → IsTrue T.tells → IsClustered session.old.warehouse
        → is_fault result ≡ false → Concludes
        (desk_of W.says_after session.old.warehouse session.old.feed) (S.left source.old) result
        (T.state site.old) (T.state site.new) }
    ensures whole { IsTrue S.tells → IsTrue T.tells → IsClustered session.old.warehouse
        → result ≡ Status.SourceFault → IsCutOff
        (desk_of W.says_after session.old.warehouse session.old.feed) (S.left source.old)
        (S.left source.new) (T.state site.old) (T.state site.new) }
    ensures moments { IsTrue S.tells → IsTrue T.tells → IsClustered session.old.warehouse
        → Safe (T.state site.old) (T.state site.new)
        (IsTalk (desk_of W.says_after session.old.warehouse session.old.feed) (S.left source.old)
        (T.state site.old)) }
    ensures end { IsTrue S.tells → IsTrue T.tells → IsClustered session.old.warehouse
        → is_fault result ≡ false → IsKept
        (desk_of W.says_after session.old.warehouse session.old.feed) (S.left source.old)
        (T.state site.new) }
    ensures settled { IsTrue S.tells → IsTrue T.tells → IsClustered session.old.warehouse
        → (result ≡ Status.SourceFault) ⊎ (result ≡ Status.Memory) → IsEven
        (desk_of W.says_after session.old.warehouse session.old.feed) (S.left source.old)
        (T.state site.old) (T.state site.new) }
    ensures work { IsTrue S.tells → IsClustered session.old.warehouse → steps.new ≤ steps.old
        + works_on (desk_of W.says_after session.old.warehouse session.old.feed)
        (requests_of (S.left source.old)) }
    ensures status { (result ≡ Status.Fine) ⊎ (result ≡ Status.Refused) ⊎ (result ≡ Status.TooLong)
        ⊎ (is_fault result ≡ true) }
    ensures site { result ≡ Status.SiteFault → Rose (T.faults site.old) (T.faults site.new) }
    ensures source { result ≡ Status.SourceFault
        → Rose (S.faults source.old) (S.faults source.new) }
    ensures joins { IsTrue T.tells → Joins (T.state site.old) (T.state site.new) }
    ensures begins { IsTrue T.tells → (more : List ℕ)
        × ((T.state site.new).said ≡ (T.state site.old).said ++ more) }
    ensures taken { IsTrue S.tells
        → IsTaken (INPUT_LIMIT + 1) (S.left source.old) (S.left source.new) }
    ensures ended { IsTrue S.tells → (result ≡ Status.Fine) ⊎ (result ≡ Status.Refused)
        → S.left source.new ≡ [] }
    ensures source_later { S.faults source.old ≤ S.faults source.new }
    ensures site_later { T.faults site.old ≤ T.faults site.new }
{
    loads_are_stores();
    let alloc = session.alloc;
    let Ok(mut reader) = LineReader::new(alloc) else {
        return Status::Memory;
    };
    let mut refused = false;
    'turns: loop {
        match next_request(alloc, &mut reader, source) {
            Ok(Some(asked)) => match session.step(asked, site, steps) {
                Ok(refuses) => refused = refused || refuses,
                Err(status) => return status,
            },
            Ok(None) => return end_of(refused),
            Err(fault) => return break_off(site, fault),
        }
    }
}

/// Answers the requests of an input in a session that ends with them.
pub fn hold_session<M: Metric, W: Watcher, S: Source, T: Site, L: Ledger>(
    session: Session<M, W>,
    source: &mut S,
    site: &mut T,
    steps: &mut Steps<L>,
) -> Status
    requires serving { IsServing session.warehouse }
    requires ready { IsTrue T.tells → Holds session.warehouse.pages (T.state site.old) }
    ensures answers { IsTrue S.tells → IsTrue T.tells → IsClustered session.warehouse
        → is_fault result ≡ false → Concludes
        (desk_of W.says_after session.warehouse session.feed) (S.left source.old) result
        (T.state site.old) (T.state site.new) }
    ensures whole { IsTrue S.tells → IsTrue T.tells → IsClustered session.warehouse
        → result ≡ Status.SourceFault → IsCutOff
        (desk_of W.says_after session.warehouse session.feed) (S.left source.old)
        (S.left source.new) (T.state site.old) (T.state site.new) }
    ensures moments { IsTrue S.tells → IsTrue T.tells → IsClustered session.warehouse
        → Safe (T.state site.old) (T.state site.new)
        (IsTalk (desk_of W.says_after session.warehouse session.feed) (S.left source.old)
        (T.state site.old)) }
    ensures end { IsTrue S.tells → IsTrue T.tells → IsClustered session.warehouse
        → is_fault result ≡ false → IsKept
        (desk_of W.says_after session.warehouse session.feed) (S.left source.old)
        (T.state site.new) }
    ensures settled { IsTrue S.tells → IsTrue T.tells → IsClustered session.warehouse
        → (result ≡ Status.SourceFault) ⊎ (result ≡ Status.Memory) → IsEven
        (desk_of W.says_after session.warehouse session.feed) (S.left source.old)
        (T.state site.old) (T.state site.new) }
    ensures work { IsTrue S.tells → IsClustered session.warehouse → steps.new ≤ steps.old
        + works_on (desk_of W.says_after session.warehouse session.feed)
        (requests_of (S.left source.old)) }
    ensures status { (result ≡ Status.Fine) ⊎ (result ≡ Status.Refused) ⊎ (result ≡ Status.TooLong)
        ⊎ (is_fault result ≡ true) }
    ensures site { result ≡ Status.SiteFault → Rose (T.faults site.old) (T.faults site.new) }
    ensures source { result ≡ Status.SourceFault
        → Rose (S.faults source.old) (S.faults source.new) }
    ensures joins { IsTrue T.tells → Joins (T.state site.old) (T.state site.new) }
    ensures begins { IsTrue T.tells → (more : List ℕ)
        × ((T.state site.new).said ≡ (T.state site.old).said ++ more) }
    ensures taken { IsTrue S.tells
        → IsTaken (INPUT_LIMIT + 1) (S.left source.old) (S.left source.new) }
    ensures ended { IsTrue S.tells → (result ≡ Status.Fine) ⊎ (result ≡ Status.Refused)
        → S.left source.new ≡ [] }
    ensures source_later { S.faults source.old ≤ S.faults source.new }
    ensures site_later { T.faults site.old ≤ T.faults site.new }
{
    let mut session = session;
    converse(&mut session, source, site, steps)
}
