//! The state of a session, and the answer to one request.
ghost use Rattle.std.specs.Prelude.{◌≡◌, ◌≤◌, ◌+◌, ◌++◌, ◌⊎◌, ℕ, List, Bool, true, false, Ok};
ghost use Rattle.std.specs.Prelude.{Err, None, IsTrue, IfOk, IfErr, OnOk, length};
ghost use Rattle.site_disk.specs.Causes.{Rose};
ghost use Rattle.site_disk.specs.State.{Safe, Joins};
ghost use Rattle.page_gate.specs.Promises.{Holds};
ghost use Rattle.warehouse_core.specs.States.{IsClustered};
ghost use Rattle.session_desk.specs.Session.{Request};
ghost use Rattle.session_desk.specs.Asking.{IsAsked};
ghost use Rattle.session_desk.specs.Talks.{IsServing, IsJudged, IsAnswered, Answering, desk_of};
ghost use Rattle.session_desk.specs.Talks.{answer_on, desk_behind, IsReplying, IsStoreOf, work_on};
ghost use Rattle.session_desk.specs.Costs.{line_work};

use crate::answering::{cluster, drop_watcher, label, near, refuse, report, summary, watch};
use crate::requests::{Asked, Line};
use crate::status::Status;
use event_feed::{Watcher, WatcherSlots};
use site_disk::Site;
use std::alloc::{AllocError, Global};
use std::sync::ledger::Ledger;
use store_image::laws::loads_are_stores;
use vec_record::{Bytes, Metric, Steps};
use warehouse_core::{Refusal, Warehouse};

/// The state of a session: the records with their store, and the watchers.
#[derive(Drop)]
pub struct Session<M: Metric, W> {
    pub alloc: Global,
    pub warehouse: Warehouse<M>,
    pub feed: WatcherSlots<W>,
}

/// The number and the place that a refusal is said with, or the status of a fault.
fn judge(refusal: Refusal) -> Result<(u32, Option<u32>), Status>
    ensures { IsJudged refusal result }
{
    match refusal {
        Refusal::Malformed(place) => Ok((11, Some(place))),
        Refusal::WrongLength(place) => Ok((12, Some(place))),
        Refusal::Repeated(place) => Ok((13, Some(place))),
        Refusal::Unknown(place) => Ok((14, Some(place))),
        Refusal::Full(place) => Ok((15, Some(place))),
        Refusal::TooManyRecords => Ok((16, None)),
        Refusal::BatchesUsedUp => Ok((19, None)),
        Refusal::SiteFault => Err(Status::SiteFault),
        Refusal::Memory => Err(Status::Memory),
    }
}

impl<M: Metric, W: Watcher> Session<M, W> {
    /// Appends the answer to a line, and tells whether it is a refusal.
    fn answer_line<L: Ledger>(
        &mut self,
        line: Line,
        out: &mut Bytes,
        steps: &mut Steps<L>,
    ) -> Result<bool, AllocError>
        requires { IsServing self.old.warehouse }
        ensures answered { IsClustered self.old.warehouse → IfOk result (λ refused. IsAnswered
            (desk_of W.says_after self.old.warehouse self.old.feed) (Request.Ask line) refused
            (desk_of W.says_after self.new.warehouse self.new.feed) out.old out.new) }
        ensures warehouse { self.new.warehouse ≡ self.old.warehouse }
        ensures work { steps.new ≤ steps.old + line_work self.old.warehouse.rows line }
    {
        let warehouse = &self.warehouse;
        match line {
            Line::Report => report(warehouse, out),
            Line::Summary => summary(warehouse, out),
            Line::Label(number) => label(warehouse, number, out),
            Line::Cluster(number) => cluster(warehouse, number, out),
            Line::Near(number) => near(warehouse, number, out, steps),
            Line::Watch(slot) => watch(&self.feed, slot, out),
            Line::Drop(slot) => drop_watcher(&mut self.feed, slot, out),
            Line::Unknown => refuse(21, None, out),
            Line::Long => refuse(18, None, out),
        }
    }

    /// Takes a batch as one step, and appends its receipt or its refusal.
    fn answer_batch<T: Site, L: Ledger>(
        &mut self,
        body: &[u8],
        site: &mut T,
        out: &mut Bytes,
        steps: &mut Steps<L>,
    ) -> Result<bool, Status>
        requires serving { IsServing self.old.warehouse }
        requires body { length body.now ≤ 67_108_864 }
        requires ready { IsTrue T.tells → Holds self.old.warehouse.pages (T.state site.old) }
        ensures serving { OnOk result (IsServing self.new.warehouse) }
        ensures clustered { IsClustered self.old.warehouse
            → OnOk result (IsClustered self.new.warehouse) }
        ensures ready { IsTrue T.tells
            → OnOk result (Holds self.new.warehouse.pages (T.state site.new)) }
        ensures answered { IsClustered self.old.warehouse → (lines : List (List ℕ))
            → IsAsked (Asked.Batch body.now) (Request.Batch lines)
            → IfOk result (λ refused. IsAnswered
            (desk_of W.says_after self.old.warehouse self.old.feed) (Request.Batch lines) refused
            (desk_of W.says_after self.new.warehouse self.new.feed) out.old out.new) }
        ensures moments { IsTrue T.tells → IsClustered self.old.warehouse
            → (lines : List (List ℕ)) → IsAsked (Asked.Batch body.now) (Request.Batch lines)
            → Answering
            (desk_of W.says_after self.old.warehouse self.old.feed) (Request.Batch lines) result
            (T.state site.old) (T.state site.new) }
        ensures work { IsClustered self.old.warehouse → (lines : List (List ℕ))
            → IsAsked (Asked.Batch body.now) (Request.Batch lines) → steps.new ≤ steps.old
            + work_on (desk_of W.says_after self.old.warehouse self.old.feed) (Request.Batch lines) }
        ensures joins { IsTrue T.tells → Joins (T.state site.old) (T.state site.new) }
        ensures said { IsTrue T.tells → (T.state site.new).said ≡ (T.state site.old).said }
        ensures status { IfErr result
            (λ status. (status ≡ Status.SiteFault) ⊎ (status ≡ Status.Memory)) }
        ensures fault { result ≡ Err Status.SiteFault
            → Rose (T.faults site.old) (T.faults site.new) }
        ensures later { T.faults site.old ≤ T.faults site.new }
    {
        match self.warehouse.apply(site, &mut self.feed, body, out, steps) {
            Ok(()) => Ok(false),
            Err(refusal) => {
                let (number, place) = judge(refusal)?;
                Ok(refuse(number, place, out)?)
            }
        }
    }

    /// Appends the answer to a request, and tells whether it is a refusal.
    fn answer<T: Site, L: Ledger>(
        &mut self,
        asked: Asked,
        site: &mut T,
        out: &mut Bytes,
        steps: &mut Steps<L>,
    ) -> Result<bool, Status>
        requires serving { IsServing self.old.warehouse }
        requires body { (body : List ℕ) → asked ≡ Asked.Batch body → length body ≤ 67_108_864 }
        requires ready { IsTrue T.tells → Holds self.old.warehouse.pages (T.state site.old) }
        ensures serving { OnOk result (IsServing self.new.warehouse) }
        ensures clustered { IsClustered self.old.warehouse
            → OnOk result (IsClustered self.new.warehouse) }
        ensures ready { IsTrue T.tells
            → OnOk result (Holds self.new.warehouse.pages (T.state site.new)) }
        ensures answered { IsClustered self.old.warehouse → (q : Request) → IsAsked asked q
            → IfOk result (λ refused. IsAnswered
            (desk_of W.says_after self.old.warehouse self.old.feed) q refused
            (desk_of W.says_after self.new.warehouse self.new.feed) out.old out.new) }
        ensures moments { IsTrue T.tells → IsClustered self.old.warehouse → (q : Request)
            → IsAsked asked q → Answering
            (desk_of W.says_after self.old.warehouse self.old.feed) q result (T.state site.old)
            (T.state site.new) }
        ensures work { IsClustered self.old.warehouse → (q : Request) → IsAsked asked q
            → steps.new ≤ steps.old
            + work_on (desk_of W.says_after self.old.warehouse self.old.feed) q }
        ensures joins { IsTrue T.tells → Joins (T.state site.old) (T.state site.new) }
        ensures said { IsTrue T.tells → (T.state site.new).said ≡ (T.state site.old).said }
        ensures status { IfErr result
            (λ status. (status ≡ Status.SiteFault) ⊎ (status ≡ Status.Memory)) }
        ensures fault { result ≡ Err Status.SiteFault
            → Rose (T.faults site.old) (T.faults site.new) }
        ensures later { T.faults site.old ≤ T.faults site.new }
    {
        loads_are_stores();
        match asked {
            Asked::Batch(body) => self.answer_batch(body.as_slice(), site, out, steps),
            Asked::LongBatch => Ok(refuse(18, None, out)?),
            Asked::Cut => Ok(refuse(17, None, out)?),
            Asked::Line(line) => Ok(self.answer_line(line, out, steps)?),
        }
    }

    /// One step: answers a request and says the answer. It tells whether that is a refusal, or the
    /// status that ends the run.
    pub fn step<T: Site, L: Ledger>(
        &mut self,
        asked: Asked,
        site: &mut T,
        steps: &mut Steps<L>,
    ) -> Result<bool, Status>
        requires serving { IsServing self.old.warehouse }
        requires body { (body : List ℕ) → asked ≡ Asked.Batch body → length body ≤ 67_108_864 }
        requires ready { IsTrue T.tells → Holds self.old.warehouse.pages (T.state site.old) }
        ensures serving { OnOk result (IsServing self.new.warehouse) }
        ensures clustered { IsClustered self.old.warehouse
            → OnOk result (IsClustered self.new.warehouse) }
        ensures ready { IsTrue T.tells
            → OnOk result (Holds self.new.warehouse.pages (T.state site.new)) }
        ensures desk { IsClustered self.old.warehouse → (q : Request) → IsAsked asked q
            → let old = desk_of W.says_after self.old.warehouse self.old.feed in OnOk result
            (desk_of W.says_after self.new.warehouse self.new.feed
            ≡ desk_behind old (answer_on old q)) }
        ensures refused { IsClustered self.old.warehouse → (q : Request) → IsAsked asked q
            → IfOk result (λ refused. refused
            ≡ (answer_on (desk_of W.says_after self.old.warehouse self.old.feed) q).refused) }
        ensures said { IsTrue T.tells → IsClustered self.old.warehouse → (q : Request)
            → IsAsked asked q → OnOk result ((T.state site.new).said ≡ (T.state site.old).said
            ++ (answer_on (desk_of W.says_after self.old.warehouse self.old.feed) q).text) }
        ensures moments { IsTrue T.tells → IsClustered self.old.warehouse → (q : Request)
            → IsAsked asked q → Safe (T.state site.old) (T.state site.new)
            (IsReplying (desk_of W.says_after self.old.warehouse self.old.feed) q
            (T.state site.old)) }
        ensures work { IsClustered self.old.warehouse → (q : Request) → IsAsked asked q
            → steps.new ≤ steps.old
            + work_on (desk_of W.says_after self.old.warehouse self.old.feed) q }
        ensures unsaved { IsTrue T.tells → IsClustered self.old.warehouse → (q : Request)
            → IsAsked asked q → result ≡ Err Status.Memory → (c : List ℕ)
            → (T.state site.new).may_leave c
            → IsStoreOf (desk_of W.says_after self.old.warehouse self.old.feed) c }
        ensures unsaid { IsTrue T.tells → result ≡ Err Status.Memory → (T.state site.new).said
            ≡ (T.state site.old).said }
        ensures joins { IsTrue T.tells → Joins (T.state site.old) (T.state site.new) }
        ensures begins { IsTrue T.tells → (more : List ℕ)
            × ((T.state site.new).said ≡ (T.state site.old).said ++ more) }
        ensures status { IfErr result
            (λ status. (status ≡ Status.SiteFault) ⊎ (status ≡ Status.Memory)) }
        ensures fault { result ≡ Err Status.SiteFault
            → Rose (T.faults site.old) (T.faults site.new) }
        ensures later { T.faults site.old ≤ T.faults site.new }
    {
        loads_are_stores();
        let mut text = Bytes::new(self.alloc);
        let refused = self.answer(asked, site, &mut text, steps)?;
        match site.say(text.as_slice()) {
            Ok(()) => Ok(refused),
            Err(_) => Err(Status::SiteFault),
        }
    }
}
