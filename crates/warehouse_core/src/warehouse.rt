//! The warehouse.

ghost use Rattle.std.specs.Prelude.{◌≡◌, ◌≤◌, ◌<◌, ◌⊎◌, ◌↔◌, ℕ, List, Bool, true, false, [], ◌∷◌, ◌++◌};
ghost use Rattle.std.specs.Prelude.{◌+◌, ◌*◌};
ghost use Rattle.std.specs.Prelude.{Ok, Err, None, Some, length, IsTrue, IsOk, IsErr, IfOk};
ghost use Rattle.std.specs.Prelude.{OnOk, OnErr};
ghost use Rattle.std.specs.Prelude.{IfErr, MatchResult};
ghost use Rattle.site_disk.specs.Causes.{Rose};
ghost use Rattle.site_disk.specs.State.{Joins};
ghost use Rattle.page_gate.specs.Promises.{Holds};
ghost use Rattle.std.specs.List.{AllByRecursion};
ghost use Rattle.std.specs.FinMap as map;
ghost use Rattle.batch_text.specs.After.{after};
ghost use Rattle.batch_text.specs.Batch.{IsChangeOf, IsSpelledChange};
ghost use Rattle.store_image.specs.Loading.{load_of, params_in_pages, count_said, Fails};
ghost use Rattle.store_image.specs.Stores.{AreDueIn};
ghost use Rattle.vec_record.specs.Limits.{width_of};
ghost use Rattle.page_layout.specs.Heads.{Values, values_of};
ghost use Rattle.event_feed.specs.Meanings.{meanings, told_all};
ghost use Rattle.plain_dbscan.specs.Marks.{density};
ghost use Rattle.mtree_index.specs.Tree.{query_cost};
ghost use Rattle.warehouse_core.specs.Batches.{density_by, events_of, marks_on, rows_after};
ghost use Rattle.warehouse_core.specs.Costs.{ArePaid, tree_after_all};
ghost use Rattle.warehouse_core.specs.Work.{work_of_all};
ghost use Rattle.warehouse_core.specs.States.{State, IsClustered, LoadsAs, held_in};
ghost use Rattle.cluster_report.specs.Counts.{summary_of};
ghost use Rattle.warehouse_core.specs.Queries.{mark_on, members_of, near_on};
ghost use Rattle.warehouse_core.specs.Applying.{Accepts, IsRefusedBy, Steps as BatchSteps, due};
ghost use Rattle.warehouse_core.specs.Applying.{events_due, is_numbered, IsTagged};

use crate::changing::apply_changes;
use crate::copying::{append_events, copy_changes};
use crate::judging::judge;
use crate::receipt::{count_deletions, count_insertions, receipt};
use crate::refusal::Refusal;
use crate::saving::save;
use cluster_report::Summary;
use event_feed::{Watcher, WatcherSlots};
use page_gate::Pages;
use plain_dbscan::{Mark, Marks};
use site_disk::Site;
use std::alloc::{AllocError, Global};
use std::marker::Model;
use std::sync::ledger::Ledger;
use store_image::laws::{due_lines_stand, loads_are_stores, standing_are_hung};
use store_image::{Loaded, StoreFault};
use vec_record::{Bytes, Changes, Events, Metric, Number, Numbers, Params, Records, Steps};

/// Records, their clusters and their store. What it says of marks, clusters and events, and what its
/// store is at each moment, it says where the clusters stand for the records: they do in a new store,
/// after each batch over such, and after a load exactly where the lines of the pages are due.
#[derive(Drop)]
pub struct Warehouse<M: Metric> {
    alloc: Global,
    pages: Pages,
    state: Loaded<M>,
    stored: bool,
    failed: bool,
}

impl<M: Metric> Model for Warehouse<M> {
    ghost use Rattle.std.specs.Prelude.{◌≡◌, false};
    ghost use Rattle.warehouse_core.specs.States.{State, state_code};

    ghost Value = { State };

    ghost coded = { state_code };

    ghost use Rattle.page_layout.specs.Heads.{plain};
    ghost use Rattle.store_image.specs.Images.{image_with};
    ghost use Rattle.warehouse_core.specs.Inside.{Stands, state_of};

    ghost view = { λ w. state_of (image_with (plain w.state.head) w.state.records w.state.clusters)
        w.pages.list w.stored w.failed };

    ghost invariant = { λ w. w.failed ≡ false
        → Stands M.dist M.KIND w.stored
        (image_with (plain w.state.head) w.state.records w.state.clusters) w.state.places
        w.pages.list };
}

impl<M: Metric> Warehouse<M> {
    /// A stored warehouse: the records of its pages and their clusters, as the pages have them. Any
    /// refusal but want of memory is the one that the pages have. The metric is to be that of the
    /// store. It computes at most eight distances for each record. The clusters stand for the
    /// records exactly where the lines of the pages are those that are due.
    pub fn load<L: Ledger>(
        alloc: Global,
        pages: Pages,
        steps: &mut Steps<L>,
    ) -> Result<Warehouse<M>, StoreFault>
        requires kind { (v : Values) → params_in_pages pages.list ≡ Ok v → v.metric ≡ M.KIND }
        ensures loaded { MatchResult result
            (λ w. LoadsAs pages.list w.values w.rows w.batches × (w.pages ≡ pages.list)
            × (w.stored ≡ true) × (w.failed ≡ false)) (λ e. Fails e (load_of pages.list)) }
        ensures clustered { IfOk result (λ w. AreDueIn pages.list ↔ IsClustered w) }
        ensures counted { IfOk result (λ w. steps.new ≤ steps.old + 8 * map.len w.rows) }
        ensures bounded { steps.new ≤ steps.old + 8 * count_said pages.list }
    {
        due_lines_stand();
        let state = store_image::load::<M, L>(alloc, &pages, steps)?;
        Ok(Warehouse {
            alloc,
            pages,
            state,
            stored: true,
            failed: false,
        })
    }

    /// A warehouse of no records, without a store. The metric is to be that of the parameters.
    pub fn fresh(alloc: Global, params: Params) -> Result<Warehouse<M>, AllocError>
        requires kind { params.metric ≡ M.KIND }
        ensures values { IfOk result (λ w. w.values ≡ values_of params) }
        ensures rows { IfOk result (λ w. w.rows ≡ map.empty) }
        ensures batches { IfOk result (λ w. w.batches ≡ 0) }
        ensures unstored { IfOk result (λ w. w.stored ≡ false) }
        ensures whole { IfOk result (λ w. w.failed ≡ false) }
        ensures clustered { IfOk result IsClustered }
    {
        Ok(Warehouse {
            alloc,
            pages: Pages::new(alloc),
            state: Loaded::new(alloc, &params),
            stored: false,
            failed: false,
        })
    }

    /// Takes a batch of at most 67,108,864 bytes as one step, and appends its receipt to `out`.
    ///
    /// Refusals other than `SiteFault` and `Memory` are decided before anything is changed, and
    /// leave all as it was. After those two the warehouse has failed: after `SiteFault` the store
    /// has the batch wholly or not at all, after `Memory` not at all. The feed is told the events
    /// of an accepted batch after the commit, which takes no memory; a refusal tells it nothing.
    pub fn apply<T: Site, W: Watcher, L: Ledger>(
        &mut self,
        site: &mut T,
        feed: &mut WatcherSlots<W>,
        body: &[u8],
        out: &mut Bytes,
        steps: &mut Steps<L>,
    ) -> Result<(), Refusal>
        requires stored { self.old.stored ≡ true }
        requires whole { self.old.failed ≡ false }
        requires body { length body.now ≤ 67_108_864 }
        requires ready { IsTrue T.tells → Holds self.old.pages (T.state site.old) }

        // Ok is for a batch that is accepted, and only that.
        ensures ok { OnOk result (Accepts body.now self.old self.new out.old out.new) }
        ensures ready { IsTrue T.tells → OnOk result (Holds self.new.pages (T.state site.new)) }

        // The feed is told exactly the events of an accepted batch.
        ensures told { IsClustered self.old → OnOk result
            (meanings W.says_after feed.new.slots.items ≡ told_all (events_due self.old body.now)
            (meanings W.says_after feed.old.slots.items)) }
        ensures untold { OnErr result (feed.new ≡ feed.old) }

        // A refusal with a number is the one that is due, and leaves all as it was.
        ensures refused { IfErr result (λ e. is_numbered e ≡ true → due self.old body.now ≡ Err e) }
        ensures warehouse { IfErr result (λ e. is_numbered e ≡ true → self.new ≡ self.old) }
        ensures site { IfErr result (λ e. is_numbered e ≡ true → site.new ≡ site.old) }
        ensures text { OnErr result (out.new ≡ out.old) }

        // Over a body that a refusal is due to, that one is answered or memory is wanting, and no
        // distance is counted.
        ensures answered { IfErr (due self.old body.now) (λ e. IsRefusedBy e result) }
        ensures uncounted { IsErr (due self.old body.now) → steps.new ≡ steps.old }
        ensures accepted { result ≡ Err Refusal.SiteFault → IsOk (due self.old body.now) }

        // After want of memory nothing was written.
        ensures unwritten { result ≡ Err Refusal.Memory → site.new ≡ site.old }

        // After the other answers the warehouse has failed.
        ensures failed { IfErr result (λ e. is_numbered e ≡ false → self.new.failed ≡ true) }
        ensures fault { result ≡ Err Refusal.SiteFault
            → Rose (T.faults site.old) (T.faults site.new) }
        ensures later { T.faults site.old ≤ T.faults site.new }

        // What a crash leaves at each moment; nothing is said.
        ensures joins { IsTrue T.tells → Joins (T.state site.old) (T.state site.new) }
        ensures said { IsTrue T.tells → (T.state site.new).said ≡ (T.state site.old).said }
        ensures moments { IsTrue T.tells → IsClustered self.old
            → BatchSteps body.now result self.old (T.state site.old) (T.state site.new) }

        // What an accepted batch may cost, whatever is answered, by the tree and by the records.
        ensures price { IsClustered self.old → IfOk (due self.old body.now) (λ changes. ArePaid
            M.most (density M.dist self.old.values.eps self.old.values.minpts) self.old.kept.tree
            (held_in self.old) changes steps.old steps.new) }
        ensures work { IsClustered self.old → IfOk (due self.old body.now) (λ changes. steps.new
            ≤ steps.old + work_of_all (density_by self.old.values) (held_in self.old) changes) }
        ensures tree { OnOk result (IfOk (due self.old body.now) (λ changes. IsTagged
            (tree_after_all M.dist M.most (held_in self.old) changes self.old.kept.tree)
            self.new.kept.tree)) }
    {
        loads_are_stores();
        due_lines_stand();
        let params = self.state.head.params;
        let batches = self.state.head.batches;
        match judge(self.alloc, &params, batches, &self.state.records, body) {
            Ok(changes) => self.accept(site, feed, changes, out, steps),
            Err(refusal) => {
                if refusal == Refusal::Memory {
                    self.failed = true;
                }
                Err(refusal)
            }
        }
    }

    /// Takes the changes of an accepted batch in, saves them, and tells the feed their events.
    fn accept<T: Site, W: Watcher, L: Ledger>(
        &mut self,
        site: &mut T,
        feed: &mut WatcherSlots<W>,
        changes: Changes,
        out: &mut Bytes,
        steps: &mut Steps<L>,
    ) -> Result<(), Refusal>
        requires stored { self.old.stored ≡ true }
        requires whole { self.old.failed ≡ false }
        requires ready { IsTrue T.tells → Holds self.old.pages (T.state site.old) }
        requires batches { self.old.batches < 4294967295 }
        requires fits { AllByRecursion
            (IsChangeOf (width_of self.old.values.metric self.old.values.dim)) changes }
        requires spelled { AllByRecursion
            (IsSpelledChange self.old.values.metric self.old.values.dim) changes }
        requires accepted { IsOk (after self.old.values.cap self.old.rows changes) }
        ensures ok { OnOk result
            ((body : List ℕ) → due self.old body ≡ Ok changes
            → Accepts body self.old self.new out.old out.new) }
        ensures told { IsClustered self.old → OnOk result
            (meanings W.says_after feed.new.slots.items
            ≡ told_all (events_of self.old.values self.old.rows changes)
            (meanings W.says_after feed.old.slots.items)) }
        ensures untold { OnErr result (feed.new ≡ feed.old) }
        ensures ready { IsTrue T.tells → OnOk result (Holds self.new.pages (T.state site.new)) }
        ensures text { OnErr result (out.new ≡ out.old) }
        ensures err { IfErr result (λ e. is_numbered e ≡ false) }
        ensures unwritten { result ≡ Err Refusal.Memory → site.new ≡ site.old }
        ensures failed { OnErr result (self.new.failed ≡ true) }
        ensures fault { result ≡ Err Refusal.SiteFault
            → Rose (T.faults site.old) (T.faults site.new) }
        ensures later { T.faults site.old ≤ T.faults site.new }
        ensures joins { IsTrue T.tells → Joins (T.state site.old) (T.state site.new) }
        ensures said { IsTrue T.tells → (T.state site.new).said ≡ (T.state site.old).said }
        ensures moments { IsTrue T.tells → IsClustered self.old → (body : List ℕ)
            → due self.old body ≡ Ok changes
            → BatchSteps body result self.old (T.state site.old) (T.state site.new) }
        ensures price { IsClustered self.old → ArePaid M.most
            (density M.dist self.old.values.eps self.old.values.minpts) self.old.kept.tree
            (held_in self.old) changes steps.old steps.new }
        ensures work { IsClustered self.old → steps.new ≤ steps.old
            + work_of_all (density_by self.old.values) (held_in self.old) changes }
        ensures tree { OnOk result (IsTagged
            (tree_after_all M.dist M.most (held_in self.old) changes self.old.kept.tree)
            self.new.kept.tree) }
    {
        loads_are_stores();
        due_lines_stand();
        standing_are_hung();
        // What is in memory runs ahead of the store until the batch is saved.
        self.failed = true;
        let alloc = self.alloc;
        let params = self.state.head.params;
        let insertions = count_insertions(changes.as_slice());
        let deletions = count_deletions(changes.as_slice());
        let records = &mut self.state.records;
        let clusters = &mut self.state.clusters;
        let events = apply_changes::<M, L>(alloc, &params, records, clusters, changes, steps)?;
        let batch = self.state.head.batches + 1;
        let line = receipt(alloc, batch, insertions, deletions, events.as_slice())?;
        let pages = &mut self.pages;
        save::<M, T>(alloc, site, pages, &mut self.state, line.as_slice(), out)?;
        feed.tell_all(&events);
        self.failed = false;
        Ok(())
    }

    /// Applies changes to a warehouse without a store, in their order, and appends their events.
    /// After want of memory the warehouse has failed.
    pub fn apply_unsaved<L: Ledger>(
        &mut self,
        changes: &Changes,
        out: &mut Events,
        steps: &mut Steps<L>,
    ) -> Result<(), AllocError>
        requires unstored { self.old.stored ≡ false }
        requires whole { self.old.failed ≡ false }
        requires fits { AllByRecursion
            (IsChangeOf (width_of self.old.values.metric self.old.values.dim)) changes.now }
        requires spelled { AllByRecursion
            (IsSpelledChange self.old.values.metric self.old.values.dim) changes.now }
        requires accepted { IsOk (after self.old.values.cap self.old.rows changes.now) }
        ensures values { OnOk result (self.new.values ≡ self.old.values) }
        ensures rows { OnOk result
            (self.new.rows ≡ rows_after self.old.values self.old.rows changes.now) }
        ensures events { IsClustered self.old → OnOk result (out.new
            ≡ out.old ++ events_of self.old.values self.old.rows changes.now) }
        ensures clustered { IsClustered self.old → OnOk result (IsClustered self.new) }
        ensures batches { OnOk result (self.new.batches ≡ self.old.batches) }
        ensures unstored { self.new.stored ≡ false }
        ensures whole { OnOk result (self.new.failed ≡ false) }
        ensures failed { OnErr result (self.new.failed ≡ true) }
        ensures price { IsClustered self.old → ArePaid M.most
            (density M.dist self.old.values.eps self.old.values.minpts) self.old.kept.tree
            (held_in self.old) changes.now steps.old steps.new }
        ensures work { IsClustered self.old → steps.new ≤ steps.old
            + work_of_all (density_by self.old.values) (held_in self.old) changes.now }
        ensures tree { OnOk result (self.new.kept.tree
            ≡ tree_after_all M.dist M.most (held_in self.old) changes.now self.old.kept.tree) }
    {
        self.failed = true;
        let alloc = self.alloc;
        let params = self.state.head.params;
        let own = copy_changes(alloc, changes.as_slice())?;
        let records = &mut self.state.records;
        let clusters = &mut self.state.clusters;
        let events = apply_changes::<M, L>(alloc, &params, records, clusters, own, steps)?;
        append_events(events.as_slice(), out)?;
        self.failed = false;
        Ok(())
    }

    /// Whether it has failed: exactly after `SiteFault` or `Memory` of `apply`, or want of memory
    /// of `apply_unsaved`.
    pub fn failed(&self) -> bool
        ensures { result ≡ self.now.failed }
    {
        self.failed
    }

    /// Whether it has a store, as each loaded one does.
    pub fn is_stored(&self) -> bool
        ensures { result ≡ self.now.stored }
    {
        self.stored
    }

    /// The parameters of its store.
    pub fn params(&self) -> Params
        ensures { values_of result ≡ self.now.values }
    {
        self.state.head.params
    }

    /// The records that are present.
    pub fn records(&self) -> &Records
        ensures vectors { result.now.vectors ≡ self.now.rows }
        ensures width { self.now.failed ≡ false → result.now.width
            ≡ width_of self.now.values.metric self.now.values.dim }
    {
        &self.state.records
    }

    /// How many batches its store accepted.
    pub fn batches(&self) -> u32
        ensures { result ≡ self.now.batches }
    {
        self.state.head.batches
    }
    /// The mark of a number, by a few look-ups in memory; `None` exactly where the number is absent.
    pub fn mark_of(&self, number: Number) -> Option<Mark>
        requires { self.now.failed ≡ false }
        ensures { IsClustered self.now
            → result ≡ mark_on self.now.values self.now.rows number }
    {
        self.state.clusters.mark_of(number)
    }

    /// Each number with its mark, rising.
    pub fn marks(&self) -> Result<Marks, AllocError>
        requires { self.now.failed ≡ false }
        ensures { IsClustered self.now
            → IfOk result (λ marks. marks ≡ marks_on self.now.values self.now.rows) }
    {
        self.state.clusters.marks(&self.state.records)
    }

    /// The cores and borders with a label, by rising number; `None` exactly where no core has it.
    pub fn members(&self, label: Number) -> Result<Option<Marks>, AllocError>
        requires { self.now.failed ≡ false }
        ensures { IsClustered self.now → IfOk result (λ members. members
            ≡ members_of label (marks_on self.now.values self.now.rows)) }
    {
        self.state.clusters.members(&self.state.records, label)
    }

    /// Gives in `out`, in place of what it held, the numbers near a record, rising, itself among
    /// them. It answers false exactly where the number is absent, which takes no memory; after
    /// false and after want of memory `out` is as before.
    pub fn near<L: Ledger>(
        &self,
        number: Number,
        out: &mut Numbers,
        steps: &mut Steps<L>,
    ) -> Result<bool, AllocError>
        requires { self.now.failed ≡ false }
        ensures found { IfOk result (λ found. found ≡ map.contains_key self.now.rows number) }
        ensures near { result ≡ Ok true → out.new ≡ near_on self.now.values self.now.rows number }
        ensures absent { result ≡ Ok false → out.new ≡ out.old }
        ensures err { OnErr result (map.contains_key self.now.rows number ≡ true) }
        ensures kept { OnErr result (out.new ≡ out.old) }
        ensures cost { (v : List ℕ) → map.get self.now.rows number ≡ Some v → steps.new ≤ steps.old
            + query_cost M.dist self.now.kept.tree v self.now.values.eps }
        ensures most { steps.new ≤ steps.old + 2 * map.len self.now.rows }
    {
        let clusters = &self.state.clusters;
        clusters.near(&self.state.records, number, out, steps)
    }

    /// The counts of all marks, in one pass that takes no memory.
    pub fn summary(&self) -> Summary
        requires { self.now.failed ≡ false }
        ensures { IsClustered self.now
            → result ≡ summary_of (marks_on self.now.values self.now.rows) }
    {
        self.state.clusters.summary(&self.state.records)
    }
}
