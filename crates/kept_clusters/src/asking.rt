//! What is asked of clusters.

ghost use Rattle.std.specs.Prelude.{◌≡◌, ◌+◌, ◌*◌, ◌≤◌, ℕ, List, None, Some, Ok, IfOk, OnErr, true};
ghost use Rattle.std.specs.FinMap as map;
ghost use Rattle.vec_record.specs.Held.{Held};
ghost use Rattle.plain_dbscan.specs.Marks.{near_of};
ghost use Rattle.mtree_index.specs.Tree.{query_cost};
ghost use Rattle.cluster_report.specs.Counts.{summary_of};
ghost use Rattle.kept_clusters.specs.Kept.{density_in, marks_in, Fit, Stand};
ghost use Rattle.kept_clusters.specs.Asked.{mark_due, members_of};

use crate::clusters::Clusters;
use crate::looking::{count_marks, list_marks, list_members, look_up};
use cluster_report::Summary;
use mtree_index::laws::queries_are_cheap;
use plain_dbscan::laws::index_finds_near;
use plain_dbscan::{Mark, Marks, RangeIndex};
use std::alloc::AllocError;
use std::sync::ledger::Ledger;
use vec_record::{Metric, Number, Numbers, Records, Steps};

impl<M: Metric> Clusters<M> {
    /// The mark of a number, by a few look-ups; `None` exactly where the number is absent.
    pub fn mark_of(&self, number: Number) -> Option<Mark>
        ensures { (records : Held) → Stand M.dist records self.now
            → result ≡ mark_due (density_in M.dist self.now) records.vectors number }
    {
        match self.counts.count_of(number) {
            Some(_) => Some(look_up(&self.counts, &self.labels, number)),
            None => None,
        }
    }

    /// Each number with its mark, rising.
    pub fn marks(&self, records: &Records) -> Result<Marks, AllocError>
        ensures { Stand M.dist records.now self.now → IfOk result (λ marks. marks
            ≡ marks_in M.dist self.now records.now.vectors) }
    {
        list_marks(self.alloc, &self.counts, &self.labels, records)
    }

    /// The cores and borders with a label, by rising number; `None` exactly where no core has it.
    pub fn members(&self, records: &Records, label: Number) -> Result<Option<Marks>, AllocError>
        ensures { Stand M.dist records.now self.now → IfOk result (λ members. members
            ≡ members_of label (marks_in M.dist self.now records.now.vectors)) }
    {
        if self.labels.members(label).is_none() {
            return Ok(None);
        }
        let members = list_members(self.alloc, &self.counts, &self.labels, records, label)?;
        Ok(Some(members))
    }

    /// How many records there are, how many of each kind, and how many clusters, in one pass. It
    /// takes no memory.
    pub fn summary(&self, records: &Records) -> Summary
        ensures { Stand M.dist records.now self.now
            → result ≡ summary_of (marks_in M.dist self.now records.now.vectors) }
    {
        count_marks(&self.counts, &self.labels, records)
    }

    /// Gives in `out`, in place of what it held, the numbers near a record, rising, itself among
    /// them. It answers false exactly where the number is absent, and takes no memory then. After
    /// false and after want of memory `out` is as before.
    pub fn near<L: Ledger>(
        &self,
        records: &Records,
        number: Number,
        out: &mut Numbers,
        steps: &mut Steps<L>,
    ) -> Result<bool, AllocError>
        requires { Fit records.now self.now }
        ensures there { IfOk result
            (λ found. found ≡ map.contains_key records.now.vectors number) }
        ensures found { result ≡ Ok true → out.new
            ≡ near_of (density_in M.dist self.now) (map.entries records.now.vectors) number }
        ensures absent { map.get records.now.vectors number ≡ None
            → IfOk result (λ _. (out.new ≡ out.old) × (steps.new ≡ steps.old)) }
        ensures err { OnErr result ((map.contains_key records.now.vectors number ≡ true)
            × (out.new ≡ out.old)) }
        ensures counted { (v : List ℕ) → map.get records.now.vectors number ≡ Some v
            → steps.new ≤ steps.old + query_cost M.dist self.now.tree v self.now.eps }
        ensures few { steps.new ≤ steps.old + 2 * map.len records.now.vectors }
    {
        index_finds_near();
        queries_are_cheap();
        let _ = self.index.root();
        let Some(vector) = records.get(number) else {
            return Ok(false);
        };
        let mut found = Numbers::new(self.alloc);
        self.index.range(vector, self.eps, &mut found, steps)?;
        *out = found;
        Ok(true)
    }
}
