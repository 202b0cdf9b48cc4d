//! Clusters as one value, and how changes lead from one to another.

ghost use Rattle.std.specs.Prelude.{◌≡◌, ◌+◌, ◌≤◌, IsSome, OnOk};
ghost use Rattle.std.specs.FinMap as map;
ghost use Rattle.vec_record.specs.Vectors.{IsWidth};
ghost use Rattle.insert_case.specs.Inserted.{with_record, IsAddable};
ghost use Rattle.delete_case.specs.Deleted.{without, vector_at};
ghost use Rattle.delete_case.specs.Told.{AreCasesTold};
ghost use Rattle.mtree_index.specs.Tree.{IsInserted};
ghost use Rattle.mtree_index.specs.Shrinking.{IsRemoved};
ghost use Rattle.kept_clusters.specs.Kept.{nothing_kept, no_records, density_in, Fit, Stand};
ghost use Rattle.kept_clusters.specs.Kept.{HasItsSetting};
ghost use Rattle.kept_clusters.specs.Paid.{IsInsertionPaid, IsDeletionPaid};
ghost use Rattle.kept_clusters.specs.Work.{insertion_work, deletion_work};

use count_book::CountBook;
use delete_case::delete_change;
use insert_case::insert_change;
use label_book::LabelBook;
use mtree_index::MTree;
use mtree_index::laws::queries_are_cheap;
use std::alloc::{AllocError, Global};
use std::marker::Model;
use std::sync::ledger::Ledger;
use vec_record::{Events, Metric, Number, Records, Steps, Vector};

/// The clusters of records that stand elsewhere: a tree of them, their counts and anchors, and the
/// labels of the cores.
///
/// After want of memory in a change they fit no stated records.
#[derive(Drop)]
pub struct Clusters<M: Metric> {
    pub(crate) alloc: Global,
    pub(crate) eps: u32,
    pub(crate) index: MTree<M>,
    pub(crate) counts: CountBook,
    pub(crate) labels: LabelBook,
}

impl<M: Metric> Model for Clusters<M> {
    ghost use Rattle.kept_clusters.specs.Kept.{Kept, kept_code};

    ghost Value = { Kept };

    ghost coded = { kept_code };

    ghost view = { λ c. record {
      eps = c.eps;
      tree = c.index;
      counts = c.counts;
      labels = c.labels;
    } };
}

impl<M: Metric> Clusters<M> {
    /// The clusters of no records, for vectors of `width` bytes (1 to 512).
    pub fn new(alloc: Global, width: u32, eps: u32, minpts: u32) -> Clusters<M>
        requires { IsWidth width }
        ensures nothing { result ≡ nothing_kept width eps minpts }
        ensures stands { Stand M.dist (no_records width) result }
    {
        Clusters {
            alloc,
            eps,
            index: MTree::empty(alloc, width),
            counts: CountBook::new(alloc, minpts),
            labels: LabelBook::new(alloc),
        }
    }

    /// Adds a record, and appends the events of this.
    ///
    /// The clusters fit the records, and those after it they fit again; where they stood for the
    /// records they stand for those after. The price and the work hold after want of memory too.
    pub fn insert<L: Ledger>(
        &mut self,
        records: &mut Records,
        number: Number,
        vector: Vector,
        out: &mut Events,
        steps: &mut Steps<L>,
    ) -> Result<(), AllocError>
        requires fits { Fit records.old self.old }
        requires pair { IsAddable records.old number vector }
        ensures records { OnOk result (records.new ≡ with_record records.old number vector) }
        ensures setting { OnOk result (HasItsSetting self.old self.new) }
        ensures tree { OnOk result
            (IsInserted M.dist M.most self.old.tree self.new.tree number vector) }
        ensures fits { OnOk result (Fit records.new self.new) }
        ensures stands { Stand M.dist records.old self.old
            → OnOk result (Stand M.dist records.new self.new) }
        ensures events { Stand M.dist records.old self.old
            → OnOk result (AreCasesTold (density_in M.dist self.old) records.old.vectors
            records.new.vectors out.old out.new) }
        ensures price { Stand M.dist records.old self.old
            → IsInsertionPaid M.most (density_in M.dist self.old) self.old.tree records.old number
            vector steps.old steps.new }
        ensures work { Stand M.dist records.old self.old → steps.new ≤ steps.old
            + insertion_work (density_in M.dist self.old) records.old number vector }
    {
        queries_are_cheap();
        let alloc = self.alloc;
        let eps = self.eps;
        let done = insert_change::<M, MTree<M>, L>(
            alloc,
            records,
            &mut self.index,
            &mut self.counts,
            &mut self.labels,
            eps,
            number,
            vector,
            out,
            steps,
        );
        let _ = self.index.root();
        done
    }

    /// Takes a record out, and appends the events of this.
    ///
    /// The clusters fit the records, and those that remain they fit again; where they stood for
    /// the records they stand for those that remain. The price and the work hold after want of
    /// memory too.
    pub fn delete<L: Ledger>(
        &mut self,
        records: &mut Records,
        number: Number,
        out: &mut Events,
        steps: &mut Steps<L>,
    ) -> Result<(), AllocError>
        requires fits { Fit records.old self.old }
        requires there { IsSome (map.get records.old.vectors number) }
        ensures records { OnOk result (records.new ≡ without records.old number) }
        ensures setting { OnOk result (HasItsSetting self.old self.new) }
        ensures tree { OnOk result (IsRemoved M.dist M.most self.old.tree self.new.tree number
            (vector_at records.old number)) }
        ensures fits { OnOk result (Fit records.new self.new) }
        ensures stands { Stand M.dist records.old self.old
            → OnOk result (Stand M.dist records.new self.new) }
        ensures events { Stand M.dist records.old self.old
            → OnOk result (AreCasesTold (density_in M.dist self.old) records.old.vectors
            records.new.vectors out.old out.new) }
        ensures price { Stand M.dist records.old self.old
            → IsDeletionPaid M.most (density_in M.dist self.old) self.old.tree records.old number
            steps.old steps.new }
        ensures work { Stand M.dist records.old self.old → steps.new ≤ steps.old
            + deletion_work (density_in M.dist self.old) records.old number }
    {
        queries_are_cheap();
        let alloc = self.alloc;
        let eps = self.eps;
        let _ = self.index.root();
        let done = delete_change::<M, MTree<M>, L>(
            alloc,
            records,
            &mut self.index,
            &mut self.counts,
            &mut self.labels,
            eps,
            number,
            out,
            steps,
        );
        let _ = self.index.root();
        done
    }
}
