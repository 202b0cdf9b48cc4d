//! Clusters as their parts, which a store keeps in pages.

ghost use Rattle.std.specs.Prelude.{◌≡◌, ℕ, List, length, IfSome};
ghost use Rattle.vec_record.specs.Held.{Held};
ghost use Rattle.mtree_node.specs.Preorder.{size};
ghost use Rattle.kept_clusters.specs.Kept.{Fit, Stand, with_tags};

use crate::clusters::Clusters;
use count_book::CountBook;
use label_book::LabelBook;
use mtree_index::MTree;
use std::alloc::Global;
use vec_record::Metric;

impl<M: Metric> Clusters<M> {
    /// The clusters that have this tree and these books, with this distance of neighbours.
    pub fn from_parts(
        alloc: Global,
        eps: u32,
        index: MTree<M>,
        counts: CountBook,
        labels: LabelBook,
    ) -> Clusters<M>
        ensures { result
            ≡ record { eps = eps; tree = index; counts = counts; labels = labels } }
    {
        Clusters {
            alloc,
            eps,
            index,
            counts,
            labels,
        }
    }

    /// The tree of the records.
    pub fn index(&self) -> &MTree<M>
        ensures { result.now ≡ self.now.tree }
    {
        &self.index
    }

    /// The counts and anchors of the records.
    pub fn counts(&self) -> &CountBook
        ensures { result.now ≡ self.now.counts }
    {
        &self.counts
    }

    /// The labels of the cores.
    pub fn labels(&self) -> &LabelBook
        ensures { result.now ≡ self.now.labels }
    {
        &self.labels
    }

    /// Sets the tags of the tree's nodes, one for each in preorder, and nothing else. It takes no
    /// memory.
    pub fn retag(&mut self, tags: &[u32])
        requires tags { IfSome self.old.tree.root
            (λ n. length tags.now ≡ size self.old.tree.height n) }
        ensures tagged { self.new ≡ with_tags tags.now self.old }
        ensures fits { (records : Held) → Fit records self.old → Fit records self.new }
        ensures stands { (dist : List ℕ → List ℕ → ℕ) (records : Held)
            → Stand dist records self.old → Stand dist records self.new }
    {
        self.index.retag(tags);
    }
}
