//! A store in memory.

ghost use Rattle.std.specs.Prelude.{◌≡◌, []};
ghost use Rattle.std.specs.FinMap as maps;
ghost use Rattle.page_layout.specs.Heads.{values_of};
ghost use Rattle.vec_record.specs.Limits.{width_of};
ghost use Rattle.kept_clusters.specs.Kept.{nothing_kept, no_records, Stand};

use kept_clusters::Clusters;
use page_layout::Head;
use std::alloc::Global;
use vec_record::{Metric, Number, Params, Records};

/// The kinds of the body pages, and the numbers by record slot, 0 for a free one.
#[derive(Drop)]
pub struct Places {
    pub kinds: Vec<u8>,
    pub numbers: Vec<Number>,
}

/// A store in memory: its head, its records, what is kept of their clusters, and where they lie.
#[derive(Drop)]
pub struct Loaded<M: Metric> {
    pub head: Head,
    pub records: Records,
    pub clusters: Clusters<M>,
    pub places: Places,
}

impl<M: Metric> Loaded<M> {
    /// No records, under these parameters, as nothing was saved yet.
    pub fn new(alloc: Global, params: &Params) -> Loaded<M>
        ensures values { values_of result.head.params ≡ values_of params.now }
        ensures batches { result.head.batches ≡ 0 }
        ensures width { result.records.width ≡ width_of params.now.metric params.now.dim }
        ensures rows { result.records.vectors ≡ maps.empty }
        ensures clusters { result.clusters
            ≡ nothing_kept (width_of params.now.metric params.now.dim) params.now.eps
            params.now.minpts }
        ensures stands { Stand M.dist (no_records (width_of params.now.metric params.now.dim))
            result.clusters }
    {
        let width = params.width();
        Loaded {
            head: Head {
                pages: 2,
                version: 1,
                params: *params,
                batches: 0,
                count: 0,
                root: 0,
                height: 0,
            },
            records: Records::new(alloc, width),
            clusters: Clusters::new(alloc, width, params.eps, params.minpts),
            places: Places {
                kinds: Vec::new(alloc),
                numbers: Vec::new(alloc),
            },
        }
    }
}
