//! The insertion of one record.

ghost use Rattle.std.specs.Prelude.{◌≡◌, ◌⊎◌, ◌+◌, ◌<◌, ◌≤◌, None, length, OnOk, OnErr, IfOk};
ghost use Rattle.std.specs.FinMap as map;
ghost use Rattle.plain_dbscan.specs.Marks.{density};
ghost use Rattle.update_seed.specs.Books.{Fits, StandsFor};
ghost use Rattle.insert_case.specs.Inserted.{with_record, IsAddable, IsPaid};
ghost use Rattle.insert_case.specs.inside.Counting.{IsFound};
ghost use Rattle.insert_case.specs.Told.{IsTold, AreEventsTold};

use crate::counting::count_in;
use crate::joining::join_all;
use count_book::CountBook;
use label_book::LabelBook;
use label_book::laws::labels_are_least;
use plain_dbscan::RangeIndex;
use std::alloc::{AllocError, Global};
use std::sync::ledger::Ledger;
use update_seed::seeds_in;
use vec_record::{Event, Events, Kind, Metric, Number, Numbers, Records, Steps, Vector};

/// Adds a record, and appends what happened to the clusters: `Noise` where no record became core,
/// else what each cluster with a new core grew from, by rising new label and then old label.
///
/// The books fit the records, and the index holds them. Afterwards so it is with the new record,
/// and where the books stood for the records they stand for those after. After want of memory none
/// of them stands for stated records.
pub fn insert_change<M: Metric, I: RangeIndex<M>, L: Ledger>(
    alloc: Global,
    records: &mut Records,
    index: &mut I,
    counts: &mut CountBook,
    labels: &mut LabelBook,
    eps: u32,
    number: Number,
    vector: Vector,
    out: &mut Events,
    steps: &mut Steps<L>,
) -> Result<(), AllocError>
    requires fits { Fits (I.width index.old) (I.contents index.old) records.old
        counts.old labels.old }
    requires pair { IsAddable records.old number vector }
    ensures records { OnOk result (records.new ≡ with_record records.old number vector) }
    ensures minpts { OnOk result (counts.new.minpts ≡ counts.old.minpts) }
    ensures index { OnOk result (I.inserted index.old index.new number vector) }
    ensures index_err { OnErr result ((I.inserted index.old index.new number vector)
        ⊎ (steps.new ≤ steps.old + 16384)) }
    ensures fits { OnOk result (Fits (I.width index.new) (I.contents index.new) records.new
        counts.new labels.new) }
    ensures events { OnOk result (IsTold number counts.old counts.new
        labels.old out.old out.new) }
    ensures stands { StandsFor (density M.dist eps counts.old.minpts) (I.width index.old)
        (I.contents index.old) records.old counts.old labels.old
        → OnOk result (StandsFor (density M.dist eps counts.old.minpts) (I.width index.new)
        (I.contents index.new) records.new counts.new labels.new) }
    ensures told { StandsFor (density M.dist eps counts.old.minpts) (I.width index.old)
        (I.contents index.old) records.old counts.old labels.old
        → OnOk result (AreEventsTold (density M.dist eps counts.old.minpts) records.old.vectors
        records.new.vectors out.old out.new) }
    ensures price { StandsFor (density M.dist eps counts.old.minpts) (I.width index.old)
        (I.contents index.old) records.old counts.old labels.old
        → OnOk result (IsPaid (density M.dist eps counts.old.minpts) (I.cost index.new)
        records.old number vector steps.old steps.new) }
    ensures price_err { StandsFor (density M.dist eps counts.old.minpts) (I.width index.old)
        (I.contents index.old) records.old counts.old labels.old
        → OnErr result ((IsPaid (density M.dist eps counts.old.minpts) (I.cost index.new)
        records.old number vector steps.old steps.new) ⊎ (steps.new ≤ steps.old + 16384)) }
{
    let around = place(alloc, index, number, &vector, eps, steps)?;
    records.insert(number, vector)?;
    let cores = count_in(alloc, counts, labels, number, around.as_slice())?;
    if cores.len() == 0 {
        let kind = Kind::Noise;
        let (from, to) = (0, number);
        return out.push(Event { kind, from, to });
    }
    let groups = seeds_in::<M, I, L>(alloc, records, index, counts, labels, eps, &cores, steps)?;
    join_all(alloc, labels, groups.as_slice(), out)?;
    labels_are_least(labels);
    Ok(())
}

// Adds a record to the index, and gives the numbers near it, rising, itself among them.
fn place<M: Metric, I: RangeIndex<M>, L: Ledger>(
    alloc: Global,
    index: &mut I,
    number: Number,
    vector: &Vector,
    eps: u32,
    steps: &mut Steps<L>,
) -> Result<Numbers, AllocError>
    requires width { length vector.now ≡ I.width index.old }
    requires absent { map.get (I.contents index.old) number ≡ None }
    requires room { map.len (I.contents index.old) < 200000 }
    ensures inserted { OnOk result (I.inserted index.old index.new number vector.now) }
    ensures found { IfOk result (IsFound M.dist (I.width index.new) (I.contents index.new)
        vector.now eps) }
    ensures counted { OnOk result (steps.new
        ≤ steps.old + (I.cost index.new vector.now eps + 16384)) }
    ensures err { OnErr result (((I.inserted index.old index.new number vector.now)
        × (steps.new ≤ steps.old + (I.cost index.new vector.now eps + 16384)))
        ⊎ (steps.new ≤ steps.old + 16384)) }
{
    let mut around = Numbers::new(alloc);
    index.insert(number, vector, steps)?;
    index.range(vector, eps, &mut around, steps)?;
    Ok(around)
}
