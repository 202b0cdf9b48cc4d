//! The deletion of one record.

ghost use Rattle.std.specs.Prelude.{◌≡◌, ◌⊎◌, ◌+◌, ◌≤◌, [], length, None, Some};
ghost use Rattle.std.specs.Prelude.{IsTrue, IsSome, IfOk, OnOk, OnErr};
ghost use Rattle.std.specs.FinMap as map;
ghost use Rattle.plain_dbscan.specs.Marks.{density};
ghost use Rattle.plain_dbscan.specs.Index.{near};
ghost use Rattle.update_seed.specs.Books.{Fits, StandsFor, IsHeld, near_in, all_near};
ghost use Rattle.update_seed.specs.Price.{cost_at};
ghost use Rattle.update_seed.specs.Outgoing.{AreOut};
ghost use Rattle.delete_case.specs.Deleted.{without, vector_at, IsPaid, IsCheap};
ghost use Rattle.delete_case.specs.Told.{AreEventsTold, AreCasesTold};
ghost use Rattle.delete_case.specs.inside.Clearing.{IsAround, IsNext, AreThere, ArePartableBy};
ghost use Rattle.delete_case.specs.inside.Clearing.{IsTaken, IsShaken, IsCleared};
ghost use Rattle.delete_case.specs.inside.Clearing.{IsSpentAfter, IsPaidAway};

use crate::counting::count_out;
use crate::hanging::rehang;
use crate::parting::part_all;
use crate::scene::Scene;
use count_book::CountBook;
use label_book::LabelBook;
use label_book::laws::labels_are_least;
use plain_dbscan::RangeIndex;
use std::alloc::{AllocError, Global};
use std::sync::ledger::Ledger;
use update_seed::seeds_out;
use vec_record::{Events, Metric, Number, Numbers, Records, Steps, Vector};

/// Takes a record out, and appends what happened to the clusters: of each cluster that lost a core,
/// by rising label, the labels that its other cores have now.
///
/// The books fit the records, and the index holds them. Afterwards so it is without the record, and
/// where the books stood for the records they stand for those that remain. After want of memory
/// none of them stands for stated records.
pub fn delete_change<M: Metric, I: RangeIndex<M>, L: Ledger>(
    alloc: Global,
    records: &mut Records,
    index: &mut I,
    counts: &mut CountBook,
    labels: &mut LabelBook,
    eps: u32,
    number: Number,
    out: &mut Events,
    steps: &mut Steps<L>,
) -> Result<(), AllocError>
    requires fits { Fits (I.width index.old) (I.contents index.old) records.old
        counts.old labels.old }
    requires there { IsSome (map.get records.old.vectors number) }
    ensures records { OnOk result (records.new ≡ without records.old number) }
    ensures minpts { OnOk result (counts.new.minpts ≡ counts.old.minpts) }
    ensures index { OnOk result (I.removed index.old index.new number
        (vector_at records.old number)) }
    ensures index_err { OnErr result ((I.removed index.old index.new number
        (vector_at records.old number)) ⊎ (steps.new ≤ steps.old
        + (16384 + I.cost index.old (vector_at records.old number) 0))) }
    ensures fits { OnOk result (Fits (I.width index.new) (I.contents index.new) records.new
        counts.new labels.new) }
    ensures stands { StandsFor (density M.dist eps counts.old.minpts) (I.width index.old)
        (I.contents index.old) records.old counts.old labels.old
        → OnOk result (StandsFor (density M.dist eps counts.old.minpts) (I.width index.new)
        (I.contents index.new) records.new counts.new labels.new) }
    ensures told { StandsFor (density M.dist eps counts.old.minpts) (I.width index.old)
        (I.contents index.old) records.old counts.old labels.old
        → OnOk result (AreEventsTold (density M.dist eps counts.old.minpts) records.old.vectors
        records.new.vectors out.old out.new) }
    ensures cases { StandsFor (density M.dist eps counts.old.minpts) (I.width index.old)
        (I.contents index.old) records.old counts.old labels.old
        → OnOk result (AreCasesTold (density M.dist eps counts.old.minpts) records.old.vectors
        records.new.vectors out.old out.new) }
    ensures price { StandsFor (density M.dist eps counts.old.minpts) (I.width index.old)
        (I.contents index.old) records.old counts.old labels.old
        → OnOk result (IsPaid (density M.dist eps counts.old.minpts) (I.cost index.old)
        (I.cost index.new) records.old number steps.old steps.new) }
    ensures price_err { StandsFor (density M.dist eps counts.old.minpts) (I.width index.old)
        (I.contents index.old) records.old counts.old labels.old
        → OnErr result (IsPaid (density M.dist eps counts.old.minpts) (I.cost index.old)
        (I.cost index.new) records.old number steps.old steps.new
        ⊎ IsCheap (I.cost index.old) records.old number steps.old steps.new) }
{
    let _ = records.width();
    let vector = match records.remove(number) {
        Some(vector) => vector,
        None => return Ok(()),
    };
    let around = take_out::<M, I, L>(alloc, index, number, &vector, eps, steps)?;
    let scene = Scene {
        alloc,
        records,
        index,
        eps,
        number,
        around: &around,
    };
    clear_away::<M, I, L>(&scene, counts, labels, out, steps)?;
    labels_are_least(labels);
    Ok(())
}

// Takes a record out of the index, and answers the numbers of those near its vector that remain.
fn take_out<M: Metric, I: RangeIndex<M>, L: Ledger>(
    alloc: Global,
    index: &mut I,
    number: Number,
    vector: &Vector,
    eps: u32,
    steps: &mut Steps<L>,
) -> Result<Numbers, AllocError>
    requires width { length vector.now ≡ I.width index.old }
    requires there { map.get (I.contents index.old) number ≡ Some vector.now }
    ensures removed { OnOk result (I.removed index.old index.new number vector.now) }
    ensures found { IfOk result (λ around. around
        ≡ near M.dist (I.contents index.new) vector.now eps) }
    ensures counted { OnOk result (IsTaken (I.cost index.old) (I.cost index.new) vector.now eps
        steps.old steps.new) }
    ensures err { OnErr result ((I.removed index.old index.new number vector.now
        × IsTaken (I.cost index.old) (I.cost index.new) vector.now eps steps.old steps.new)
        ⊎ (steps.new ≤ steps.old + (16384 + I.cost index.old vector.now 0))) }
{
    index.remove(number, vector, steps)?;
    let mut around = Numbers::new(alloc);
    index.range(vector, eps, &mut around, steps)?;
    Ok(around)
}

// Counts the record out at those around it. Where that costs cores, their clusters part, and what
// hung on them is hung anew.
fn clear_away<M: Metric, I: RangeIndex<M>, L: Ledger>(
    scene: &Scene<'_, I>,
    counts: &mut CountBook,
    labels: &mut LabelBook,
    out: &mut Events,
    steps: &mut Steps<L>,
) -> Result<(), AllocError>
    requires index { IsHeld (I.width scene.now.index.now) (I.contents scene.now.index.now)
        scene.now.records.now }
    requires around { IsAround scene.now.number scene.now.around.now counts.old }
    requires next { IsNext scene.now.records.now scene.now.number scene.now.around.now counts.old
        labels.old }
    ensures done { OnOk result (IsCleared (near_in M.dist scene.now.eps scene.now.records.now)
        (all_near M.dist scene.now.eps scene.now.records.now) scene.now.number
        scene.now.around.now counts.old counts.new labels.old labels.new out.old out.new) }
    ensures paid { IsPaidAway (near_in M.dist scene.now.eps scene.now.records.now)
        (cost_at (I.cost scene.now.index.now) scene.now.records.now scene.now.eps)
        scene.now.number scene.now.around.now counts.old labels.old steps.old steps.new }
{
    let mut lost = Numbers::new(scene.alloc);
    count_out(counts, scene.number, scene.around.as_slice(), &mut lost)?;
    if has_none(labels, scene.number, &lost) {
        return Ok(());
    }
    shake::<M, I, L>(scene, &lost, counts, labels, out, steps)
}

// True only where no core was lost, the deleted record among them.
fn has_none(labels: &LabelBook, number: Number, lost: &Numbers) -> bool
    ensures { IsTrue result → (lost.now ≡ []) × (map.get labels.now number ≡ None) }
{
    let many = lost.len();
    if many > 0 {
        return false;
    }
    labels.label_of(number).is_none()
}

// Parts the clusters of the lost cores, and hangs anew what hung on them.
fn shake<M: Metric, I: RangeIndex<M>, L: Ledger>(
    scene: &Scene<'_, I>,
    lost: &Numbers,
    counts: &mut CountBook,
    labels: &mut LabelBook,
    out: &mut Events,
    steps: &mut Steps<L>,
) -> Result<(), AllocError>
    requires index { IsHeld (I.width scene.now.index.now) (I.contents scene.now.index.now)
        scene.now.records.now }
    requires out { AreOut scene.now.records.now counts.old labels.old scene.now.number
        scene.now.around.now lost.now }
    requires there { AreThere scene.now.records.now counts.old }
    requires partable { ArePartableBy (near_in M.dist scene.now.eps scene.now.records.now)
        scene.now.number scene.now.around.now lost.now counts.old labels.old }
    ensures done { OnOk result (IsShaken (near_in M.dist scene.now.eps scene.now.records.now)
        (all_near M.dist scene.now.eps scene.now.records.now) scene.now.number
        scene.now.around.now lost.now counts.old counts.new labels.old labels.new
        out.old out.new) }
    ensures paid { IsSpentAfter (near_in M.dist scene.now.eps scene.now.records.now)
        (cost_at (I.cost scene.now.index.now) scene.now.records.now scene.now.eps)
        scene.now.number scene.now.around.now lost.now counts.old labels.old
        steps.old steps.new }
{
    let left = seeds_out::<M, I, L>(
        scene.alloc,
        scene.records,
        scene.index,
        counts,
        labels,
        scene.eps,
        scene.number,
        scene.around,
        lost,
        steps,
    )?;
    part_all::<M, I, L>(scene, counts, left.former.as_slice(), labels, out, steps)?;
    rehang::<M, I, L>(scene, counts, left.loose.as_slice(), steps)
}
