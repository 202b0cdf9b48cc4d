//! What new cores begin: the clusters that have one, and anchors.

ghost use Rattle.std.specs.Prelude.{◌≡◌, ◌+◌, ◌≤◌, IfOk, OnOk, IsSome};
ghost use Rattle.std.specs.FinMap as map;
ghost use Rattle.update_seed.specs.Books.{IsHeld, near_in, all_near};
ghost use Rattle.update_seed.specs.Price.{cost_at, cost_of_all};
ghost use Rattle.update_seed.specs.Groups.{AreNew, AreGathered, AreMerged};
ghost use Rattle.update_seed.specs.Offers.{AreOffered};

use crate::gathering::gather;
use crate::groups::InGroups;
use crate::ties::{each_alone, tie_all};
use count_book::CountBook;
use label_book::LabelBook;
use plain_dbscan::RangeIndex;
use std::alloc::{AllocError, Global};
use std::sync::ledger::Ledger;
use vec_record::{Metric, Number, Numbers, Records, Steps};

/// The clusters that have a new core: of each its new cores, and the labels that its other cores
/// have had. They come by their least new cores, rising.
///
/// The index holds the records; `new_cores` names, each once, records that are core by their
/// counts and have no label. Each of them is the centre of one query, and is offered as an anchor
/// to the records near it that have no label and aren't core. Where `labels` stands for the
/// records before, and `new_cores` are the new ones, the groups are exactly the clusters with a
/// new core. After want of memory some anchors may have been offered.
pub fn seeds_in<M: Metric, I: RangeIndex<M>, L: Ledger>(
    alloc: Global,
    records: &Records,
    index: &I,
    counts: &mut CountBook,
    labels: &LabelBook,
    eps: u32,
    new_cores: &Numbers,
    steps: &mut Steps<L>,
) -> Result<InGroups, AllocError>
    requires index { IsHeld (I.width index.now) (I.contents index.now) records.now }
    requires cores { AreNew records.now counts.old labels.now new_cores.now }
    ensures groups { IfOk result (AreGathered labels.now new_cores.now) }
    ensures clusters { IfOk result (AreMerged M.dist eps records.now labels.now new_cores.now) }
    ensures anchors { OnOk result (AreOffered (near_in M.dist eps records.now) labels.now
        new_cores.now counts.old counts.new) }
    ensures counted { OnOk result (steps.new ≡ steps.old
        + cost_of_all (I.cost index.now) records.now eps new_cores.now) }
    ensures at_most { steps.new ≤ steps.old
        + cost_of_all (I.cost index.now) records.now eps new_cores.now }
{
    let _ = records.width();
    let cores = new_cores.as_slice();
    let mut ties = each_alone(alloc, cores)?;
    let mut near = Numbers::new(alloc);
    for i in 0..cores.len() {
        ask(records, index, cores[i], eps, &mut near, steps)?;
        tie_all(alloc, &mut ties, labels, counts, cores[i], near.as_slice())?;
    }
    gather(alloc, &ties, labels, cores)
}

/// Gives in `near` the numbers near a record, rising, by one query. It needs a record that is
/// there. After want of memory `near` holds no stated numbers.
pub fn ask<M: Metric, I: RangeIndex<M>, L: Ledger>(
    records: &Records,
    index: &I,
    number: Number,
    eps: u32,
    near: &mut Numbers,
    steps: &mut Steps<L>,
) -> Result<(), AllocError>
    requires index { IsHeld (I.width index.now) (I.contents index.now) records.now }
    requires there { IsSome (map.get records.now.vectors number) }
    ensures near { OnOk result (near.new ≡ all_near M.dist eps records.now number) }
    ensures counted { OnOk result (steps.new ≡ steps.old
        + cost_at (I.cost index.now) records.now eps number) }
    ensures at_most { steps.new ≤ steps.old + cost_at (I.cost index.now) records.now eps number }
{
    match records.get(number) {
        Some(vector) => index.range(vector, eps, near, steps),
        None => Ok(()),
    }
}
