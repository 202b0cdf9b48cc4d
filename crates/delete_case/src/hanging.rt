//! Records whose anchor was lost find another.

ghost use Rattle.std.specs.Prelude.{◌≡◌, ◌+◌, ◌≤◌, ℕ, find, OnOk, IsSome};
ghost use Rattle.std.specs.FinMap as map;
ghost use Rattle.label_book.specs.Labels.{IsMember, EachOnce};
ghost use Rattle.update_seed.specs.Books.{core_in, IsHeld, all_near};
ghost use Rattle.update_seed.specs.Price.{cost_of_all};
ghost use Rattle.update_seed.specs.Outgoing.{AreHung};

use crate::scene::Scene;
use count_book::CountBook;
use plain_dbscan::RangeIndex;
use std::alloc::AllocError;
use std::sync::ledger::Ledger;
use update_seed::ask;
use vec_record::{Metric, Number, Numbers, Steps};

/// Hangs each of these records on the first core that is near it, or on none, by one query at each.
/// After want of memory some of them may have been hung.
pub(crate) fn rehang<M: Metric, I: RangeIndex<M>, L: Ledger>(
    scene: &Scene<'_, I>,
    counts: &mut CountBook,
    loose: &[Number],
    steps: &mut Steps<L>,
) -> Result<(), AllocError>
    requires index { IsHeld (I.width scene.now.index.now) (I.contents scene.now.index.now)
        scene.now.records.now }
    requires once { EachOnce loose.now }
    requires there { (q : ℕ) → IsMember loose.now q
        → IsSome (map.get scene.now.records.now.vectors q) }
    ensures hung { OnOk result (AreHung (all_near M.dist scene.now.eps scene.now.records.now)
        loose.now counts.old counts.new) }
    ensures counted { OnOk result (steps.new ≡ steps.old
        + cost_of_all (I.cost scene.now.index.now) scene.now.records.now scene.now.eps loose.now) }
    ensures at_most { steps.new ≤ steps.old
        + cost_of_all (I.cost scene.now.index.now) scene.now.records.now scene.now.eps loose.now }
{
    let mut near = Numbers::new(scene.alloc);
    for i in 0..loose.len() {
        ask::<M, I, L>(
            scene.records,
            scene.index,
            loose[i],
            scene.eps,
            &mut near,
            steps,
        )?;
        let anchor = first_core(counts, near.as_slice());
        counts.set_anchor(loose[i], anchor);
    }
    Ok(())
}

// The first of these numbers that is core.
fn first_core(counts: &CountBook, numbers: &[Number]) -> Option<Number>
    ensures { result ≡ find (core_in counts.now) numbers.now }
{
    for i in 0..numbers.len() {
        if counts.is_core(numbers[i]) {
            return Some(numbers[i]);
        }
    }
    None
}
