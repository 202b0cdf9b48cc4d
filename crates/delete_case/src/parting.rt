//! Former clusters part, and what happened to them is told.

ghost use Rattle.std.specs.Prelude.{IfOk, OnOk};
ghost use Rattle.update_seed.specs.Books.{core_in, IsHeld, near_in};
ghost use Rattle.update_seed.specs.Price.{cost_at};
ghost use Rattle.delete_case.specs.Parting.{IsPartable, ArePartable, CoresAreThere};
ghost use Rattle.delete_case.specs.Parting.{AreAllParted, AreAllTold, AreAllPaid};
ghost use Rattle.delete_case.specs.inside.Cutting.{IsCutBy, IsOneCut};
ghost use Rattle.delete_case.specs.inside.Cutting.{IsOneTold, IsOnePaid};

use crate::scene::Scene;
use count_book::CountBook;
use label_book::LabelBook;
use plain_dbscan::{RangeIndex, push_decline};
use split_expand::expand;
use std::alloc::AllocError;
use std::sync::ledger::Ledger;
use update_seed::Former;
use vec_record::{Events, Groups, Metric, Steps};

/// Parts each former cluster into the classes of what is left of it, and appends what happened.
pub(crate) fn part_all<M: Metric, I: RangeIndex<M>, L: Ledger>(
    scene: &Scene<'_, I>,
    counts: &CountBook,
    former: &[Former],
    labels: &mut LabelBook,
    out: &mut Events,
    steps: &mut Steps<L>,
) -> Result<(), AllocError>
    requires index { IsHeld (I.width scene.now.index.now) (I.contents scene.now.index.now)
        scene.now.records.now }
    requires there { CoresAreThere scene.now.records.now counts.now }
    requires former { ArePartable counts.now labels.old former.now }
    ensures parted { OnOk result (AreAllParted (core_in counts.now)
        (near_in M.dist scene.now.eps scene.now.records.now) labels.old former.now labels.new) }
    ensures told { OnOk result (AreAllTold labels.old former.now labels.new out.old out.new) }
    ensures paid { AreAllPaid (core_in counts.now)
        (near_in M.dist scene.now.eps scene.now.records.now)
        (cost_at (I.cost scene.now.index.now) scene.now.records.now scene.now.eps)
        labels.old former.now steps.old steps.new }
{
    for i in 0..former.len() {
        part_one::<M, I, L>(scene, counts, &former[i], labels, out, steps)?;
    }
    Ok(())
}

// Parts one former cluster, and appends what happened to it.
fn part_one<M: Metric, I: RangeIndex<M>, L: Ledger>(
    scene: &Scene<'_, I>,
    counts: &CountBook,
    former: &Former,
    labels: &mut LabelBook,
    out: &mut Events,
    steps: &mut Steps<L>,
) -> Result<(), AllocError>
    requires index { IsHeld (I.width scene.now.index.now) (I.contents scene.now.index.now)
        scene.now.records.now }
    requires there { CoresAreThere scene.now.records.now counts.now }
    requires former { IsPartable counts.now labels.old former.now }
    ensures cut { OnOk result (IsOneCut (core_in counts.now)
        (near_in M.dist scene.now.eps scene.now.records.now) labels.old former.now labels.new) }
    ensures told { OnOk result (IsOneTold labels.old former.now labels.new out.old out.new) }
    ensures paid { IsOnePaid (core_in counts.now)
        (near_in M.dist scene.now.eps scene.now.records.now)
        (cost_at (I.cost scene.now.index.now) scene.now.records.now scene.now.eps)
        labels.old former.now steps.old steps.new }
{
    let groups = groups_of::<M, I, L>(scene, counts, former, labels, steps)?;
    let new = labels.part(former.label, &former.lost, &groups)?;
    push_decline(former.label, new.as_slice(), out)
}

// The classes of what is left of a former cluster, but one. With fewer than two seeds there is no
// other, and the cluster isn't looked through.
fn groups_of<M: Metric, I: RangeIndex<M>, L: Ledger>(
    scene: &Scene<'_, I>,
    counts: &CountBook,
    former: &Former,
    labels: &LabelBook,
    steps: &mut Steps<L>,
) -> Result<Groups, AllocError>
    requires index { IsHeld (I.width scene.now.index.now) (I.contents scene.now.index.now)
        scene.now.records.now }
    requires there { CoresAreThere scene.now.records.now counts.now }
    requires former { IsPartable counts.now labels.now former.now }
    ensures groups { IfOk result (IsCutBy (core_in counts.now)
        (near_in M.dist scene.now.eps scene.now.records.now) labels.now former.now) }
    ensures paid { IsOnePaid (core_in counts.now)
        (near_in M.dist scene.now.eps scene.now.records.now)
        (cost_at (I.cost scene.now.index.now) scene.now.records.now scene.now.eps)
        labels.now former.now steps.old steps.new }
{
    let _ = scene.records.width();
    let seeds = former.seeds.len();
    if seeds < 2 {
        return Ok(Groups::new(scene.alloc));
    }
    expand::<M, I, L>(
        scene.alloc,
        scene.records,
        scene.index,
        counts,
        labels,
        scene.eps,
        former.label,
        &former.seeds,
        steps,
    )
}
