//! What lost cores leave behind: what is left of their clusters, and records without an anchor.

ghost use Rattle.std.specs.Prelude.{◌≡◌, ◌+◌, ◌≤◌, ℕ, Bool, [], IfOk, OnOk, find, IsSome, Some};
ghost use Rattle.std.specs.FinMap as map;
ghost use Rattle.label_book.specs.Labels.{IsMember, EachOnce};
ghost use Rattle.update_seed.specs.Books.{IsHeld, near_in, all_near, core_in};
ghost use Rattle.update_seed.specs.Price.{cost_of_all};
ghost use Rattle.update_seed.specs.Outgoing.{AreOut, AreFormer, AreLoose, AreHung};
ghost use Rattle.update_seed.specs.inside.Split.{AreSplit, AreLost, IsPut};
ghost use Rattle.update_seed.specs.inside.Found.{HasNoneNear, AreFound};

use crate::former::{Former, FormerList, OutSeeds};
use crate::found::Found;
use crate::labelled::{Labelled, labels_in, sorted, with_label};
use crate::seeds::ask;
use count_book::CountBook;
use label_book::LabelBook;
use plain_dbscan::RangeIndex;
use std::alloc::{AllocError, Global};
use std::sync::ledger::Ledger;
use vec_record::{Metric, Number, Numbers, Records, Steps};

/// The former clusters that lost cores, by rising label: of each its lost cores, and the remaining
/// cores with its label that are near one of them.
///
/// The index holds the remaining records. `gone` is the record that was deleted, and is a lost
/// core where it has a label; `around` names what is near it. `lost` names the remaining records
/// that were core and aren't by their counts: each has a label still, and no anchor. Each of them
/// is the centre of one query, and gets the first core near it as anchor, or none. `loose` names
/// the other records that aren't core and whose anchor is a lost core that they are near. After
/// want of memory some anchors may have been set.
pub fn seeds_out<M: Metric, I: RangeIndex<M>, L: Ledger>(
    alloc: Global,
    records: &Records,
    index: &I,
    counts: &mut CountBook,
    labels: &LabelBook,
    eps: u32,
    gone: Number,
    around: &Numbers,
    lost: &Numbers,
    steps: &mut Steps<L>,
) -> Result<OutSeeds, AllocError>
    requires index { IsHeld (I.width index.now) (I.contents index.now) records.now }
    requires lost { AreOut records.now counts.old labels.now gone around.now lost.now }
    ensures former { IfOk result (λ r. AreFormer (near_in M.dist eps records.now) counts.old
        labels.now gone around.now lost.now r.former) }
    ensures loose { IfOk result (λ r. AreLoose (near_in M.dist eps records.now) counts.old
        labels.now gone around.now lost.now r.loose) }
    ensures anchors { OnOk result (AreHung (all_near M.dist eps records.now) lost.now
        counts.old counts.new) }
    ensures counted { OnOk result (steps.new ≡ steps.old
        + cost_of_all (I.cost index.now) records.now eps lost.now) }
    ensures at_most { steps.new ≤ steps.old
        + cost_of_all (I.cost index.now) records.now eps lost.now }
{
    let cores = lost.as_slice();
    let mut found = around_gone(alloc, counts, labels, gone, around.as_slice())?;
    let mut near = Numbers::new(alloc);
    for i in 0..cores.len() {
        ask(records, index, cores[i], eps, &mut near, steps)?;
        let close = near.as_slice();
        found.look(counts, labels, cores[i], close)?;
        counts.set_anchor(cores[i], first_core(counts, close));
    }
    let former = former_of(alloc, labelled(alloc, labels, gone, cores)?, found.seeds)?;
    Ok(OutSeeds {
        former,
        loose: found.loose,
    })
}

// What is found around the record that is gone, where it had a label.
fn around_gone(
    alloc: Global,
    counts: &CountBook,
    labels: &LabelBook,
    gone: Number,
    around: &[Number],
) -> Result<Found, AllocError>
    requires { EachOnce around.now }
    ensures { (near : ℕ → ℕ → Bool) → HasNoneNear near gone
        → IfOk result (AreFound near counts.now labels.now gone around.now []) }
{
    let mut found = Found::new(alloc);
    if labels.label_of(gone).is_some() {
        found.look(counts, labels, gone, around)?;
    }
    Ok(found)
}

// The first of these numbers that is core.
fn first_core(counts: &CountBook, near: &[Number]) -> Option<Number>
    ensures { result ≡ find (core_in counts.now) near.now }
{
    near.iter().copied().find(|number| counts.is_core(*number))
}

// All lost cores beside their labels, the record that is gone among them, where it had a label.
fn labelled(
    alloc: Global,
    labels: &LabelBook,
    gone: Number,
    lost: &[Number],
) -> Result<Vec<Labelled>, AllocError>
    requires once { EachOnce lost.now }
    requires there { (b : ℕ) → IsMember lost.now b → IsSome (map.get labels.now b) }
    requires other { IsMember lost.now gone → ⊥ }
    ensures { IfOk result (λ r. AreLost labels.now gone lost.now r.items) }
{
    let mut list = Vec::new(alloc);
    put(labels, gone, &mut list)?;
    for i in 0..lost.len() {
        put(labels, lost[i], &mut list)?;
    }
    Ok(list)
}

// Puts a number beside its label behind the others, where it has one.
fn put(labels: &LabelBook, number: Number, list: &mut Vec<Labelled>) -> Result<(), AllocError>
    ensures { OnOk result (IsPut labels.now number list.old.items list.new.items) }
{
    if let Some(label) = labels.label_of(number) {
        list.push(Labelled { label, number })?;
    }
    Ok(())
}

// The former clusters by rising label, out of all lost cores and all seeds.
fn former_of(
    alloc: Global,
    lost: Vec<Labelled>,
    seeds: Vec<Labelled>,
) -> Result<FormerList, AllocError>
    ensures { IfOk result (AreSplit lost.items seeds.items) }
{
    let lost = sorted(lost);
    let seeds = sorted(seeds);
    let labels = labels_in(alloc, &lost)?;
    let mut list = FormerList::new(alloc);
    for i in 0..labels.len() {
        let label = labels[i];
        list.push(Former {
            label,
            lost: with_label(alloc, &lost, label)?,
            seeds: with_label(alloc, &seeds, label)?,
        })?;
    }
    Ok(list)
}
