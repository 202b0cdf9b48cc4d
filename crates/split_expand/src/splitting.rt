//! The classes within a former cluster, one group after another.

ghost use Rattle.std.specs.Prelude.{IfOk};
ghost use Rattle.std.specs.List.Sorted.{IsNonDecreasing};
ghost use Rattle.update_seed.specs.Books.{IsHeld, near_in, core_in};
ghost use Rattle.update_seed.specs.Price.{cost_at};
ghost use Rattle.split_expand.specs.Remaining.{remaining};
ghost use Rattle.split_expand.specs.Split.{AreCoresIn, AreAmong, AreGroupsOf, IsSplit, IsPaid};
ghost use Rattle.split_expand.specs.Split.{IsBounded};
ghost use Rattle.split_expand.specs.inside.Growing.{IsSetOf, IsBegin};

use crate::growing::{Growth, grow};
use crate::members::Members;
use count_book::CountBook;
use indexmap::IndexSet;
use label_book::LabelBook;
use plain_dbscan::RangeIndex;
use std::alloc::{AllocError, Global};
use std::sync::ledger::Ledger;
use vec_record::{Groups, Metric, Number, Numbers, Records, Steps};

/// The classes of the cores that are left of a former cluster, but perhaps one.
///
/// The index holds the records. What is left of the cluster are the numbers that have its label
/// still and are core by their counts; these are records, and the seeds are of them. Where they are
/// a union of classes of joined cores and each class has a seed, each group is a class over all
/// records, and the members in no group are one class more, or none. Then it asks each grown member
/// at most once, after want of memory too. With one seed it asks nothing.
///
/// A group grows from the least seed that no group has. It is left off when it has all seeds that
/// no earlier group has. Members are looked up in the two books, and no list of them is made.
pub fn expand<M: Metric, I: RangeIndex<M>, L: Ledger>(
    alloc: Global,
    records: &Records,
    index: &I,
    counts: &CountBook,
    labels: &LabelBook,
    eps: u32,
    label: Number,
    seeds: &Numbers,
    steps: &mut Steps<L>,
) -> Result<Groups, AllocError>
    requires index { IsHeld (I.width index.now) (I.contents index.now) records.now }
    requires former { AreCoresIn records.now counts.now
        (remaining counts.now labels.now label) }
    requires seeds { AreAmong (remaining counts.now labels.now label) seeds.now }
    ensures groups { IfOk result (AreGroupsOf (remaining counts.now labels.now label)) }
    ensures split { IfOk result (IsSplit (core_in counts.now) (near_in M.dist eps records.now)
        (remaining counts.now labels.now label) seeds.now) }
    ensures paid { IsPaid (core_in counts.now) (near_in M.dist eps records.now)
        (cost_at (I.cost index.now) records.now eps)
        (remaining counts.now labels.now label) seeds.now steps.old steps.new }
    ensures counted { IsBounded (core_in counts.now) (near_in M.dist eps records.now)
        (cost_at (I.cost index.now) records.now eps)
        (remaining counts.now labels.now label) seeds.now steps.old steps.new }
{
    let _ = records.width();
    let mut groups = Groups::new(alloc);
    let starts = rising(alloc, seeds)?;
    let many = starts.len();
    if many < 2 {
        return Ok(groups);
    }
    let mut growth = begin(alloc, counts, labels, label, starts)?;
    for k in 0..many {
        let seed = growth.seeds.as_slice()[k];
        if !growth.order.contains(&seed) {
            let start = growth.asked;
            growth.enter_seed(seed)?;
            if !grow(records, index, eps, &mut growth, steps)? {
                return Ok(groups);
            }
            let group = growth.since(alloc, start)?;
            groups.push(group)?;
        }
    }
    Ok(groups)
}

// The set of these numbers.
fn set_of(alloc: Global, numbers: &Numbers) -> Result<IndexSet<Number>, AllocError>
    ensures { IfOk result (λ set. IsSetOf numbers.now set.keys) }
{
    let items = numbers.as_slice();
    let mut set = IndexSet::with_capacity(alloc, items.len())?;
    for i in 0..items.len() {
        set.insert(items[i])?;
    }
    Ok(set)
}

// The set of these numbers, rising.
fn rising(alloc: Global, numbers: &Numbers) -> Result<IndexSet<Number>, AllocError>
    ensures set { IfOk result (λ set. IsSetOf numbers.now set.keys) }
    ensures order { IfOk result (λ set. IsNonDecreasing set.keys) }
{
    let mut set = set_of(alloc, numbers)?;
    set.sort()?;
    Ok(set)
}

// What grows, before the first core came.
fn begin<'a>(
    alloc: Global,
    counts: &'a CountBook,
    labels: &'a LabelBook,
    label: Number,
    seeds: IndexSet<Number>,
) -> Result<Growth<'a>, AllocError>
    ensures { IfOk result (IsBegin (remaining counts.now labels.now label) seeds.keys) }
{
    let members = Members::new(counts, labels, label);
    let unfound = seeds.len();
    let order = IndexSet::with_capacity(alloc, unfound)?;
    Ok(Growth {
        members,
        seeds,
        order,
        asked: 0,
        unfound,
        near: Numbers::new(alloc),
        later: Vec::new(alloc),
    })
}
