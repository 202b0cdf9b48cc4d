//! The groups, read off from what is tied together.

ghost use Rattle.std.specs.Prelude.{◌≡◌, ℕ, List, length, slice_get, Some, IsSome, is_some};
ghost use Rattle.std.specs.Prelude.{is_none, filter, IfOk, OnOk};
ghost use Rattle.std.specs.FinMap as map;
ghost use Rattle.label_book.specs.Labels.{IsMember, EachOnce};
ghost use Rattle.update_seed.specs.inside.Ties.{IsRising, HaveSame, IsBegun, AreHeads, IsClassOf};
ghost use Rattle.update_seed.specs.inside.Ties.{AreClasses};

use crate::groups::{InGroup, InGroups};
use label_book::LabelBook;
use number_map::NumberMap;
use std::alloc::{AllocError, Global};
use vec_record::{Number, Numbers};

/// The classes of these cores, by their least cores, rising.
pub(crate) fn gather(
    alloc: Global,
    ties: &LabelBook,
    labels: &LabelBook,
    cores: &[Number],
) -> Result<InGroups, AllocError>
    requires once { EachOnce cores.now }
    requires tied { (n : ℕ) → IsMember cores.now n → IsSome (map.get ties.now n) }
    ensures { IfOk result (AreClasses labels.now ties.now cores.now) }
{
    let heads = heads_of(alloc, ties, cores)?;
    let mut groups = InGroups::new(alloc);
    for i in 0..heads.len() {
        groups.push(class_of(alloc, ties, labels, heads[i])?)?;
    }
    Ok(groups)
}

// The numbers by rising order.
fn rising(alloc: Global, cores: &[Number]) -> Result<Vec<Number>, AllocError>
    requires { EachOnce cores.now }
    ensures same { IfOk result (λ r. HaveSame cores.now r.items) }
    ensures order { IfOk result (λ r. IsRising r.items) }
{
    let mut order = Vec::from_slice(alloc, cores)?;
    order.sort_unstable();
    Ok(order)
}

// The least core of each class, rising.
fn heads_of(alloc: Global, ties: &LabelBook, cores: &[Number]) -> Result<Vec<Number>, AllocError>
    requires once { EachOnce cores.now }
    requires tied { (n : ℕ) → IsMember cores.now n → IsSome (map.get ties.now n) }
    ensures { IfOk result (λ heads. AreHeads ties.now cores.now heads.items) }
{
    let order = rising(alloc, cores)?;
    let mut begun = NumberMap::<Number>::new(alloc);
    let mut heads = Vec::new(alloc);
    for i in 0..order.len() {
        begin(ties, order[i], &mut begun, &mut heads)?;
    }
    Ok(heads)
}

// Puts a core behind the heads, where its class has none.
fn begin(
    ties: &LabelBook,
    core: Number,
    begun: &mut NumberMap<Number>,
    heads: &mut Vec<Number>,
) -> Result<(), AllocError>
    ensures { OnOk result (IsBegun ties.now core begun.old heads.old.items
        begun.new heads.new.items) }
{
    match ties.label_of(core) {
        Some(label) => {
            if begun.get(label).is_none() {
                begun.insert(label, core)?;
                heads.push(core)?;
            }
            Ok(())
        }
        None => Ok(()),
    }
}

// The class of a core: its new cores and its old labels apart.
fn class_of(
    alloc: Global,
    ties: &LabelBook,
    labels: &LabelBook,
    core: Number,
) -> Result<InGroup, AllocError>
    requires { IsSome (map.get ties.now core) }
    ensures { IfOk result (λ group. IsClassOf labels.now ties.now core group) }
{
    match ties.label_of(core) {
        Some(label) => match ties.members(label) {
            Some(members) => parted(alloc, labels, members.as_slice()),
            None => Err(AllocError),
        },
        None => Err(AllocError),
    }
}

// Those of the numbers that have no label, and those that have one.
fn parted(alloc: Global, labels: &LabelBook, members: &[Number]) -> Result<InGroup, AllocError>
    ensures new { IfOk result (λ g. g.new_cores
        ≡ filter (λ q. is_none (map.get labels.now q)) members.now) }
    ensures old { IfOk result (λ g. g.old_labels
        ≡ filter (λ q. is_some (map.get labels.now q)) members.now) }
{
    let mut new_cores = Numbers::new(alloc);
    let mut old_labels = Numbers::new(alloc);
    for i in 0..members.len() {
        if labels.label_of(members[i]).is_some() {
            old_labels.push(members[i])?;
        } else {
            new_cores.push(members[i])?;
        }
    }
    Ok(InGroup {
        new_cores,
        old_labels,
    })
}
