//! Groups that are grown from seeds, in tables.

ghost use Rattle.std.specs.Prelude.{◌≡◌, ◌<◌, IsTrue};
ghost use Rattle.label_book.specs.Labels.{IsMember};
ghost use Rattle.update_seed.specs.Books.{Fits};
ghost use Rattle.split_expand.specs.Remaining.{remaining};
ghost use Rattle.split_expand.specs.Split.{AreAmong};

use crate::tests::house::{House, Setting, add, empty_house};
use count_book::CountBook;
use int_metric::{Hamming, L1};
use label_book::LabelBook;
use mtree_index::MTree;
use plain_dbscan::RangeIndex;
use split_expand::expand;
use std::alloc::{AllocError, Global};
use std::marker::Brand;
use std::sync::ledger::{Blank, Ledger};
use std::test::Fail;
use vec_record::{Groups, Metric, Number, Numbers, Steps};

/// Records of two coordinates, what is left of a cluster of them, its seeds, and the groups, each
/// rising.
struct Row {
    setting: Setting,
    records: &'static [(Number, [u8; 2])],
    former: &'static [Number],
    seeds: &'static [Number],
    groups: &'static [&'static [Number]],
}

const ROWS: [Row; 6] = [
    // Two classes: the second is not grown.
    Row {
        setting: Setting { eps: 1, minpts: 2 },
        records: &[(1, [0, 0]), (2, [1, 0]), (4, [3, 0]), (5, [4, 0])],
        former: &[1, 2, 4, 5],
        seeds: &[2, 4],
        groups: &[&[1, 2]],
    },
    // One seed: nothing is asked.
    Row {
        setting: Setting { eps: 1, minpts: 1 },
        records: &[(1, [0, 0])],
        former: &[1],
        seeds: &[1],
        groups: &[],
    },
    // Ten in a row: the first query finds the other seed.
    Row {
        setting: Setting { eps: 1, minpts: 2 },
        records: &[
            (1, [0, 0]),
            (2, [1, 0]),
            (3, [2, 0]),
            (4, [3, 0]),
            (5, [4, 0]),
            (6, [5, 0]),
            (7, [6, 0]),
            (8, [7, 0]),
            (9, [8, 0]),
            (10, [9, 0]),
        ],
        former: &[1, 2, 3, 4, 5, 6, 7, 8, 9, 10],
        seeds: &[5, 6],
        groups: &[],
    },
    // Three classes, the seeds in no order and one of them twice.
    Row {
        setting: Setting { eps: 1, minpts: 1 },
        records: &[
            (6, [0, 0]),
            (3, [1, 0]),
            (4, [9, 0]),
            (8, [20, 0]),
            (9, [21, 0]),
        ],
        former: &[9, 8, 6, 4, 3],
        seeds: &[8, 4, 8, 6],
        groups: &[&[4], &[3, 6]],
    },
    // No seed, no group.
    Row {
        setting: Setting { eps: 1, minpts: 1 },
        records: &[(1, [0, 0])],
        former: &[],
        seeds: &[],
        groups: &[],
    },
    // A ring without one of its eight is one class still.
    Row {
        setting: Setting { eps: 2, minpts: 2 },
        records: &[
            (1, [0, 0]),
            (2, [2, 0]),
            (3, [4, 0]),
            (4, [4, 2]),
            (6, [2, 4]),
            (7, [0, 4]),
            (8, [0, 2]),
        ],
        former: &[1, 2, 3, 4, 6, 7, 8],
        seeds: &[4, 6],
        groups: &[],
    },
];

/// Five arms of sixteen bits without the centre that joined them: the fifth is not grown.
const ARMS: Row = Row {
    setting: Setting { eps: 3, minpts: 2 },
    records: &[
        (10, [224, 0]),
        (20, [224, 1]),
        (11, [28, 0]),
        (21, [28, 1]),
        (12, [3, 128]),
        (22, [3, 129]),
        (13, [0, 112]),
        (23, [0, 113]),
        (14, [0, 14]),
        (24, [0, 15]),
    ],
    former: &[10, 11, 12, 13, 14, 20, 21, 22, 23, 24],
    seeds: &[10, 11, 12, 13, 14],
    groups: &[&[10, 20], &[11, 21], &[12, 22], &[13, 23]],
};

/// Books in which these numbers, each once, are one cluster: all their vectors are equal.
fn as_one<L: Ledger>(
    alloc: Global,
    former: &[Number],
    steps: &mut Steps<L>,
) -> Result<House<MTree<L1>>, AllocError> {
    let mut house = empty_house::<L1>(alloc, 2, 1);
    for i in 0..former.len() {
        let _ = add::<L1, _, L>(alloc, &mut house, 0, former[i], &[0, 0], steps)?;
    }
    Ok(house)
}

/// Whether the number is left of the cluster.
fn is_among(counts: &CountBook, labels: &LabelBook, label: Number, number: Number) -> bool
    ensures { IsTrue result → IsMember (remaining counts.now labels.now label) number }
{
    counts.is_core(number) && labels.label_of(number) == Some(label)
}

/// Whether all these numbers are.
fn are_among(counts: &CountBook, labels: &LabelBook, label: Number, seeds: &[Number]) -> bool
    ensures { IsTrue result → AreAmong (remaining counts.now labels.now label) seeds.now }
{
    for i in 0..seeds.len() {
        if !is_among(counts, labels, label, seeds[i]) {
            return false;
        }
    }
    true
}

/// The groups that are grown from the seeds in what is left of a cluster of these numbers, or none
/// where these cannot be grown.
pub fn grown<M: Metric, I: RangeIndex<M>, L: Ledger>(
    alloc: Global,
    house: &House<I>,
    eps: u32,
    former: &[Number],
    seeds: &[Number],
    steps: &mut Steps<L>,
) -> Result<Option<Groups>, AllocError>
    requires { Fits (I.width house.now.index) (I.contents house.now.index) house.now.records
        house.now.counts house.now.labels }
{
    let label = former.iter().copied().min().unwrap_or(0);
    let before = as_one::<L>(alloc, former, steps)?;
    if !are_among(&house.counts, &before.labels, label, seeds) {
        return Ok(None);
    }
    let groups = expand::<M, I, L>(
        alloc,
        &house.records,
        &house.index,
        &house.counts,
        &before.labels,
        eps,
        label,
        &Numbers::from_vec(Vec::from_slice(alloc, seeds)?),
        steps,
    )?;
    Ok(Some(groups))
}

/// Whether the group has these cores, given rising.
pub fn is_group(alloc: Global, group: &Numbers, due: &[Number]) -> Result<bool, AllocError> {
    let mut cores = Vec::from_slice(alloc, group.as_slice())?;
    cores.sort_unstable();
    Ok(cores.as_slice() == due)
}

/// Whether these are the groups, in this order.
fn are_groups(alloc: Global, groups: &[Numbers], due: &[&[Number]]) -> Result<bool, AllocError> {
    if groups.len() != due.len() {
        return Ok(false);
    }
    for i in 0..groups.len() {
        if !is_group(alloc, &groups[i], due[i])? {
            return Ok(false);
        }
    }
    Ok(true)
}

/// Whether the groups of a row are grown.
fn grows<M: Metric, L: Ledger>(
    rt: &HostRuntime,
    blank: Blank,
    row: &Row,
) -> Result<bool, AllocError>
    requires name { blank.name ≡ L.name }
    requires parts { blank.parts ≡ L.parts }
    requires some { 0 < blank.parts }
{
    let alloc = rt.alloc();
    let eps = row.setting.eps;
    let mut steps = Steps::<L>::new(rt, blank);
    let mut house = empty_house::<M>(alloc, 2, row.setting.minpts);
    for record in row.records {
        if !add::<M, _, L>(alloc, &mut house, eps, record.0, &record.1, &mut steps)? {
            return Ok(false);
        }
    }
    match grown::<M, _, L>(alloc, &house, eps, row.former, row.seeds, &mut steps)? {
        Some(groups) => are_groups(alloc, groups.as_slice(), row.groups),
        None => Ok(false),
    }
}

/// Whether a chain of 60 cores without the middle one has its first half alone as a group.
fn halves<L: Ledger>(rt: &HostRuntime, blank: Blank) -> Result<bool, AllocError>
    requires name { blank.name ≡ L.name }
    requires parts { blank.parts ≡ L.parts }
    requires some { 0 < blank.parts }
{
    let alloc = rt.alloc();
    let mut steps = Steps::<L>::new(rt, blank);
    let mut house = empty_house::<L1>(alloc, 2, 2);
    let mut former = Vec::new(alloc);
    for k in 1..60u32 {
        let number = if k < 31 { k } else { k + 1 };
        let point = [number as u8, 0];
        if !add::<L1, _, L>(alloc, &mut house, 1, number, &point, &mut steps)? {
            return Ok(false);
        }
        former.push(number)?;
    }
    match grown::<L1, _, L>(alloc, &house, 1, &former, &[30, 32], &mut steps)? {
        Some(groups) => {
            let half = former.len().min(30);
            are_groups(alloc, groups.as_slice(), &[&former[..half]])
        }
        None => Ok(false),
    }
}

#[test]
fn groups(rt: HostRuntime) -> Result<(), Fail> {
    for row in &ROWS {
        assert!(rt; grows::<L1, Brand>(&rt, Blank::new(1), row)?);
    }
    Ok(())
}

#[test]
fn arms(rt: HostRuntime) -> Result<(), Fail> {
    assert!(rt; grows::<Hamming, Brand>(&rt, Blank::new(1), &ARMS)?);
    Ok(())
}

#[test]
fn chain(rt: HostRuntime) -> Result<(), Fail> {
    assert!(rt; halves::<Brand>(&rt, Blank::new(1))?);
    Ok(())
}
