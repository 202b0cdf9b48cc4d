//! Scrambled clusters, grown from drawn seeds, beside the classes that plain clustering gives.

ghost use Rattle.std.specs.Prelude.{◌≡◌, ◌<◌};
ghost use Rattle.update_seed.specs.Books.{Fits};

use crate::tests::draws::Draws;
use crate::tests::groups::{grown, is_group};
use crate::tests::house::{House, Setting, add, empty_house};
use int_metric::L1;
use plain_dbscan::{Mark, RangeIndex, cluster_plain};
use std::alloc::{AllocError, Global};
use std::marker::Brand;
use std::sync::ledger::{Blank, Ledger};
use std::test::Fail;
use vec_record::{Metric, Number, Numbers, Steps};

/// Drawn seeds, the labels of their clusters in the order of their least seeds, and all cores with
/// one of these labels.
#[derive(Drop)]
struct Drawn {
    seeds: Vec<Number>,
    labels: Vec<Number>,
    former: Vec<Number>,
}

/// Draws every fourth core as a seed.
fn draw_seeds(
    alloc: Global,
    marks: &[(Number, Mark)],
    draws: &mut Draws,
) -> Result<Drawn, AllocError> {
    let mut seeds = Vec::new(alloc);
    let mut labels = Vec::new(alloc);
    for &(number, mark) in marks {
        if let Mark::Core(label) = mark
            && draws.below(4) == 0
        {
            seeds.push(number)?;
            if !labels.contains(&label) {
                labels.push(label)?;
            }
        }
    }
    let former = cores_of(alloc, marks, &labels)?;
    Ok(Drawn {
        seeds,
        labels,
        former,
    })
}

/// The cores with one of these labels, rising.
fn cores_of(
    alloc: Global,
    marks: &[(Number, Mark)],
    labels: &[Number],
) -> Result<Vec<Number>, AllocError> {
    let mut cores = Vec::new(alloc);
    for &(number, mark) in marks {
        if let Mark::Core(label) = mark
            && labels.contains(&label)
        {
            cores.push(number)?;
        }
    }
    Ok(cores)
}

/// Whether the groups are the clusters of all these labels but the last, in this order.
fn are_classes(
    alloc: Global,
    groups: &[Numbers],
    marks: &[(Number, Mark)],
    labels: &[Number],
) -> Result<bool, AllocError> {
    if groups.len() != labels.len().saturating_sub(1) {
        return Ok(false);
    }
    for i in 0..groups.len() {
        if !is_group(
            alloc,
            &groups[i],
            &cores_of(alloc, marks, &labels[i..i + 1])?,
        )? {
            return Ok(false);
        }
    }
    Ok(true)
}

/// Whether what is grown from drawn seeds are classes as plain clustering gives them.
fn grows_classes<M: Metric, I: RangeIndex<M>, L: Ledger>(
    alloc: Global,
    house: &House<I>,
    setting: Setting,
    draws: &mut Draws,
    steps: &mut Steps<L>,
) -> Result<bool, AllocError>
    requires { Fits (I.width house.now.index) (I.contents house.now.index) house.now.records
        house.now.counts house.now.labels }
{
    let marks = cluster_plain::<M, L>(alloc, &house.records, setting.eps, setting.minpts, steps)?;
    let marks = marks.as_slice();
    let drawn = draw_seeds(alloc, marks, draws)?;
    match grown::<M, I, L>(
        alloc,
        house,
        setting.eps,
        &drawn.former,
        &drawn.seeds,
        steps,
    )? {
        Some(groups) => are_classes(alloc, groups.as_slice(), marks, &drawn.labels),
        None => Ok(false),
    }
}

/// Whether that is so of one case: 60 records at drawn points.
fn scrambles<L: Ledger>(
    rt: &HostRuntime,
    blank: Blank,
    setting: Setting,
    draws: &mut Draws,
) -> Result<bool, AllocError>
    requires name { blank.name ≡ L.name }
    requires parts { blank.parts ≡ L.parts }
    requires some { 0 < blank.parts }
{
    let alloc = rt.alloc();
    let mut steps = Steps::<L>::new(rt, blank);
    let mut house = empty_house::<L1>(alloc, 2, setting.minpts);
    for k in 0..60u32 {
        let number = 1 + k * 37 % 60;
        let point = [draws.below(16) as u8, draws.below(16) as u8];
        if !add::<L1, _, L>(alloc, &mut house, setting.eps, number, &point, &mut steps)? {
            return Ok(false);
        }
    }
    grows_classes::<L1, _, L>(alloc, &house, setting, draws, &mut steps)
}

#[test]
fn classes(rt: HostRuntime) -> Result<(), Fail> {
    let setting = Setting { eps: 2, minpts: 3 };
    let mut draws = Draws { last: 1 };
    for _ in 0..100u32 {
        assert!(rt; scrambles::<Brand>(&rt, Blank::new(1), setting, &mut draws)?);
    }
    Ok(())
}
