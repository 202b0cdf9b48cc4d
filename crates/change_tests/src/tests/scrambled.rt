//! Scrambled changes, with marks and events compared after each.

ghost use Rattle.std.specs.Prelude.{◌≡◌, ◌<◌, ◌≤◌, OnOk};
ghost use Rattle.std.specs.Ordering.{nat_cmp};
ghost use Rattle.std.specs.FinMap.Entries.{is_sorted};
ghost use lib.Dec.{T};
ghost use Rattle.update_seed.specs.Books.{Fits};

use crate::tests::draws::Draws;
use crate::tests::house::{
    House, Plain, Setting, add, empty_house, is_plain, nothing_plain, take_out,
};
use int_metric::{Hamming, L1, Max};
use plain_dbscan::RangeIndex;
use std::alloc::{AllocError, Global};
use std::marker::Brand;
use std::sync::ledger::{Blank, Ledger};
use std::test::Fail;
use vec_record::{Metric, Number, Steps};

/// Takes the record of a number out, or adds one at the point, where there is none. Whether plain
/// clustering says the same then.
fn turn<M: Metric, I: RangeIndex<M>, L: Ledger>(
    alloc: Global,
    house: &mut House<I>,
    plain: &mut Plain,
    setting: Setting,
    record: (Number, [u8; 2]),
    steps: &mut Steps<L>,
) -> Result<bool, AllocError>
    requires fits { Fits (I.width house.old.index) (I.contents house.old.index) house.old.records
        house.old.counts house.old.labels }
    requires rising { T (is_sorted nat_cmp plain.old.marks) }
    ensures fits { OnOk result (Fits (I.width house.new.index) (I.contents house.new.index)
        house.new.records house.new.counts house.new.labels) }
    ensures rising { OnOk result (T (is_sorted nat_cmp plain.new.marks)) }
{
    let (number, point) = record;
    let done = take_out::<M, I, L>(alloc, house, setting.eps, number, steps)?
        || add::<M, I, L>(alloc, house, setting.eps, number, &point, steps)?;
    Ok(is_plain::<M, I, L>(alloc, house, setting, plain, steps)? && done)
}

/// Whether 300 changes, each of a number of at most 80 and two coordinates below `side`, lead to
/// what plain clustering says.
fn changes<M: Metric, L: Ledger>(
    rt: &HostRuntime,
    blank: Blank,
    setting: Setting,
    side: u32,
) -> Result<bool, AllocError>
    requires name { blank.name ≡ L.name }
    requires parts { blank.parts ≡ L.parts }
    requires some { 0 < blank.parts }
    requires side { (0 < side) × (side ≤ 256) }
{
    let alloc = rt.alloc();
    let mut steps = Steps::<L>::new(rt, blank);
    let mut house = empty_house::<M>(alloc, 2, setting.minpts);
    let mut plain = nothing_plain(alloc);
    let mut draws = Draws { last: side };
    for k in 0..300u32 {
        let number = 1 + (k + draws.below(80)) % 80;
        let point = [draws.below(side) as u8, draws.below(side) as u8];
        let record = (number, point);
        if !turn::<M, _, L>(alloc, &mut house, &mut plain, setting, record, &mut steps)? {
            return Ok(false);
        }
    }
    Ok(true)
}

/// Whether 200 records come, and go again by every `stride`th number, each change to what plain
/// clustering says. With coordinates below `side`, or along a line where `side` is 0.
fn comes_and_goes<M: Metric, L: Ledger>(
    rt: &HostRuntime,
    blank: Blank,
    setting: Setting,
    side: u32,
    stride: u32,
) -> Result<bool, AllocError>
    requires name { blank.name ≡ L.name }
    requires parts { blank.parts ≡ L.parts }
    requires some { 0 < blank.parts }
    requires side { side ≤ 256 }
    requires stride { stride ≤ 1000 }
{
    let alloc = rt.alloc();
    let mut steps = Steps::<L>::new(rt, blank);
    let mut house = empty_house::<M>(alloc, 2, setting.minpts);
    let mut plain = nothing_plain(alloc);
    let mut draws = Draws { last: stride };
    for k in 0..400u32 {
        // First all numbers by every 67th, then by the stride.
        let stride = if k < 200 { 67 } else { stride };
        let number = 1 + k * stride % 200;
        let point = if side == 0 {
            [number as u8, 0]
        } else {
            [draws.below(side) as u8, draws.below(side) as u8]
        };
        let record = (number, point);
        if !turn::<M, _, L>(alloc, &mut house, &mut plain, setting, record, &mut steps)? {
            return Ok(false);
        }
    }
    Ok(house.records.len() == 0)
}

#[test]
fn sums(rt: HostRuntime) -> Result<(), Fail> {
    let setting = Setting { eps: 4, minpts: 4 };
    assert!(rt; changes::<L1, Brand>(&rt, Blank::new(1), setting, 30)?);
    Ok(())
}

#[test]
fn greatest(rt: HostRuntime) -> Result<(), Fail> {
    let setting = Setting { eps: 3, minpts: 5 };
    assert!(rt; changes::<Max, Brand>(&rt, Blank::new(1), setting, 24)?);
    Ok(())
}

#[test]
fn bits(rt: HostRuntime) -> Result<(), Fail> {
    let setting = Setting { eps: 1, minpts: 3 };
    assert!(rt; changes::<Hamming, Brand>(&rt, Blank::new(1), setting, 16)?);
    Ok(())
}

#[test]
fn equal(rt: HostRuntime) -> Result<(), Fail> {
    let setting = Setting { eps: 0, minpts: 1 };
    assert!(rt; changes::<L1, Brand>(&rt, Blank::new(1), setting, 4)?);
    Ok(())
}

#[test]
fn rising(rt: HostRuntime) -> Result<(), Fail> {
    let setting = Setting { eps: 5, minpts: 4 };
    assert!(rt; comes_and_goes::<L1, Brand>(&rt, Blank::new(1), setting, 40, 1)?);
    Ok(())
}

#[test]
fn falling(rt: HostRuntime) -> Result<(), Fail> {
    let setting = Setting { eps: 1, minpts: 3 };
    assert!(rt; comes_and_goes::<L1, Brand>(&rt, Blank::new(1), setting, 0, 199)?);
    Ok(())
}

#[test]
fn striding(rt: HostRuntime) -> Result<(), Fail> {
    let setting = Setting { eps: 1, minpts: 2 };
    assert!(rt; comes_and_goes::<L1, Brand>(&rt, Blank::new(1), setting, 0, 49)?);
    Ok(())
}
