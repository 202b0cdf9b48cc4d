//! Tests of the questions about many rows, against plain loops.

ghost use Rattle.std.specs.Prelude.{◌≡◌, ◌<◌, length};

use crate::tests::rising;
use crate::{Hamming, L1, Max};
use std::marker::Brand;
use std::sync::ledger::{Blank, Ledger};
use std::test::Fail;
use vec_record::{Block, Metric, MetricKind, Steps};

// One step of the plain distance: so far, and the next byte of both.
fn plain_step(kind: MetricKind, so_far: u32, x: u8, y: u8) -> u32 {
    match kind {
        MetricKind::L1 => so_far.wrapping_add(u32::from(x.max(y) - x.min(y))),
        MetricKind::Max => so_far.max(u32::from(x.max(y) - x.min(y))),
        MetricKind::Hamming => {
            let mut total = so_far;
            for bit in [1u8, 2, 4, 8, 16, 32, 64, 128] {
                if x & bit != y & bit {
                    total = total.wrapping_add(1);
                }
            }
            total
        }
    }
}

// The distance, by a loop over the bytes.
fn plain(kind: MetricKind, a: &[u8], b: &[u8]) -> u32 {
    let mut so_far = 0;
    for (x, y) in a.iter().zip(b) {
        so_far = plain_step(kind, so_far, *x, *y);
    }
    so_far
}

// Whether `within` and `within_range` give exactly the places whose distance is at most the radius.
fn finds<M: Metric, L: Ledger>(
    centre: &[u8],
    block: &Block,
    far: &[u32],
    radius: u32,
    steps: &mut Steps<L>,
) -> bool
    requires width { length centre.now ≡ block.now.width }
    requires rows { length block.now.rows ≡ 4 }
{
    let mut near = [9; 4];
    let mut rows = [9; 4];
    let few = M::within(centre, block, &[3, 1, 0, 2], radius, &mut near, steps);
    let many = M::within_range(centre, block, 0..4, radius, &mut rows, steps);
    let wanted = far.iter().filter(|distance| **distance <= radius).count();
    let mut right = few == wanted && many == wanted;
    for place in &near[..few] {
        right &= matches!(far.get(usize::from(*place)), Some(distance) if *distance <= radius);
    }
    for place in &rows[..many] {
        right &= matches!(far.get(*place), Some(distance) if *distance <= radius);
    }
    right
}

// Whether the metric agrees with the plain distances of the four rows, at each of them as the
// radius and one below it.
fn agrees<M: Metric, L: Ledger>(
    rt: &HostRuntime,
    centre: &[u8],
    block: &Block,
    blank: Blank,
) -> bool
    requires name { blank.name ≡ L.name }
    requires parts { blank.parts ≡ L.parts }
    requires some { 0 < blank.parts }
    requires width { length centre.now ≡ block.now.width }
    requires rows { length block.now.rows ≡ 4 }
{
    let mut steps = Steps::<L>::new(rt, blank);
    let mut far = [0; 4];
    M::distances(centre, block, &[0, 1, 2, 3], &mut far, &mut steps);
    let mut right = true;
    for place in 0..4 {
        let distance = plain(M::KIND, centre, block.row(place));
        right &= far[place] == distance;
        right &= finds::<M, L>(centre, block, &far, distance, &mut steps);
        right &= finds::<M, L>(centre, block, &far, distance.saturating_sub(1), &mut steps);
    }
    right
}

#[test]
fn rows_of_each_width(rt: HostRuntime) -> Result<(), Fail> {
    // The first shape gives the vector of zeros, and the second the one that is the furthest from
    // it.
    let shapes = [[0, 0, 0], [255, 0, 0], [90, 3, 0], [17, 91, 5]];
    for width in [
        1, 2, 3, 7, 8, 9, 15, 16, 17, 31, 32, 33, 64, 100, 128, 255, 256, 512,
    ] {
        assert!(rt; 1 <= width && width <= 512);
        let mut block = Block::new(rt.alloc(), width);
        for shape in shapes {
            let row = rising(rt.alloc(), width, shape)?;
            assert!(rt; row.as_slice().len() == block.width() as usize);
            block.push(row.as_slice())?;
        }
        for shape in shapes {
            let centre = rising(rt.alloc(), width, shape)?;
            assert!(rt; block.len() == 4 && centre.as_slice().len() == block.width() as usize);
            let centre = centre.as_slice();
            assert!(rt;
                agrees::<L1, Brand>(&rt, centre, &block, Blank::new(1)),
                "l1 at {width}"
            );
            assert!(rt;
                agrees::<Max, Brand>(&rt, centre, &block, Blank::new(1)),
                "max at {width}"
            );
            assert!(rt;
                agrees::<Hamming, Brand>(&rt, centre, &block, Blank::new(1)),
                "bits at {width}"
            );
        }
    }
    Ok(())
}
