//! Tests of single distances, against the plain definitions.

ghost use Rattle.std.specs.Prelude.{◌≡◌, ◌<◌, length, IfOk};
ghost use Rattle.vec_record.specs.Vectors.{IsWidth};

use crate::{Hamming, L1, Max};
use std::alloc::{AllocError, Global};
use std::marker::Brand;
use std::sync::ledger::{Blank, Ledger};
use std::test::Fail;
use vec_record::{Metric, Steps, Vector};

// The distance at a metric, and the greatest one at the width.
fn measured<M: Metric, L: Ledger>(
    rt: &HostRuntime,
    a: &Vector,
    b: &Vector,
    width: u32,
    blank: Blank,
) -> [u32; 2]
    requires name { blank.name ≡ L.name }
    requires parts { blank.parts ≡ L.parts }
    requires some { 0 < blank.parts }
    requires a { length a.now ≡ width }
    requires b { length b.now ≡ width }
    requires width { IsWidth width }
{
    let mut steps = Steps::<L>::new(rt, blank);
    [M::distance(a, b, &mut steps), M::greatest(width)]
}

// Bytes from `start` on, each by `step` above the one before and past 255 from 0 on again. The bits
// of `flip` are turned in the last of them.
pub(crate) fn rising(alloc: Global, width: u32, shape: [u8; 3]) -> Result<Vector, AllocError>
    ensures { IfOk result (λ v. length v ≡ width) }
{
    let [start, step, flip] = shape;
    let mut bytes = Vec::new(alloc);
    let mut byte = start;
    for i in 0..width {
        bytes.push(if i + 1 == width { byte ^ flip } else { byte })?;
        byte = byte.wrapping_add(step);
    }
    Vector::from_slice(alloc, &bytes)
}

#[test]
fn distances_by_hand(rt: HostRuntime) -> Result<(), Fail> {
    // width, first vector, second vector, and the three distances
    let rows = [
        (1, [7, 0, 0], [7, 0, 0], [0, 0, 0]),
        (1, [0, 0, 0], [255, 0, 0], [255, 255, 8]),
        (2, [0, 1, 0], [3, 0, 0], [5, 3, 3]),
        (2, [255, 0, 0b0111_1111], [0, 0, 0], [383, 255, 9]),
        (8, [0, 1, 0], [0, 0, 0], [28, 7, 12]),
        (8, [0, 0, 0b1010_0000], [0, 0, 0b0110_0000], [64, 64, 2]),
        (31, [0, 0, 0], [255, 0, 0], [7905, 255, 248]),
        (31, [16, 0, 0], [16, 0, 4], [4, 4, 1]),
        (32, [0, 1, 0], [0, 0, 0], [496, 31, 80]),
        (32, [100, 0, 128], [100, 0, 0], [128, 128, 1]),
        (33, [0, 1, 0], [0, 0, 0], [528, 32, 81]),
        (33, [5, 7, 0], [5, 7, 0], [0, 0, 0]),
        (256, [0, 1, 0], [255, 255, 0], [32768, 255, 2048]),
        (256, [0, 1, 0], [0, 0, 0], [32640, 255, 1024]),
        (512, [0, 0, 0], [255, 0, 0], [130560, 255, 4096]),
        (512, [0, 1, 0], [0, 1, 1], [1, 1, 1]),
    ];
    for (width, first, second, distances) in rows {
        assert!(rt; 1 <= width && width <= 512);
        let a = rising(rt.alloc(), width, first)?;
        let b = rising(rt.alloc(), width, second)?;
        let sum = measured::<L1, Brand>(&rt, &a, &b, width, Blank::new(1));
        let most = measured::<Max, Brand>(&rt, &a, &b, width, Blank::new(1));
        let bits = measured::<Hamming, Brand>(&rt, &a, &b, width, Blank::new(1));
        assert_eq!(rt; [sum[0], most[0], bits[0]], distances);
        assert_eq!(rt; [sum[1], most[1], bits[1]], [255 * width, 255, 8 * width]);
    }
    Ok(())
}
