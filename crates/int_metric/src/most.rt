//! The greatest difference between two vectors' coordinates.

ghost use Rattle.std.specs.Prelude.{◌≡◌, length, refl};
ghost use Rattle.vec_record.specs.Distance.{most_apart};
ghost use Rattle.vec_record.specs.declared.kind.MetricKind.TheVariants.{Max as most_kind};
ghost use Rattle.int_metric.specs.MostLaws.{most_identity, most_symmetry, most_triangle};
ghost use Rattle.int_metric.specs.MostLaws.{most_bound};

use crate::kernel::{self, Kernel};
use std::ops::Range;
use std::sync::ledger::Ledger;
use vec_record::{Block, Metric, MetricKind, Steps, Vector};

/// The greatest absolute difference of the bytes (Chebyshev distance), at most 255.
pub struct Max;

impl Metric for Max {
    const KIND: MetricKind = MetricKind::Max;

    ghost KIND = { most_kind };

    ghost dist = { most_apart };

    ghost most = { λ w. 255 };

    ghost identity = { most_identity };

    ghost symmetry = { most_symmetry };

    ghost triangle = { most_triangle };

    ghost bound = { most_bound };

    ghost defined = { λ w u v f a b. (refl, refl) };

    #[inline]
    fn greatest(_width: u32) -> u32 {
        255
    }

    #[inline]
    fn distance<L: Ledger>(a: &Vector, b: &Vector, steps: &mut Steps<L>) -> u32 {
        steps.tick();
        greatest_difference(a.as_slice(), b.as_slice())
    }

    #[inline]
    fn within<L: Ledger>(
        centre: &[u8],
        block: &Block,
        places: &[u8],
        radius: u32,
        near: &mut [u8],
        steps: &mut Steps<L>,
    ) -> usize {
        steps.tick_many(places.len());
        kernel::within::<Max>(centre, block, places, radius, near)
    }

    #[inline]
    fn within_range<L: Ledger>(
        centre: &[u8],
        block: &Block,
        rows: Range<usize>,
        radius: u32,
        near: &mut [usize],
        steps: &mut Steps<L>,
    ) -> usize {
        steps.tick_many(rows.end - rows.start);
        kernel::within_range::<Max>(centre, block, rows, radius, near)
    }

    #[inline]
    fn distances<L: Ledger>(
        centre: &[u8],
        block: &Block,
        places: &[u8],
        far: &mut [u32],
        steps: &mut Steps<L>,
    ) {
        steps.tick_many(places.len());
        kernel::distances::<Max>(centre, block, places, far)
    }
}

impl Kernel for Max {
    ghost dist = { most_apart };

    #[inline(always)]
    fn between(a: &[u8], b: &[u8]) -> u32 {
        greatest_difference(a, b)
    }

    #[inline(always)]
    fn between_few(a: &[u8], b: &[u8]) -> u32 {
        greatest_difference(a, b)
    }

    #[inline(always)]
    fn is_near(a: &[u8], b: &[u8], radius: u32) -> bool {
        greatest_difference(a, b) <= radius
    }
}

#[inline(always)]
fn greatest_difference(a: &[u8], b: &[u8]) -> u32
    requires { length a.now ≡ length b.now }
    ensures { result ≡ most_apart a.now b.now }
{
    let mut most = 0u8;
    for (x, y) in a.iter().zip(b) {
        most = most.max(x.abs_diff(*y));
    }
    u32::from(most)
}
