//! The sum of the differences between two vectors' coordinates.

ghost use Rattle.std.specs.Prelude.{◌≡◌, ◌+◌, ◌*◌, ◌<◌, ◌≤◌, nat_le, length, refl};
ghost use Rattle.vec_record.specs.Distance.{sum_apart};
ghost use Rattle.vec_record.specs.declared.kind.MetricKind.TheVariants.{L1 as sum_kind};
ghost use Rattle.int_metric.specs.SumLaws.{sum_identity, sum_symmetry, sum_triangle, sum_bound};

use crate::kernel::{self, Kernel};
use std::ops::Range;
use std::sync::ledger::Ledger;
use vec_record::{Block, Metric, MetricKind, Steps, Vector};

/// The sum of the absolute differences of the bytes (Manhattan distance), at most 255 times the
/// width.
pub struct L1;

impl Metric for L1 {
    const KIND: MetricKind = MetricKind::L1;

    ghost KIND = { sum_kind };

    ghost dist = { sum_apart };

    ghost most = { λ w. 255 * w };

    ghost identity = { sum_identity };

    ghost symmetry = { sum_symmetry };

    ghost triangle = { sum_triangle };

    ghost bound = { sum_bound };

    ghost defined = { λ w u v f a b. (refl, refl) };

    #[inline]
    fn greatest(width: u32) -> u32 {
        255 * width
    }

    #[inline]
    fn distance<L: Ledger>(a: &Vector, b: &Vector, steps: &mut Steps<L>) -> u32 {
        steps.tick();
        sum_of_differences(a.as_slice(), b.as_slice())
    }

    #[inline]
    fn within<L: Ledger>(
        centre: &[u8],
        block: &Block,
        places: &[u8],
        radius: u32,
        near: &mut [u8],
        steps: &mut Steps<L>,
    ) -> usize {
        steps.tick_many(places.len());
        kernel::within::<L1>(centre, block, places, radius, near)
    }

    #[inline]
    fn within_range<L: Ledger>(
        centre: &[u8],
        block: &Block,
        rows: Range<usize>,
        radius: u32,
        near: &mut [usize],
        steps: &mut Steps<L>,
    ) -> usize {
        steps.tick_many(rows.end - rows.start);
        kernel::within_range::<L1>(centre, block, rows, radius, near)
    }

    #[inline]
    fn distances<L: Ledger>(
        centre: &[u8],
        block: &Block,
        places: &[u8],
        far: &mut [u32],
        steps: &mut Steps<L>,
    ) {
        steps.tick_many(places.len());
        kernel::distances::<L1>(centre, block, places, far)
    }
}

impl Kernel for L1 {
    ghost dist = { sum_apart };

    #[inline(always)]
    fn between(a: &[u8], b: &[u8]) -> u32 {
        sum_of_differences(a, b)
    }

    #[inline(always)]
    fn between_few(a: &[u8], b: &[u8]) -> u32 {
        sum_of_bytes(a, b)
    }

    #[inline(always)]
    fn is_near(a: &[u8], b: &[u8], radius: u32) -> bool {
        is_sum_within(a, b, radius)
    }
}

#[inline(always)]
fn sum_of_differences(a: &[u8], b: &[u8]) -> u32
    requires same { length a.now ≡ length b.now }
    requires small { length a.now ≤ 512 }
    ensures { result ≡ sum_apart a.now b.now }
{
    // The same bytes, now with the length of `a`, so that the compiler tests one length in place
    // of two.
    let b = &b[..a.len()];
    let (blocks, a, b) = sum_of_blocks::<32>(a, b);
    blocks + sum_of_part(a, b)
}

// Leaves off after the block of 32 bytes that takes the sum past the radius.
#[inline(always)]
fn is_sum_within<'a, 'b>(mut a: &'a [u8], mut b: &'b [u8], radius: u32) -> bool
    requires same { length a.now ≡ length b.now }
    requires small { length a.now ≤ 512 }
    ensures { result ≡ nat_le (sum_apart a.now b.now) radius }
{
    let mut total = 0;
    while let (Some((x, after_x)), Some((y, after_y))) = (
        a.split_first_chunk::<32>(),
        b.split_first_chunk::<32>(),
    ) {
        total += sum_of_bytes(x, y);
        if total > radius {
            return false;
        }
        a = after_x;
        b = after_y;
    }
    total + sum_of_part(a, b) <= radius
}

// The sum over the fewer than 32 bytes that are left.
#[inline(always)]
fn sum_of_part(a: &[u8], b: &[u8]) -> u32
    requires same { length a.now ≡ length b.now }
    requires small { length a.now ≤ 512 }
    ensures is { result ≡ sum_apart a.now b.now }
    ensures small { result ≤ 255 * length a.now }
{
    let (half, a, b) = sum_of_one_block::<16>(a, b);
    let (quarter, a, b) = sum_of_one_block::<8>(a, b);
    let rest = if a.is_empty() { 0 } else { sum_of_rest(a, b) };
    half + quarter + rest
}

// The sum over the fewer than 8 bytes that are left. Not inlined, so that a width that leaves none
// need not save the registers of this loop.
#[inline(never)]
fn sum_of_rest(a: &[u8], b: &[u8]) -> u32
    requires same { length a.now ≡ length b.now }
    requires small { length a.now ≤ 512 }
    ensures is { result ≡ sum_apart a.now b.now }
    ensures small { result ≤ 255 * length a.now }
{
    sum_of_bytes(a, b)
}

// The sum over the whole blocks of N bytes, and what is left of both. The compiler has a few vector
// instructions for a block whose length it knows, and a slow loop for any other.
#[inline(always)]
fn sum_of_blocks<'a, 'b, const N: usize>(
    mut a: &'a [u8],
    mut b: &'b [u8],
) -> (u32, &'a [u8], &'b [u8])
    requires some { 0 < N }
    requires few { N ≤ 512 }
    requires same { length a.now ≡ length b.now }
    requires small { length a.now ≤ 512 }
    ensures all { result.0 + sum_apart result.1.now result.2.now ≡ sum_apart a.now b.now }
    ensures same { length result.1.now ≡ length result.2.now }
    ensures small { result.0 + 255 * length result.1.now ≤ 255 * length a.now }
{
    let mut total = 0;
    while let (Some((x, after_x)), Some((y, after_y))) = (
        a.split_first_chunk::<N>(),
        b.split_first_chunk::<N>(),
    ) {
        total += sum_of_bytes(x, y);
        a = after_x;
        b = after_y;
    }
    (total, a, b)
}

// The same of the first block alone, or 0 where there is none. Without a loop the compiler knows
// that there is at most one.
#[inline(always)]
fn sum_of_one_block<'a, 'b, const N: usize>(a: &'a [u8], b: &'b [u8]) -> (u32, &'a [u8], &'b [u8])
    requires few { N ≤ 512 }
    requires same { length a.now ≡ length b.now }
    requires small { length a.now ≤ 512 }
    ensures all { result.0 + sum_apart result.1.now result.2.now ≡ sum_apart a.now b.now }
    ensures same { length result.1.now ≡ length result.2.now }
    ensures small { result.0 + 255 * length result.1.now ≤ 255 * length a.now }
{
    match (a.split_first_chunk::<N>(), b.split_first_chunk::<N>()) {
        (Some((x, after_x)), Some((y, after_y))) => (sum_of_bytes(x, y), after_x, after_y),
        _ => (0, a, b),
    }
}

#[inline(always)]
fn sum_of_bytes(a: &[u8], b: &[u8]) -> u32
    requires same { length a.now ≡ length b.now }
    requires small { length a.now ≤ 512 }
    ensures is { result ≡ sum_apart a.now b.now }
    ensures small { result ≤ 255 * length a.now }
{
    let mut total = 0;
    // Signed, since the compiler makes a faster loop of this than of `abs_diff`.
    for (x, y) in a.iter().zip(b) {
        total += (i32::from(*x) - i32::from(*y)).unsigned_abs();
    }
    total
}
