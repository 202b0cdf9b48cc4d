//! The number of bits in which two vectors differ.

ghost use Rattle.std.specs.Prelude.{◌≡◌, ◌*◌, ◌≤◌, length, refl};
ghost use Rattle.vec_record.specs.Distance.{all_bits_apart};
ghost use Rattle.vec_record.specs.declared.kind.MetricKind.TheVariants.{Hamming as bit_kind};
ghost use Rattle.int_metric.specs.BitLaws.{bit_identity, bit_symmetry, bit_triangle, bit_bound};

use crate::kernel::{self, Kernel};
use std::ops::Range;
use std::sync::ledger::Ledger;
use vec_record::{Block, Metric, MetricKind, Steps, Vector};

/// The number of bits that differ (Hamming distance), at most 8 times the width.
pub struct Hamming;

impl Metric for Hamming {
    const KIND: MetricKind = MetricKind::Hamming;

    ghost KIND = { bit_kind };

    ghost dist = { all_bits_apart };

    ghost most = { λ w. 8 * w };

    ghost identity = { bit_identity };

    ghost symmetry = { bit_symmetry };

    ghost triangle = { bit_triangle };

    ghost bound = { bit_bound };

    ghost defined = { λ w u v f a b. (refl, refl) };

    #[inline]
    fn greatest(width: u32) -> u32 {
        8 * width
    }

    #[inline]
    fn distance<L: Ledger>(a: &Vector, b: &Vector, steps: &mut Steps<L>) -> u32 {
        steps.tick();
        differing_bits(a.as_slice(), b.as_slice())
    }

    #[inline]
    fn within<L: Ledger>(
        centre: &[u8],
        block: &Block,
        places: &[u8],
        radius: u32,
        near: &mut [u8],
        steps: &mut Steps<L>,
    ) -> usize {
        steps.tick_many(places.len());
        kernel::within::<Hamming>(centre, block, places, radius, near)
    }

    #[inline]
    fn within_range<L: Ledger>(
        centre: &[u8],
        block: &Block,
        rows: Range<usize>,
        radius: u32,
        near: &mut [usize],
        steps: &mut Steps<L>,
    ) -> usize {
        steps.tick_many(rows.end - rows.start);
        kernel::within_range::<Hamming>(centre, block, rows, radius, near)
    }

    #[inline]
    fn distances<L: Ledger>(
        centre: &[u8],
        block: &Block,
        places: &[u8],
        far: &mut [u32],
        steps: &mut Steps<L>,
    ) {
        steps.tick_many(places.len());
        kernel::distances::<Hamming>(centre, block, places, far)
    }
}

impl Kernel for Hamming {
    ghost dist = { all_bits_apart };

    #[inline(always)]
    fn between(a: &[u8], b: &[u8]) -> u32 {
        differing_bits(a, b)
    }

    #[inline(always)]
    fn between_few(a: &[u8], b: &[u8]) -> u32 {
        bits_of_bytes(a, b)
    }

    #[inline(always)]
    fn is_near(a: &[u8], b: &[u8], radius: u32) -> bool {
        differing_bits(a, b) <= radius
    }
}

// By words of eight bytes, and by bytes what is left.
#[inline(always)]
fn differing_bits<'a, 'b>(mut a: &'a [u8], mut b: &'b [u8]) -> u32
    requires same { length a.now ≡ length b.now }
    requires small { length a.now ≤ 512 }
    ensures { result ≡ all_bits_apart a.now b.now }
{
    let mut total = 0;
    while let (Some((x, after_x)), Some((y, after_y))) = (
        a.split_first_chunk::<8>(),
        b.split_first_chunk::<8>(),
    ) {
        total += bits_of_word(x, y);
        a = after_x;
        b = after_y;
    }
    if a.is_empty() {
        total
    } else {
        total + bits_of_rest(a, b)
    }
}

#[inline(always)]
fn bits_of_word(x: &[u8; 8], y: &[u8; 8]) -> u32
    ensures is { result ≡ all_bits_apart x.now y.now }
    ensures small { result ≤ 64 }
{
    (u64::from_le_bytes(*x) ^ u64::from_le_bytes(*y)).count_ones()
}

// Not inlined, so that a width that leaves no bytes need not save the registers of this loop.
#[inline(never)]
fn bits_of_rest(a: &[u8], b: &[u8]) -> u32
    requires same { length a.now ≡ length b.now }
    requires small { length a.now ≤ 512 }
    ensures is { result ≡ all_bits_apart a.now b.now }
    ensures small { result ≤ 8 * length a.now }
{
    bits_of_bytes(a, b)
}

#[inline(always)]
fn bits_of_bytes(a: &[u8], b: &[u8]) -> u32
    requires same { length a.now ≡ length b.now }
    requires small { length a.now ≤ 512 }
    ensures is { result ≡ all_bits_apart a.now b.now }
    ensures small { result ≤ 8 * length a.now }
{
    let mut total = 0;
    for (x, y) in a.iter().zip(b) {
        total += (*x ^ *y).count_ones();
    }
    total
}
