//! Loops over the rows of a block, for every metric and at any width.
//!
//! Each loop is a function that is not inlined: where the compiler puts many of them into one
//! function it leaves their bytes to be taken one by one.

ghost use Rattle.std.specs.Prelude.{◌≡◌, ℕ, ◌+◌, ◌-◌, ◌≤◌, nat_le, List, length, take};
ghost use Rattle.vec_record.specs.Asked.{ArePlaces, near_at, near_rows, AreFar};

use std::ops::Range;
use vec_record::Block;

/// How a metric compares two lists of bytes. It counts nothing, so it stays within this crate.
pub(crate) trait Kernel {
    ghost dist: { List ℕ → List ℕ → ℕ };

    /// The distance.
    fn between(a: &[u8], b: &[u8]) -> u32
        requires same { length a.now ≡ length b.now }
        requires small { length a.now ≤ 512 }
        ensures { result ≡ dist a.now b.now };

    /// The same by a plain loop over the bytes, for fewer than 8 of them.
    fn between_few(a: &[u8], b: &[u8]) -> u32
        requires same { length a.now ≡ length b.now }
        requires small { length a.now ≤ 512 }
        ensures { result ≡ dist a.now b.now };

    /// Whether the distance is at most the radius. It may leave off as soon as it is above.
    fn is_near(a: &[u8], b: &[u8], radius: u32) -> bool
        requires same { length a.now ≡ length b.now }
        requires small { length a.now ≤ 512 }
        ensures { result ≡ nat_le (dist a.now b.now) radius };
}

// At a width that the compiler knows.
#[inline(always)]
fn between_known<K: Kernel, const N: usize>(a: &[u8; N], b: &[u8; N]) -> u32
    requires { N ≤ 512 }
    ensures { result ≡ K.dist a.now b.now }
{
    if N < 8 {
        K::between_few(a, b)
    } else {
        K::between(a, b)
    }
}

#[inline(always)]
fn is_near_known<K: Kernel, const N: usize>(a: &[u8; N], b: &[u8; N], radius: u32) -> bool
    requires { N ≤ 512 }
    ensures { result ≡ nat_le (K.dist a.now b.now) radius }
{
    if N < 8 {
        K::between_few(a, b) <= radius
    } else {
        K::is_near(a, b, radius)
    }
}

/// `Metric::within`, uncounted.
#[inline]
pub(crate) fn within<K: Kernel>(
    centre: &[u8],
    block: &Block,
    places: &[u8],
    radius: u32,
    near: &mut [u8],
) -> usize
    requires width { length centre.now ≡ block.now.width }
    requires places { ArePlaces block.now places.now }
    requires room { length places.now ≤ length near.old }
    ensures near { take result near.new ≡ near_at K.dist centre.now block.now radius places.now }
    ensures few { result ≤ length places.now }
{
    if let Some(known) = centre.as_array::<1>() {
        return within_known::<K, 1>(known, block, places, radius, near);
    }
    if let Some(known) = centre.as_array::<2>() {
        return within_known::<K, 2>(known, block, places, radius, near);
    }
    if let Some(known) = centre.as_array::<4>() {
        return within_known::<K, 4>(known, block, places, radius, near);
    }
    if let Some(known) = centre.as_array::<8>() {
        return within_known::<K, 8>(known, block, places, radius, near);
    }
    if let Some(known) = centre.as_array::<16>() {
        return within_known::<K, 16>(known, block, places, radius, near);
    }
    if let Some(known) = centre.as_array::<32>() {
        return within_known::<K, 32>(known, block, places, radius, near);
    }
    if let Some(known) = centre.as_array::<64>() {
        return within_known::<K, 64>(known, block, places, radius, near);
    }
    if let Some(known) = centre.as_array::<128>() {
        return within_known::<K, 128>(known, block, places, radius, near);
    }
    within_any::<K>(centre, block, places, radius, near)
}

// At a width that the compiler knows, so that it can unroll the loop of the kernel.
#[inline(never)]
fn within_known<K: Kernel, const N: usize>(
    centre: &[u8; N],
    block: &Block,
    places: &[u8],
    radius: u32,
    near: &mut [u8],
) -> usize
    requires width { N ≡ block.now.width }
    requires places { ArePlaces block.now places.now }
    requires room { length places.now ≤ length near.old }
    ensures near { take result near.new ≡ near_at K.dist centre.now block.now radius places.now }
    ensures few { result ≤ length places.now }
{
    let _width = block.width();
    let mut count = 0;
    for place in places {
        let row = block.row_array::<N>(usize::from(*place));
        // Without a branch: where half of the rows are near, each second one would be guessed
        // wrong.
        near[count] = *place;
        count += usize::from(is_near_known::<K, N>(centre, row, radius));
    }
    count
}

// At any other width.
#[inline(never)]
fn within_any<K: Kernel>(
    centre: &[u8],
    block: &Block,
    places: &[u8],
    radius: u32,
    near: &mut [u8],
) -> usize
    requires width { length centre.now ≡ block.now.width }
    requires places { ArePlaces block.now places.now }
    requires room { length places.now ≤ length near.old }
    ensures near { take result near.new ≡ near_at K.dist centre.now block.now radius places.now }
    ensures few { result ≤ length places.now }
{
    let _width = block.width();
    let mut count = 0;
    for place in places {
        let row = block.row(usize::from(*place));
        near[count] = *place;
        count += usize::from(K::is_near(centre, row, radius));
    }
    count
}

/// `Metric::within_range`, uncounted.
#[inline]
pub(crate) fn within_range<K: Kernel>(
    centre: &[u8],
    block: &Block,
    rows: Range<usize>,
    radius: u32,
    near: &mut [usize],
) -> usize
    requires width { length centre.now ≡ block.now.width }
    requires order { rows.start ≤ rows.end }
    requires places { rows.end ≤ length block.now.rows }
    requires room { rows.end ≤ rows.start + length near.old }
    ensures near { take result near.new ≡ near_rows K.dist centre.now block.now radius rows }
    ensures few { result ≤ rows.end - rows.start }
{
    if let Some(known) = centre.as_array::<1>() {
        return within_range_known::<K, 1>(known, block, rows, radius, near);
    }
    if let Some(known) = centre.as_array::<2>() {
        return within_range_known::<K, 2>(known, block, rows, radius, near);
    }
    if let Some(known) = centre.as_array::<4>() {
        return within_range_known::<K, 4>(known, block, rows, radius, near);
    }
    if let Some(known) = centre.as_array::<8>() {
        return within_range_known::<K, 8>(known, block, rows, radius, near);
    }
    if let Some(known) = centre.as_array::<16>() {
        return within_range_known::<K, 16>(known, block, rows, radius, near);
    }
    if let Some(known) = centre.as_array::<32>() {
        return within_range_known::<K, 32>(known, block, rows, radius, near);
    }
    if let Some(known) = centre.as_array::<64>() {
        return within_range_known::<K, 64>(known, block, rows, radius, near);
    }
    if let Some(known) = centre.as_array::<128>() {
        return within_range_known::<K, 128>(known, block, rows, radius, near);
    }
    within_range_any::<K>(centre, block, rows, radius, near)
}

#[inline(never)]
fn within_range_known<K: Kernel, const N: usize>(
    centre: &[u8; N],
    block: &Block,
    rows: Range<usize>,
    radius: u32,
    near: &mut [usize],
) -> usize
    requires width { N ≡ block.now.width }
    requires order { rows.start ≤ rows.end }
    requires places { rows.end ≤ length block.now.rows }
    requires room { rows.end ≤ rows.start + length near.old }
    ensures near { take result near.new ≡ near_rows K.dist centre.now block.now radius rows }
    ensures few { result ≤ rows.end - rows.start }
{
    let _width = block.width();
    let mut count = 0;
    for place in rows.start..rows.end {
        let row = block.row_array::<N>(place);
        near[count] = place;
        count += usize::from(is_near_known::<K, N>(centre, row, radius));
    }
    count
}

#[inline(never)]
fn within_range_any<K: Kernel>(
    centre: &[u8],
    block: &Block,
    rows: Range<usize>,
    radius: u32,
    near: &mut [usize],
) -> usize
    requires width { length centre.now ≡ block.now.width }
    requires order { rows.start ≤ rows.end }
    requires places { rows.end ≤ length block.now.rows }
    requires room { rows.end ≤ rows.start + length near.old }
    ensures near { take result near.new ≡ near_rows K.dist centre.now block.now radius rows }
    ensures few { result ≤ rows.end - rows.start }
{
    let _width = block.width();
    let mut count = 0;
    for place in rows.start..rows.end {
        let row = block.row(place);
        near[count] = place;
        count += usize::from(K::is_near(centre, row, radius));
    }
    count
}

/// `Metric::distances`, uncounted.
#[inline]
pub(crate) fn distances<K: Kernel>(centre: &[u8], block: &Block, places: &[u8], far: &mut [u32])
    requires width { length centre.now ≡ block.now.width }
    requires places { ArePlaces block.now places.now }
    requires room { length places.now ≤ length far.old }
    ensures { AreFar K.dist centre.now block.now places.now far.new }
{
    if let Some(known) = centre.as_array::<1>() {
        return distances_known::<K, 1>(known, block, places, far);
    }
    if let Some(known) = centre.as_array::<2>() {
        return distances_known::<K, 2>(known, block, places, far);
    }
    if let Some(known) = centre.as_array::<4>() {
        return distances_known::<K, 4>(known, block, places, far);
    }
    if let Some(known) = centre.as_array::<8>() {
        return distances_known::<K, 8>(known, block, places, far);
    }
    if let Some(known) = centre.as_array::<16>() {
        return distances_known::<K, 16>(known, block, places, far);
    }
    if let Some(known) = centre.as_array::<32>() {
        return distances_known::<K, 32>(known, block, places, far);
    }
    if let Some(known) = centre.as_array::<64>() {
        return distances_known::<K, 64>(known, block, places, far);
    }
    if let Some(known) = centre.as_array::<128>() {
        return distances_known::<K, 128>(known, block, places, far);
    }
    distances_any::<K>(centre, block, places, far)
}

#[inline(never)]
fn distances_known<K: Kernel, const N: usize>(
    centre: &[u8; N],
    block: &Block,
    places: &[u8],
    far: &mut [u32],
)
    requires width { N ≡ block.now.width }
    requires places { ArePlaces block.now places.now }
    requires room { length places.now ≤ length far.old }
    ensures { AreFar K.dist centre.now block.now places.now far.new }
{
    let _width = block.width();
    for (i, place) in places.iter().enumerate() {
        let row = block.row_array::<N>(usize::from(*place));
        far[i] = between_known::<K, N>(centre, row);
    }
}

#[inline(never)]
fn distances_any<K: Kernel>(centre: &[u8], block: &Block, places: &[u8], far: &mut [u32])
    requires width { length centre.now ≡ block.now.width }
    requires places { ArePlaces block.now places.now }
    requires room { length places.now ≤ length far.old }
    ensures { AreFar K.dist centre.now block.now places.now far.new }
{
    let _width = block.width();
    for (i, place) in places.iter().enumerate() {
        let row = block.row(usize::from(*place));
        far[i] = K::between(centre, row);
    }
}
