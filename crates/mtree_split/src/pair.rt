//! The pair of entries to promote, chosen among all pairs.

ghost use Rattle.std.specs.Prelude.{◌≡◌, ℕ, ◌+◌, ◌*◌, ◌/◌, ◌%◌, ◌<◌, ◌≤◌, ◌^◌, length, count_by};
ghost use Rattle.std.specs.Prelude.{slice_index_or, false, IsTrue};
ghost use Rattle.mtree_split.specs.Laws.{IsEarlier};
ghost use Rattle.mtree_split.specs.Sides.{sides_of};
ghost use Rattle.mtree_split.specs.Choice.{row_of, greater_radius, parting_of, pair_rank, choice};

use crate::side::{BEYOND, nearer_radius, side_radius, take_turns};

/// A pair of entries to promote, and which entries go with each.
#[derive(Drop)]
pub struct Parting {
    /// The position of the left side's object.
    pub left: usize,
    /// The position of the right side's object.
    pub right: usize,
    /// Whether the entry at a position goes right; false past the count.
    pub sides: [bool; 36],
    pub left_radius: u32,
    pub right_radius: u32,
}

fn row_of(count: usize, matrix: &[u32], i: usize) -> &[u32]
    requires square { length matrix.now ≡ count * count }
    requires inside { i < count }
    requires at_most { count ≤ 36 }
    ensures value { result.now ≡ row_of count matrix.now i }
    ensures as_long { length result.now ≡ count }
{
    &matrix[i * count..i * count + count]
}

fn sides_of(left_row: &[u32], right_row: &[u32]) -> [bool; 36]
    requires same_length { length right_row.now ≡ length left_row.now }
    requires at_most { length left_row.now ≤ 36 }
    ensures { result ≡ sides_of left_row.now right_row.now }
{
    let mut taken = [false; 36];
    let mut sides = [false; 36];
    take_turns(
        left_row,
        right_row,
        &mut taken[..left_row.len()],
        &mut sides,
    );
    sides
}

fn parting_of(
    count: usize,
    matrix: &[u32],
    radii: &[u32],
    greatest: u32,
    left: usize,
    right: usize,
) -> Parting
    requires square { length matrix.now ≡ count * count }
    requires one_radius_each { length radii.now ≡ count }
    requires at_most { count ≤ 36 }
    requires left_inside { left < count }
    requires right_inside { right < count }
    ensures { result ≡ parting_of count matrix.now radii.now greatest left right }
{
    let left_row = row_of(count, matrix, left);
    let right_row = row_of(count, matrix, right);
    let sides = sides_of(left_row, right_row);
    let left_radius = side_radius(greatest, left_row, radii, &sides, false);
    let right_radius = side_radius(greatest, right_row, radii, &sides, true);
    Parting {
        left,
        right,
        sides,
        left_radius,
        right_radius,
    }
}

fn pair_rank(count: usize, matrix: &[u32], radii: &[u32], greatest: u32, place: usize) -> u64
    requires square { length matrix.now ≡ count * count }
    requires one_radius_each { length radii.now ≡ count }
    requires at_most { count ≤ 36 }
    requires inside { place < count * count }
    ensures { result ≡ pair_rank count matrix.now radii.now greatest place }
{
    let left = place / count;
    let right = place % count;
    if left < right {
        let parting = parting_of(count, matrix, radii, greatest, left, right);
        u64::from(parting.left_radius.max(parting.right_radius))
    } else {
        BEYOND
    }
}

// Whether a look at the distances alone shows that a pair's rank isn't below one that was found.
fn is_hopeless(
    count: usize,
    matrix: &[u32],
    radii: &[u32],
    greatest: u32,
    place: usize,
    least: u64,
) -> bool
    requires square { length matrix.now ≡ count * count }
    requires one_radius_each { length radii.now ≡ count }
    requires at_most { count ≤ 36 }
    requires inside { place < count * count }
    ensures { IsTrue result → least ≤ pair_rank count matrix.now radii.now greatest place }
{
    let left = place / count;
    let right = place % count;
    if left >= right {
        return false;
    }
    let left_row = row_of(count, matrix, left);
    let right_row = row_of(count, matrix, right);
    least <= u64::from(nearer_radius(greatest, left_row, right_row, radii))
}

// The rank of a place where it is below `least`, and otherwise any number that isn't below it. Most
// pairs need no parting so.
fn rank_below(
    count: usize,
    matrix: &[u32],
    radii: &[u32],
    greatest: u32,
    place: usize,
    least: u64,
) -> u64
    requires square { length matrix.now ≡ count * count }
    requires one_radius_each { length radii.now ≡ count }
    requires at_most { count ≤ 36 }
    requires inside { place < count * count }
    ensures below { result < least → result ≡ pair_rank count matrix.now radii.now greatest place }
    ensures others { least ≤ result → least ≤ pair_rank count matrix.now radii.now greatest place }
{
    if is_hopeless(count, matrix, radii, greatest, place, least) {
        least
    } else {
        pair_rank(count, matrix, radii, greatest, place)
    }
}

/// The pair to promote among 31 to 36 entries, with the sides and radii of its balanced parting.
///
/// `matrix` has the distances between the entries, row by row, `radii` one radius for each entry,
/// and no value is above `greatest`, the metric's greatest distance. All entries are left at
/// first, those of the pair among them. The left side takes its nearest entry that is left, then
/// the right side, in turns, ties to the least position. A side's radius is the greatest sum of
/// the distance to its object and the entry's radius, cut at `greatest`. The chosen pair's greater
/// radius is least, ties to the lexicographically least pair.
pub fn choose(count: usize, matrix: &[u32], radii: &[u32], greatest: u32) -> Parting
    requires at_least { 31 ≤ count }
    requires at_most { count ≤ 36 }
    requires square { length matrix.now ≡ count * count }
    requires one_radius_each { length radii.now ≡ count }
    ensures is { result ≡ choice count matrix.now radii.now greatest }
    ensures rises { result.left < result.right }
    ensures inside { result.right < count }
    ensures parting { result ≡ parting_of count matrix.now radii.now greatest result.left
        result.right }
    ensures least { (i j : ℕ) → i < j → j < count → greater_radius result
        ≤ greater_radius (parting_of count matrix.now radii.now greatest i j) }
    ensures first { (i j : ℕ) → i < j → j < count → IsEarlier i j result.left result.right
        → greater_radius result
        < greater_radius (parting_of count matrix.now radii.now greatest i j) }
    ensures balanced { count_by (λ went_right. went_right) result.sides ≡ count / 2 }
    ensures none_past { (k : ℕ) → count ≤ k → slice_index_or result.sides k false ≡ false }
{
    let mut best = 0;
    let mut least = pair_rank(count, matrix, radii, greatest, 0);
    for place in 0..count * count {
        let rank = rank_below(count, matrix, radii, greatest, place, least);
        if rank < least {
            best = place;
            least = rank;
        }
    }
    parting_of(count, matrix, radii, greatest, best / count, best % count)
}
