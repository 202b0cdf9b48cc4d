//! The two sides of a pair, and their radii.

ghost use Rattle.std.specs.Prelude.{◌≡◌, ℕ, ◌+◌, ◌%◌, ◌<◌, ◌≤◌, ◌^◌, length, min, true, false};
ghost use Rattle.std.specs.Prelude.{replicate, slice_set};
ghost use Rattle.mtree_split.specs.Sides.{rank_left, nearest_left, sides_of, is_on, side_radius};
ghost use Rattle.mtree_split.specs.Sides.{nearer_sum};

// A rank above every distance and radius.
pub const BEYOND: u64 = 1 << 32;

fn rank_left(row: &[u32], taken: &[bool], k: usize) -> u64
    requires in_row { k < length row.now }
    requires in_taken { k < length taken.now }
    ensures { result ≡ rank_left row.now taken.now k }
{
    if taken[k] { BEYOND } else { u64::from(row[k]) }
}

fn nearest_left(row: &[u32], taken: &[bool]) -> usize
    requires some { 0 < length row.now }
    requires same_length { length taken.now ≡ length row.now }
    ensures value { result ≡ nearest_left row.now taken.now }
    ensures inside { result < length row.now }
{
    let mut nearest = 0;
    let mut least = rank_left(row, taken, 0);
    for k in 0..row.len() {
        let rank = rank_left(row, taken, k);
        if rank < least {
            nearest = k;
            least = rank;
        }
    }
    nearest
}

fn take_nearest(row: &[u32], to_right: bool, taken: &mut [bool], sides: &mut [bool])
    requires some { 0 < length row.now }
    requires same_length { length taken.old ≡ length row.now }
    requires room { length row.now ≤ length sides.old }
    ensures taken { taken.new ≡ slice_set taken.old (nearest_left row.now taken.old) true }
    ensures right { sides.new ≡ slice_set sides.old (nearest_left row.now taken.old) to_right }
{
    let nearest = nearest_left(row, taken);
    taken[nearest] = true;
    sides[nearest] = to_right;
}

// Gives each entry its side, in turns. All entries are left at first.
pub fn take_turns(left_row: &[u32], right_row: &[u32], taken: &mut [bool], sides: &mut [bool])
    requires same_length { length right_row.now ≡ length left_row.now }
    requires none_taken { taken.old ≡ replicate (length left_row.now) false }
    requires none_right { sides.old ≡ replicate 36 false }
    requires room { length left_row.now ≤ 36 }
    ensures { sides.new ≡ sides_of left_row.now right_row.now }
{
    for turn in 0..left_row.len() {
        if turn % 2 == 1 {
            take_nearest(right_row, true, taken, sides);
        } else {
            take_nearest(left_row, false, taken, sides);
        }
    }
}

fn is_on(side: bool, went_right: bool) -> bool
    ensures { result ≡ is_on side went_right }
{
    if side { went_right } else { !went_right }
}

/// The radius of a side: the greatest sum of the distance to its object and the entry's radius, cut
/// at `greatest`.
pub fn side_radius(greatest: u32, row: &[u32], radii: &[u32], sides: &[bool], side: bool) -> u32
    requires radii { length radii.now ≡ length row.now }
    requires sides { length row.now ≤ length sides.now }
    ensures { result ≡ side_radius greatest row.now radii.now sides.now side }
{
    let mut reach = 0u64;
    for k in 0..row.len() {
        if is_on(side, sides[k]) {
            reach = reach.max(u64::from(row[k]) + u64::from(radii[k]));
        }
    }
    reach.min(u64::from(greatest)) as u32
}

// What the greater radius of a pair is at least, however its entries are parted.
pub fn nearer_radius(greatest: u32, left_row: &[u32], right_row: &[u32], radii: &[u32]) -> u32
    requires same_length { length right_row.now ≡ length left_row.now }
    requires radii { length radii.now ≡ length left_row.now }
    ensures { result ≡ min (nearer_sum left_row.now right_row.now radii.now (length left_row.now))
        greatest }
{
    let mut bound = 0u64;
    for k in 0..left_row.len() {
        let nearer = left_row[k].min(right_row[k]);
        bound = bound.max(u64::from(nearer) + u64::from(radii[k]));
    }
    bound.min(u64::from(greatest)) as u32
}
