//! Laws over the definitions. Each is the contract of a function that does nothing.

ghost use Rattle.std.specs.Prelude.{◌≡◌, ◌+◌, ◌%◌, ◌<◌, ◌≤◌, length, true, false, replicate};
ghost use Rattle.mtree_split.specs.Laws.{IsRadius, TakesNearest};
ghost use Rattle.mtree_split.specs.Sides.{after_turns, side_radius};

/// The two sides alternate, the left one first, and each turn takes the nearest entry that is left,
/// ties to the least position.
pub fn turns_take_nearest(left_row: &[u32], right_row: &[u32], turn: usize)
    requires same_length { length right_row.now ≡ length left_row.now }
    requires at_most { length left_row.now ≤ 36 }
    requires inside { turn < length left_row.now }
    ensures left { turn % 2 ≡ 0
        → TakesNearest left_row.now false (after_turns left_row.now right_row.now turn)
        (after_turns left_row.now right_row.now (turn + 1)) }
    ensures right { turn % 2 ≡ 1
        → TakesNearest right_row.now true (after_turns left_row.now right_row.now turn)
        (after_turns left_row.now right_row.now (turn + 1)) }
{}

/// After as many turns as there are entries each has been taken, and so is on exactly one side.
pub fn turns_take_all(left_row: &[u32], right_row: &[u32])
    requires same_length { length right_row.now ≡ length left_row.now }
    requires at_most { length left_row.now ≤ 36 }
    ensures { (after_turns left_row.now right_row.now (length left_row.now)).taken
        ≡ replicate (length left_row.now) true }
{}

/// A side's radius reaches over each of its entries, up to the greatest distance, and is no larger
/// than one of them asks.
pub fn radius_is_least(greatest: u32, row: &[u32], radii: &[u32], sides: &[bool], side: bool)
    ensures { IsRadius greatest row.now radii.now sides.now side
        (side_radius greatest row.now radii.now sides.now side) }
{}
