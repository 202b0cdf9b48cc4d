//! The cores among points, and the vectors of points packed in one block.

ghost use Rattle.std.specs.Prelude.{◌≡◌, length, IfOk};
ghost use Rattle.std.specs.Ordering.{nat_cmp};
ghost use Rattle.std.specs.FinMap.Entries.{is_sorted};
ghost use lib.Dec.{T};
ghost use Rattle.vec_record.specs.Vectors.{IsWidth};
ghost use Rattle.plain_dbscan.specs.Points.{entries_of, AreOfWidth, OfOneWidth};
ghost use Rattle.plain_dbscan.specs.Points.{ArePacked};
ghost use Rattle.plain_dbscan.specs.inside.Sizes.{AreCoresBy};

use crate::points::Point;
use std::alloc::{AllocError, Global};
use vec_record::Block;

/// The width of the vectors of all points, in bytes.
pub fn width_of(points: &[Point<'_>]) -> u32
    requires { OfOneWidth points.now }
    ensures width { IsWidth result }
    ensures vectors { AreOfWidth result points.now }
{
    match points.first() {
        Some(point) => point.vector.as_slice().len() as u32,
        None => 1,
    }
}

/// The vectors of all points, which are `width` bytes long, one behind another.
pub fn pack(alloc: Global, points: &[Point<'_>], width: u32) -> Result<Block, AllocError>
    requires width { IsWidth width }
    requires vectors { AreOfWidth width points.now }
    ensures packed { IfOk result (λ rows. ArePacked points.now rows) }
    ensures width { IfOk result (λ rows. rows.width ≡ width) }
{
    let mut rows = Block::new(alloc, width);
    for point in points {
        rows.push(point.vector.as_slice())?;
    }
    Ok(rows)
}

/// The points that have at least `minpts` points near them, themselves among these.
pub fn find_cores<'a>(
    alloc: Global,
    points: &[Point<'a>],
    sizes: &[usize],
    minpts: u32,
) -> Result<Vec<Point<'a>>, AllocError>
    requires rising { T (is_sorted nat_cmp (entries_of points.now)) }
    requires lengths { length sizes.now ≡ length points.now }
    ensures cores { IfOk result (λ cores. AreCoresBy minpts points.now sizes.now cores.items) }
{
    let mut cores = Vec::new(alloc);
    for (i, point) in points.iter().enumerate() {
        if sizes[i] >= minpts as usize {
            cores.push(*point)?;
        }
    }
    Ok(cores)
}
