//! Records as points: a number and its vector side by side.

ghost use Rattle.std.specs.Prelude.{◌≡◌, IfOk};
ghost use Rattle.std.specs.FinMap as map;
ghost use Rattle.plain_dbscan.specs.Points.{entries_of, AreOfWidth};

use std::alloc::{AllocError, Global};
use vec_record::{Number, Records, Vector};

/// A record: its number, and its vector where the records keep it.
#[derive(Clone, Copy)]
pub struct Point<'a> {
    pub number: Number,
    pub vector: &'a Vector,
}

/// All records as points, rising, by one walk over them.
pub fn points_of(alloc: Global, records: &Records) -> Result<Vec<Point<'_>>, AllocError>
    ensures entries { IfOk result
        (λ points. entries_of points.items ≡ map.entries records.now.vectors) }
    ensures vectors { IfOk result (λ points. AreOfWidth records.now.width points.items) }
{
    let mut points = Vec::new(alloc);
    for (number, vector) in records.iter() {
        points.push(Point {
            number: *number,
            vector,
        })?;
    }
    Ok(points)
}
