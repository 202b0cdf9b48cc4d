//! Clustering by all pairs of records.

ghost use Rattle.std.specs.Prelude.{◌≡◌, ◌+◌, ◌*◌, ◌≤◌, length, position, IfOk};
ghost use Rattle.std.specs.Ordering.{nat_cmp};
ghost use Rattle.std.specs.FinMap as map;
ghost use Rattle.std.specs.FinMap.Entries.{is_sorted};
ghost use lib.Dec.{T};
ghost use Rattle.plain_dbscan.specs.Marks.{density, marks_of};
ghost use Rattle.plain_dbscan.specs.Points.{entries_of, OfOneWidth, ArePointSizes, is_near_row};
ghost use Rattle.plain_dbscan.specs.Points.{mark_by_place};

use crate::cores::{find_cores, pack, width_of};
use crate::labels::find_labels;
use crate::marks::{Mark, Marks};
use crate::points::{Point, points_of};
use crate::sizes::find_sizes;
use std::alloc::{AllocError, Global};
use std::sync::ledger::Ledger;
use vec_record::{Block, Metric, Number, Records, Steps, Vector};

/// The mark of a vector that is no core: by the first of the cores near it, whose vectors are
/// `rows`.
fn outer_mark<M: Metric, L: Ledger>(
    rows: &Block,
    labels: &[Number],
    vector: &Vector,
    eps: u32,
    near: &mut [usize],
    steps: &mut Steps<L>,
) -> Mark
    requires width { length vector.now ≡ rows.now.width }
    requires lengths { length labels.now ≡ length rows.now.rows }
    requires room { length rows.now.rows ≤ length near.old }
    ensures mark { result ≡ mark_by_place labels.now
        (position (is_near_row M.dist eps vector.now) rows.now.rows) }
    ensures few { steps.new ≤ steps.old + length rows.now.rows }
    ensures counts { steps.old ≤ steps.new }
    ensures room { length near.new ≡ length near.old }
{
    let found = M::within_range::<L>(vector.as_slice(), rows, 0..rows.len(), eps, near, steps);
    if found > 0 {
        Mark::Border(labels[near[0]])
    } else {
        Mark::Noise
    }
}

/// Each number with its mark, rising, where the sizes of all points are known.
fn mark_by_sizes<M: Metric, L: Ledger>(
    alloc: Global,
    points: &[Point<'_>],
    sizes: &[usize],
    eps: u32,
    minpts: u32,
    steps: &mut Steps<L>,
) -> Result<Marks, AllocError>
    requires vectors { OfOneWidth points.now }
    requires rising { T (is_sorted nat_cmp (entries_of points.now)) }
    requires sizes { ArePointSizes (density M.dist eps minpts) points.now sizes.now }
    ensures marks { IfOk result
        (λ marks. marks ≡ marks_of (density M.dist eps minpts) (entries_of points.now)) }
    ensures few { steps.new ≤ steps.old + 2 * length points.now * length points.now }
    ensures counts { steps.old ≤ steps.new }
{
    let cores = find_cores(alloc, points, sizes, minpts)?;
    let rows = pack(alloc, &cores, width_of(points))?;
    let labels = find_labels::<M, L>(alloc, &cores, &rows, eps, steps)?;
    let labels = labels.as_slice();
    let mut near = vec![in alloc; 0usize; rows.len()]?;
    let mut marks = Marks::new(alloc);
    // The cores are points in the same order, so the next of them is met in step.
    let mut next = 0usize;
    for (i, point) in points.iter().enumerate() {
        if sizes[i] >= minpts as usize {
            marks.push((point.number, Mark::Core(labels[next])))?;
            next += 1;
        } else if sizes[i] == 1 {
            // It is near itself alone.
            marks.push((point.number, Mark::Noise))?;
        } else {
            let mark = outer_mark::<M, L>(&rows, labels, point.vector, eps, &mut near, steps);
            marks.push((point.number, mark))?;
        }
    }
    Ok(marks)
}

/// Each number with its mark, rising, by looking at all pairs of points.
fn mark_points<M: Metric, L: Ledger>(
    alloc: Global,
    points: &[Point<'_>],
    eps: u32,
    minpts: u32,
    steps: &mut Steps<L>,
) -> Result<Marks, AllocError>
    requires vectors { OfOneWidth points.now }
    requires rising { T (is_sorted nat_cmp (entries_of points.now)) }
    ensures marks { IfOk result
        (λ marks. marks ≡ marks_of (density M.dist eps minpts) (entries_of points.now)) }
    ensures few { steps.new ≤ steps.old + 3 * length points.now * length points.now }
    ensures counts { steps.old ≤ steps.new }
{
    let rows = pack(alloc, points, width_of(points))?;
    let sizes = find_sizes::<M, L>(alloc, &rows, eps, steps)?;
    mark_by_sizes::<M, L>(alloc, points, &sizes, eps, minpts, steps)
}

/// Each number with its mark, rising, by looking at all pairs of records.
///
/// Quadratic in time, linear in memory. Want of memory is its only other answer.
pub fn cluster_plain<M: Metric, L: Ledger>(
    alloc: Global,
    records: &Records,
    eps: u32,
    minpts: u32,
    steps: &mut Steps<L>,
) -> Result<Marks, AllocError>
    ensures marks { IfOk result
        (λ marks. marks ≡ marks_of (density M.dist eps minpts) (map.entries records.now.vectors)) }
    ensures few { let n = map.len records.now.vectors in steps.new ≤ steps.old + 3 * n * n }
    ensures counts { steps.old ≤ steps.new }
{
    let points = points_of(alloc, records)?;
    mark_points::<M, L>(alloc, &points, eps, minpts, steps)
}
