//! How many rows of a block are near each row. Each pair of rows is looked at once.

ghost use Rattle.std.specs.Prelude.{◌≡◌, ◌+◌, ◌*◌, ◌<◌, ◌≤◌, length, IfOk};
ghost use Rattle.std.specs.List.{AllByRecursion};
ghost use Rattle.plain_dbscan.specs.inside.Sizes.{AreSizes, ArePaired, HaveRoom, AreMore};

use std::alloc::{AllocError, Global};
use std::sync::ledger::Ledger;
use vec_record::{Block, Metric, Steps};

/// Counts one more at each of the places.
fn count_each(sizes: &mut [usize], places: &[usize])
    requires places { AllByRecursion (λ k. k < length sizes.old) places.now }
    requires room { HaveRoom sizes.old (length places.now) }
    ensures lengths { length sizes.new ≡ length sizes.old }
    ensures counts { AreMore sizes.old sizes.new places.now }
{
    for place in places {
        sizes[*place] += 1;
    }
}

/// Counts the pairs of the row at place `i` with those behind it, for both rows of each pair.
fn count_pairs<M: Metric, L: Ledger>(
    rows: &Block,
    i: usize,
    eps: u32,
    sizes: &mut [usize],
    near: &mut [usize],
    steps: &mut Steps<L>,
)
    requires place { i < length rows.now.rows }
    requires room { length rows.now.rows ≤ length near.old }
    requires paired { ArePaired M.dist eps rows.now sizes.old i }
    ensures paired { ArePaired M.dist eps rows.now sizes.new (i + 1) }
    ensures few { steps.new ≤ steps.old + length rows.now.rows }
    ensures counts { steps.old ≤ steps.new }
    ensures room { length near.new ≡ length near.old }
{
    let _width = rows.width();
    let row = rows.row(i);
    let found = M::within_range::<L>(row, rows, i + 1..rows.len(), eps, near, steps);
    sizes[i] += found;
    count_each(sizes, &near[..found]);
}

/// The size of each row: how many rows are near it, itself among these.
pub fn find_sizes<M: Metric, L: Ledger>(
    alloc: Global,
    rows: &Block,
    eps: u32,
    steps: &mut Steps<L>,
) -> Result<Vec<usize>, AllocError>
    ensures sizes { IfOk result (λ sizes. AreSizes M.dist eps rows.now sizes.items) }
    ensures few { steps.new ≤ steps.old + length rows.now.rows * length rows.now.rows }
    ensures counts { steps.old ≤ steps.new }
{
    // Each row is near itself.
    let mut sizes = vec![in alloc; 1usize; rows.len()]?;
    let mut near = vec![in alloc; 0usize; rows.len()]?;
    for i in 0..rows.len() {
        count_pairs::<M, L>(rows, i, eps, &mut sizes, &mut near, steps);
    }
    Ok(sizes)
}
