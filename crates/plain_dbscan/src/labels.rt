//! Labels of cores, by joining those that are near each other.

ghost use Rattle.std.specs.Prelude.{◌≡◌, ◌+◌, ◌*◌, ◌<◌, ◌≤◌, length, IfOk};
ghost use Rattle.std.specs.Ordering.{nat_cmp};
ghost use Rattle.std.specs.FinMap.Entries.{is_sorted};
ghost use lib.Dec.{T};
ghost use Rattle.plain_dbscan.specs.Marks.{density};
ghost use Rattle.plain_dbscan.specs.Points.{entries_of, OfOneWidth, ArePacked};
ghost use Rattle.plain_dbscan.specs.Merging.{AreLabels};
ghost use Rattle.plain_dbscan.specs.inside.Roots.{AreParents, AreRoots, roots_of, all_roots};
ghost use Rattle.plain_dbscan.specs.inside.Roots.{AreRootNumbers};

use crate::points::Point;
use crate::roots::{find_root, join_each, own_places};
use std::alloc::{AllocError, Global};
use std::sync::ledger::Ledger;
use vec_record::{Block, Metric, Number, Steps};

/// Joins the tree of the row at place `i` with those of the rows before it that are near it.
fn join_row<M: Metric, L: Ledger>(
    rows: &Block,
    i: usize,
    eps: u32,
    parents: &mut [usize],
    near: &mut [usize],
    steps: &mut Steps<L>,
)
    requires place { i < length rows.now.rows }
    requires room { length rows.now.rows ≤ length near.old }
    requires lengths { length parents.old ≡ length rows.now.rows }
    requires parents { AreParents parents.old }
    requires roots { AreRoots parents.old (roots_of M.dist eps rows.now i) }
    ensures roots { AreRoots parents.new (roots_of M.dist eps rows.now (i + 1)) }
    ensures parents { AreParents parents.new }
    ensures lengths { length parents.new ≡ length parents.old }
    ensures few { steps.new ≤ steps.old + length rows.now.rows }
    ensures counts { steps.old ≤ steps.new }
    ensures room { length near.new ≡ length near.old }
{
    let _width = rows.width();
    let found = M::within_range::<L>(rows.row(i), rows, 0..i, eps, near, steps);
    join_each(parents, i, &near[..found]);
}

/// The parents of all places, once rows that are near each other are joined.
fn join_rows<M: Metric, L: Ledger>(
    alloc: Global,
    rows: &Block,
    eps: u32,
    steps: &mut Steps<L>,
) -> Result<Vec<usize>, AllocError>
    ensures lengths { IfOk result (λ parents. length parents.items ≡ length rows.now.rows) }
    ensures parents { IfOk result (λ parents. AreParents parents.items) }
    ensures roots { IfOk result
        (λ parents. AreRoots parents.items (all_roots M.dist eps rows.now)) }
    ensures few { steps.new ≤ steps.old + length rows.now.rows * length rows.now.rows }
    ensures counts { steps.old ≤ steps.new }
{
    let mut parents = own_places(alloc, rows.len())?;
    let mut near = vec![in alloc; 0usize; rows.len()]?;
    for i in 0..rows.len() {
        join_row::<M, L>(rows, i, eps, &mut parents, &mut near, steps);
    }
    Ok(parents)
}

/// The number of the root of each place.
fn root_numbers(
    alloc: Global,
    cores: &[Point<'_>],
    parents: &mut [usize],
) -> Result<Vec<Number>, AllocError>
    requires lengths { length parents.old ≡ length cores.now }
    requires parents { AreParents parents.old }
    ensures { IfOk result (λ labels. AreRootNumbers (entries_of cores.now) parents.old
        labels.items) }
{
    let mut labels = Vec::new(alloc);
    for i in 0..cores.len() {
        let root = find_root(parents, i);
        labels.push(cores[root].number)?;
    }
    Ok(labels)
}

/// The label of each core: the least core that a chain joins it with. `rows` are their vectors.
///
/// Each core begins as a tree of its own. Where two cores are near, their trees become one, and the
/// lesser of their roots is its root.
pub fn find_labels<M: Metric, L: Ledger>(
    alloc: Global,
    cores: &[Point<'_>],
    rows: &Block,
    eps: u32,
    steps: &mut Steps<L>,
) -> Result<Vec<Number>, AllocError>
    requires vectors { OfOneWidth cores.now }
    requires rising { T (is_sorted nat_cmp (entries_of cores.now)) }
    requires packed { ArePacked cores.now rows.now }
    ensures labels { IfOk result
        (λ labels. AreLabels (density M.dist eps 0) (entries_of cores.now) labels.items) }
    ensures few { steps.new ≤ steps.old + length cores.now * length cores.now }
    ensures counts { steps.old ≤ steps.new }
{
    let mut parents = join_rows::<M, L>(alloc, rows, eps, steps)?;
    root_numbers(alloc, cores, &mut parents)
}
