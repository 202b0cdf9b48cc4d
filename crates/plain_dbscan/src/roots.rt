//! Trees of places, each known by its root, the least place in it.

ghost use Rattle.std.specs.Prelude.{◌≡◌, ◌<◌, length, slice_index, IfOk};
ghost use Rattle.std.specs.List.{AllByRecursion, range_with_len};
ghost use Rattle.plain_dbscan.specs.inside.Roots.{AreParents, IsRootOf, HaveRoots, joined_pair};
ghost use Rattle.plain_dbscan.specs.inside.Roots.{joined_each};

use std::alloc::{AllocError, Global};

/// Each place as a tree of its own.
pub fn own_places(alloc: Global, count: usize) -> Result<Vec<usize>, AllocError>
    ensures { IfOk result (λ parents. parents.items ≡ range_with_len 0 count) }
{
    let mut parents = Vec::new(alloc);
    for place in 0..count {
        parents.push(place)?;
    }
    Ok(parents)
}

/// The root of the tree of a place. On the way each second place is hung up higher, so that later
/// ways are short.
pub fn find_root(parents: &mut [usize], place: usize) -> usize
    requires place { place < length parents.old }
    requires parents { AreParents parents.old }
    ensures root { IsRootOf parents.old place result }
    ensures roots { HaveRoots parents.old parents.new (λ roots. roots) }
    ensures parents { AreParents parents.new }
    ensures lengths { length parents.new ≡ length parents.old }
    ensures below { result < length parents.old }
    ensures own { slice_index parents.new result ≡ result }
{
    let mut at = place;
    while parents[at] != at {
        let above = parents[parents[at]];
        parents[at] = above;
        at = above;
    }
    at
}

/// Joins the trees of two places. The lesser root stays.
fn join(parents: &mut [usize], i: usize, j: usize)
    requires first { i < length parents.old }
    requires second { j < length parents.old }
    requires parents { AreParents parents.old }
    ensures roots { HaveRoots parents.old parents.new (joined_pair i j) }
    ensures parents { AreParents parents.new }
    ensures lengths { length parents.new ≡ length parents.old }
{
    let a = find_root(parents, i);
    let b = find_root(parents, j);
    if a < b {
        parents[b] = a;
    } else {
        parents[a] = b;
    }
}

/// Joins the tree of a place with those of several others.
pub fn join_each(parents: &mut [usize], i: usize, places: &[usize])
    requires first { i < length parents.old }
    requires places { AllByRecursion (λ k. k < length parents.old) places.now }
    requires parents { AreParents parents.old }
    ensures roots { HaveRoots parents.old parents.new (joined_each i places.now) }
    ensures parents { AreParents parents.new }
    ensures lengths { length parents.new ≡ length parents.old }
{
    for j in places {
        // Most often both hang at one parent already, which one look tells.
        if parents[*j] != parents[i] {
            join(parents, i, *j);
        }
    }
}
