//! Laws over the definitions. Each is the contract of a function that does nothing.

ghost use Rattle.mtree_index.specs.Laws.{HaveAnEntryForEach, HaveFewEntries, HaveFewLeaves};
ghost use Rattle.mtree_index.specs.Laws.{HaveFewInnerNodes, AreLow, QueriesAreCheap};

/// A well-formed tree of n records, n being the size of the map that it holds, has n leaf entries,
/// at most `2 * n` entries, `n / 7 + 1` leaves and `n / 42 + 1` inner nodes, and at most 6 levels
/// where n is at most 200,000.
pub fn trees_are_small()
    ensures records { HaveAnEntryForEach }
    ensures entries { HaveFewEntries }
    ensures leaves { HaveFewLeaves }
    ensures inner_nodes { HaveFewInnerNodes }
    ensures levels { AreLow }
{}

/// A range query over a tree that holds n records computes at most `2 * n` distances.
pub fn queries_are_cheap()
    ensures { QueriesAreCheap }
{}
