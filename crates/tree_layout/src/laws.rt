//! Laws over the definitions. Each is the contract of a function that does nothing.

ghost use Rattle.tree_layout.specs.Laws.{NodesAreLaid, LayoutsAreSized};

/// After a save the pages hold each node at its reference, none twice, and no other place is used.
pub fn nodes_are_laid()
    ensures { NodesAreLaid }
{}

/// After a save the slots are those of the pages, there are no more pages of a kind than before or
/// than are needed, and each node has a reference that isn't 0 and names a body page.
pub fn layouts_are_sized()
    ensures { LayoutsAreSized }
{}
