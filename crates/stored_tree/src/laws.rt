//! Laws over the definitions. Each is the contract of a function that does nothing.

ghost use Rattle.stored_tree.specs.Laws.{LaidTreesAreRead};

/// A lawful tree whose nodes stand in pages at references, and nothing else, is read from the first
/// of them as that tree, with the references for its tags.
pub fn laid_trees_are_read()
    ensures { LaidTreesAreRead }
{}
