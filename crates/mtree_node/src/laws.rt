//! Laws over the definitions. Each is the contract of a function that does nothing.

ghost use Rattle.mtree_node.specs.Laws.{TreesComeBack, TreesCanBeBuilt, TagsAreFree};
ghost use Rattle.mtree_node.specs.Laws.{TagsAreInPreorder};

/// The walk over the preorder of a well-formed tree and its records builds that very tree: it
/// reaches each shape and names each record.
pub fn trees_come_back()
    ensures { TreesComeBack }
{}

/// The preorder of a well-formed tree of at most 6 levels and 200,000 nodes can be built over the
/// tree's records.
pub fn trees_can_be_built()
    ensures { TreesCanBeBuilt }
{}

/// A well-formed tree stays so with whatever tags.
pub fn tags_are_free()
    ensures { TagsAreFree }
{}

/// New tags, one for each node, stand in the preorder one after the other.
pub fn tags_are_in_preorder()
    ensures { TagsAreInPreorder }
{}
