//! Laws over the definitions. Each is the contract of a function that does nothing.

ghost use Rattle.tree_objects.specs.Laws.{InsertionsKeep, InsertedKeep, RemovalsKeep, RemovedKeep};
ghost use Rattle.tree_objects.specs.Laws.{TagsKeep, EmptyHasAll, ShapesHaveAll, RecordsHaveAll};
ghost use Rattle.tree_objects.specs.Laws.{TreesHaveAll, BuiltHaveAll};
ghost use Rattle.tree_objects.specs.Sizes.{HaveFewLeafShapes, HaveFewInnerShapes};
ghost use Rattle.tree_objects.specs.Sizes.{HaveALeafShape, HaveTwoKinds};

/// Where a vector has a property and all in a tree have it, so have all in the tree after the
/// vector's insertion.
pub fn insertions_keep()
    ensures after { InsertionsKeep }
    ensures related { InsertedKeep }
{}

/// Where all in a tree have a property, so have all in the tree after a removal.
pub fn removals_keep()
    ensures after { RemovalsKeep }
    ensures related { RemovedKeep }
{}

/// Where all in a tree have a property, so have all in the tree with other tags.
pub fn tags_keep()
    ensures { TagsKeep }
{}

/// All in the empty tree have any property.
pub fn empty_has_all()
    ensures { EmptyHasAll }
{}

/// Where all in a tree have a property, so have the routing objects of its preorder and the
/// vectors of its records.
pub fn shapes_have_all()
    ensures shapes { ShapesHaveAll }
    ensures records { RecordsHaveAll }
{}

/// Where the routing objects of a well-formed tree's preorder and the vectors of its records have
/// a property, so have all in the tree.
pub fn trees_have_all()
    ensures tree { TreesHaveAll }
    ensures built { BuiltHaveAll }
{}

/// The preorder of a well-formed tree of n leaf entries has at most `n / 7 + 1` leaves, at least
/// one, and at most `n / 42 + 1` inner nodes, and nothing else.
pub fn trees_have_few_shapes()
    ensures leaves { HaveFewLeafShapes }
    ensures some { HaveALeafShape }
    ensures inner_nodes { HaveFewInnerShapes }
    ensures kinds { HaveTwoKinds }
{}
