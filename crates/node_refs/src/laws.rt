//! Laws over the definitions. Each is the contract of a function that does nothing.

ghost use Rattle.node_refs.specs.Laws.{TreesAreListed, RootsAreUsed, EachHasOne, NoneTwice};
ghost use Rattle.node_refs.specs.Laws.{FewNodes, RootsAreFirst, ObjectsAreKept, FailsInside};
ghost use Rattle.node_refs.specs.Laws.{TagsAreReferences, TreesAreLaid, RootsStandFirst, ListedCanBeBuilt};

/// A well-formed tree that was laid in pages, its nodes at used places and no other place used, is
/// listed from the root's reference as its preorder, with the references for the tags.
pub fn trees_are_listed()
    ensures { TreesAreListed }
{}

/// The root of such a tree is at a used place of its level's kind.
pub fn roots_are_used()
    ensures { RootsAreUsed }
{}

/// Where the listed nodes are the preorder of a well-formed tree, the pages hold that tree and no
/// other place is used.
pub fn trees_are_laid()
    ensures { TreesAreLaid }
{}

/// The root's reference is the first.
pub fn roots_stand_first()
    ensures { RootsStandFirst }
{}

/// As many nodes as references are listed.
pub fn each_has_one()
    ensures { EachHasOne }
{}

/// Each listed node has its reference for the tag.
pub fn tags_are_references()
    ensures { TagsAreReferences }
{}

/// No place is listed twice.
pub fn none_twice()
    ensures { NoneTwice }
{}

/// No more nodes are listed than there are places: 63 for each leaf page and one for each inner
/// page.
pub fn few_nodes()
    ensures { FewNodes }
{}

/// The first node listed is of the root's level.
pub fn roots_are_first()
    ensures { RootsAreFirst }
{}

/// The listed nodes keep the width of the objects and the greatest radius of the pages.
pub fn objects_are_kept()
    ensures { ObjectsAreKept }
{}

/// Where a walk over the listed nodes fails, the place names one of them and one of few entries, or
/// a record that none names: so [`place_of`](crate::place_of) can be asked.
pub fn fails_inside()
    ensures { FailsInside }
{}

/// The listed nodes can be handed to [`mtree_node::build`] with some records, on at most 6 levels,
/// where the pages have room for at most 200,000 nodes.
pub fn listed_can_be_built()
    ensures { ListedCanBeBuilt }
{}
