//! Laws over the definitions. Each is the contract of a function that does nothing.

ghost use Rattle.node_places.specs.Laws.{RecordsStand, LeavesStand, InnersStand, NodesHaveRefs};
ghost use Rattle.node_places.specs.Laws.{PagesAreEnough, RefsAreParted, RefsNameSlots};
ghost use Rattle.node_places.specs.Laws.{RefsAreByPages, KindsAreCounted};

/// Where no number stood in two slots, each record stands in one slot after a save, and nothing
/// else does; there are no fewer slots, and no page more than the records or the old slots fill.
pub fn records_stand()
    ensures { RecordsStand }
{}

/// Each leaf stands in one leaf slot after a save, and nothing else does; there are no fewer pages,
/// and none more than the leaves or the old pages fill.
pub fn leaves_stand()
    ensures { LeavesStand }
{}

/// The same of the inner nodes and their pages.
pub fn inners_stand()
    ensures { InnersStand }
{}

/// Nodes that stand in slots of the pages have references: each that of its slot, none twice and
/// none 0.
pub fn nodes_have_refs()
    ensures { NodesHaveRefs }
{}

/// After a save the pages have exactly the slots that the nodes by slot have.
pub fn pages_are_enough()
    ensures { PagesAreEnough }
{}

/// The references of leaf slots rise, so do those of inner pages, and they share none.
pub fn refs_are_parted()
    ensures { RefsAreParted }
{}

/// A reference is 64 times a page of its kind, and a slot in it.
pub fn refs_name_slots()
    ensures { RefsNameSlots }
{}

/// The references go page by page: as many as the pages of the kind have slots, and those of added
/// pages come behind.
pub fn refs_are_by_pages()
    ensures { RefsAreByPages }
{}

/// After a save a kind has as many pages as it needs, and no fewer than before.
pub fn kinds_are_counted()
    ensures { KindsAreCounted }
{}
