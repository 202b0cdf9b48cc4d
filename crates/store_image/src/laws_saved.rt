//! Laws over the pages that a save leads to. Each is the contract of a function that does nothing.

ghost use Rattle.store_image.specs.SavedLaws.{SavedAreLawful, SavedAreRead, SavedLoad};

use mtree_index::laws::trees_are_small;
use mtree_node::laws::trees_can_be_built;
use node_places::laws::records_stand;
use node_walks::laws::distances_are_alike;
use page_layout::laws::{bodies_have_one_spelling, heads_have_one_spelling, written_are_pages};
use stored_tree::laws::laid_trees_are_read;
use tree_layout::laws::{layouts_are_sized, nodes_are_laid};
use tree_objects::laws::{shapes_have_all, trees_have_few_shapes};

/// What is saved can be written: the head is lawful, and so is each body page.
pub(crate) fn saved_are_lawful()
    ensures { SavedAreLawful }
{
    layouts_are_sized();
    records_stand();
    trees_are_small();
    trees_have_few_shapes();
    trees_can_be_built();
    shapes_have_all();
}

/// What is saved is read again: its head and its body pages, no more than needed, and no number in
/// two slots.
pub(crate) fn saved_are_read()
    ensures { SavedAreRead }
{
    layouts_are_sized();
    records_stand();
    trees_are_small();
    trees_have_few_shapes();
    trees_can_be_built();
    shapes_have_all();
    heads_have_one_spelling();
    bodies_have_one_spelling();
    written_are_pages();
}

/// Where the clusters hang on cores, what is saved loads as what it was.
pub(crate) fn saved_load()
    ensures { SavedLoad }
{
    layouts_are_sized();
    records_stand();
    trees_are_small();
    trees_have_few_shapes();
    trees_can_be_built();
    shapes_have_all();
    nodes_are_laid();
    laid_trees_are_read();
    distances_are_alike();
    saved_are_read();
}
