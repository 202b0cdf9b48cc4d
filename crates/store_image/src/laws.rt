//! Laws over the definitions. Each is the contract of a function that does nothing.

ghost use Rattle.store_image.specs.Stores.{SameOpeningsAreAlike, LoadsAreStores, NewStoresLoad};
ghost use Rattle.store_image.specs.Stores.{NewStoresAreDue, HeadsCountPages, DueLinesStand};
ghost use Rattle.store_image.specs.Stores.{StandingAreHung, RefusalsAreOfContents};
ghost use Rattle.store_image.specs.Stores.{LoadsCountRecords};

use page_layout::laws::{heads_have_one_spelling, written_are_pages};

/// Contents that the gate checks answer alike, with the same list of pages, are alike as stores:
/// in the refusal of an opening, the records, the number of batches, the parameters, whether their
/// lines are due, and whether they are sound.
pub fn same_openings_are_alike()
    ensures { SameOpeningsAreAlike }
{}

/// A list of pages that loads, with the lines that are due, is, behind the gate, a store with the
/// records, the parameters and the number of batches that were loaded.
pub fn loads_are_stores()
    ensures { LoadsAreStores }
{}

/// Where a list of pages loads, its lines are due exactly where the clusters that were loaded stand
/// for the records.
pub fn due_lines_stand()
    ensures { DueLinesStand }
{}

/// Clusters that stand for records hang on cores.
pub fn standing_are_hung()
    ensures { StandingAreHung }
{}

/// A list of pages that loads has as many records as its head page says.
pub fn loads_count_records()
    ensures { LoadsCountRecords }
{}

/// The head page of a new store, alone, loads as no records, and has no line that isn't due.
pub fn new_stores_load()
    ensures loads { NewStoresLoad }
    ensures due { NewStoresAreDue }
{
    heads_have_one_spelling();
    written_are_pages();
}

/// The gate counts as many pages as a head page says.
pub fn heads_count_pages()
    ensures { HeadsCountPages }
{
    heads_have_one_spelling();
    written_are_pages();
}

/// An opening is refused for what the content is: never by a fault of the site, and never by want
/// of memory.
pub fn refusals_are_of_contents()
    ensures { RefusalsAreOfContents }
{}
