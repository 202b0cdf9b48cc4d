//! Laws of the definitions, for whoever stands above: each is the contract of a call that does
//! nothing.
ghost use Rattle.std.specs.Prelude.{◌↔◌, ℕ, List, IsTrue};
ghost use Rattle.vec_record.specs.Vectors.{AreBytes};
ghost use Rattle.site_disk.specs.Disk.{IsImage, IsWithin};
ghost use Rattle.site_disk.specs.State.{Joins};
ghost use Rattle.site_disk.specs.Runs.{EachJoins, at_end};

use crate::mem_site::MemSite;
use crate::mem_source::MemSource;
use crate::site::Site;
use crate::source::Source;

/// What the disk model gives is, byte by byte, this: each written range may hold any bytes, what
/// lies past the old end, up to the furthest write, may hold any bytes or be missing from the end,
/// and all other bytes stay.
pub fn images_stay_within_the_written_ranges()
    ensures { (base : List ℕ) (ranges : List (ℕ × ℕ)) (image : List ℕ) → AreBytes base
        → IsImage base ranges image ↔ IsWithin base ranges image }
{}

/// Moments since a time before a list of calls are those since that time before them and those
/// since their start. The list has what the site was after each of the calls.
pub fn moments_join_through_calls<T: Site>(site: &T)
    ensures { (first : T) (calls : List T) → IsTrue T.tells → EachJoins T.state first calls
        → Joins (T.state first) (T.state (at_end first calls)) }
{}

/// The site and the source in memory tell, so that what is promised where they do is promised of
/// them.
pub fn memory_tells()
    ensures site { IsTrue ⟦<MemSite as Site>⟧.tells }
    ensures source { IsTrue ⟦<MemSource as Source>⟧.tells }
{}
