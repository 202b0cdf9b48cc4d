//! Laws of the definitions, for whoever stands above: each is the contract of a call that does
//! nothing.
ghost use Rattle.session_desk.specs.Courses.{SessionsHaveNoFaults};
ghost use Rattle.session_desk.specs.Lives.{LivesKeepBatches, RunsStartSound};

use site_disk::Site;
use store_image::laws::refusals_are_of_contents;

/// Runs of `serve` one after another, each over what the run before left, however it was cut off:
/// what the last may leave is a sound store, whose records are those after, for each run, the
/// first of its accepted batches, all that it had acknowledged among them.
pub fn lives_keep_batches<T: Site>(site: &T)
    ensures { LivesKeepBatches T.state }
{}

/// In every life each run starts on a sound store.
pub fn runs_start_sound<T: Site>(site: &T)
    ensures { RunsStartSound T.state }
{}

/// No session ends with a fault: want of memory, and faults of the site and of the source, are
/// those of a run alone.
pub fn sessions_have_no_faults()
    ensures { SessionsHaveNoFaults }
{
    refusals_are_of_contents();
}
