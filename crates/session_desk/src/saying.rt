//! One text said, which ends a run.

ghost use Rattle.std.specs.Prelude.{◌≡◌, ◌≤◌, ◌++◌, ◌⊎◌, ℕ, IsTrue, false, take};
ghost use Rattle.site_disk.specs.Causes.{Rose};
ghost use Rattle.site_disk.specs.State.{Safe};
ghost use Rattle.session_desk.specs.Moments.{IsSaying, LeavesAlone};
ghost use Rattle.session_desk.specs.Statuses.{is_fault};

use crate::status::Status;
use site_disk::Site;

/// Says a text, which ends the run with a status.
pub fn say<T: Site>(site: &mut T, status: Status, text: &[u8]) -> Status
    requires { is_fault status ≡ false }
    ensures status { (result ≡ status) ⊎ (result ≡ Status.SiteFault) }
    ensures said { IsTrue T.tells → is_fault result ≡ false → (T.state site.new).said
        ≡ (T.state site.old).said ++ text.now }
    ensures prefix { IsTrue T.tells → (n : ℕ)
        × ((T.state site.new).said ≡ (T.state site.old).said ++ take n text.now) }
    ensures moments { IsTrue T.tells
        → Safe (T.state site.old) (T.state site.new) (IsSaying (T.state site.old) text.now) }
    ensures alone { IsTrue T.tells → LeavesAlone (T.state site.old) (T.state site.new) }
    ensures fault { result ≡ Status.SiteFault → Rose (T.faults site.old) (T.faults site.new) }
    ensures later { T.faults site.old ≤ T.faults site.new }
{
    match site.say(text) {
        Ok(()) => status,
        Err(_) => Status::SiteFault,
    }
}
