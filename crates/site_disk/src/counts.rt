//! The counters of a source or a site in memory.
ghost use Rattle.std.specs.Prelude.{◌≡◌, ◌==◌, ◌↔◌, OnOk, OnErr, IsErr, IsTrue};
ghost use Rattle.std.specs.List.{list_any};
ghost use Rattle.site_disk.specs.Counts.{rise, is_past, is_due};

use crate::source::Failed;
use vec_record::Number;

/// Whether the list has the number of a call.
fn is_listed(fail: &[Number], call: u64) -> bool
    ensures { result ≡ list_any (λ n. n == call) fail.now }
{
    fail.iter().any(|n| u64::from(*n) == call)
}

/// Whether a call comes after the stop.
fn is_past_stop(stop: Option<u32>, call: u64) -> bool
    ensures { result ≡ is_past stop call }
{
    match stop {
        Some(last) => u64::from(last) < call,
        None => false,
    }
}

/// Counts a call, and a fault where the call is to fail.
pub(crate) fn begin(
    fail: &[Number],
    stop: Option<u32>,
    made: &mut u64,
    faults: &mut u64,
) -> Result<(), Failed>
    ensures made { made.new ≡ rise made.old }
    ensures due { IsErr result ↔ IsTrue (is_due fail.now stop made.old) }
    ensures ok { OnOk result (faults.new ≡ faults.old) }
    ensures err { OnErr result (faults.new ≡ rise faults.old) }
{
    *made = made.saturating_add(1);
    let call = *made;
    if is_listed(fail, call) || is_past_stop(stop, call) {
        *faults = faults.saturating_add(1);
        return Err(Failed);
    }
    Ok(())
}
