//! Two callers over any site. They show that promises over every moment go on from call to call.
ghost use Rattle.std.specs.Prelude.{◌≡◌, ◌++◌, OnOk, ◌≤◌, ◌+◌, ◌-◌, ◌^◌, length, IsTrue};
ghost use Rattle.site_disk.specs.Causes.{HasCause};
ghost use Rattle.site_disk.specs.State.{Safe};
ghost use Rattle.site_disk.specs.Written.{IsSettledState, WritesTwice};
ghost use Rattle.site_disk.specs.Often.{IsCalm, lines};

use crate::site::Site;
use crate::source::Failed;

/// Writes, makes that the only image, writes again, and then says a line.
pub fn write_twice<T: Site>(
    site: &mut T,
    at: u64,
    bytes: &[u8],
    next: u64,
    more: &[u8],
    line: &[u8],
) -> Result<(), Failed>
    requires first { at + length bytes.now ≤ 2 ^ 63 - 1 }
    requires second { next + length more.now ≤ 2 ^ 63 - 1 }
    requires settled { IsTrue T.tells → IsSettledState (T.state site.old) }
    ensures cause { HasCause (T.faults site.old) (T.faults site.new) result }
    ensures told { IsTrue T.tells
        → WritesTwice at bytes.now next more.now line.now result (T.state site.old)
        (T.state site.new) }
{
    site.write_at(at, bytes)?;
    site.sync()?;
    site.write_at(next, more)?;
    site.say(line)
}

/// Says a line some times, with a sync after each.
pub fn say_often<T: Site>(site: &mut T, line: &[u8], times: usize) -> Result<(), Failed>
    ensures cause { HasCause (T.faults site.old) (T.faults site.new) result }
    ensures told { IsTrue T.tells
        → Safe (T.state site.old) (T.state site.new) (IsCalm (T.state site.old)) }
    ensures said { IsTrue T.tells
        → OnOk result ((T.state site.new).said ≡ (T.state site.old).said ++ lines times line.now) }
{
    for _i in 0..times {
        site.say(line)?;
        site.sync()?;
    }
    Ok(())
}
