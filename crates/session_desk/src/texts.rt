//! The texts of refusals and of dropped watchers.

ghost use Rattle.std.specs.Prelude.{◌≡◌, ◌++◌, OnOk};
ghost use Rattle.session_desk.specs.Answers.{refusal_line as line_of_refusal};
ghost use Rattle.session_desk.specs.Session.{dropped_line as line_of_drop};

use std::alloc::AllocError;
use vec_record::Bytes;

/// Appends the line of a refusal.
pub fn refusal_line(number: u32, place: Option<u32>, out: &mut Bytes) -> Result<(), AllocError>
    ensures { OnOk result (out.new ≡ out.old ++ line_of_refusal number place) }
{
    let alloc = out.allocator();
    match place {
        None => {
            let line = format!(in alloc; "refused {number}\n")?;
            out.append(line.as_bytes())
        }
        Some(place) => {
            let line = format!(in alloc; "refused {number} at {place}\n")?;
            out.append(line.as_bytes())
        }
    }
}

/// Appends that the watcher of a slot was dropped.
pub fn dropped_line(slot: u32, out: &mut Bytes) -> Result<(), AllocError>
    ensures { OnOk result (out.new ≡ out.old ++ line_of_drop slot) }
{
    let line = format!(in out.allocator(); "dropped {slot}\n")?;
    out.append(line.as_bytes())
}
