//! Changes copied, and events behind others.
ghost use Rattle.std.specs.Prelude.{◌≡◌, ◌++◌, IfOk, OnOk};

use std::alloc::{AllocError, Global};
use vec_record::{Change, Changes, Event, Events};

/// The same change once more.
fn copy_change(change: &Change) -> Result<Change, AllocError>
    ensures { IfOk result (λ copy. copy ≡ change.now) }
{
    match change {
        Change::Insert(number, vector) => Ok(Change::Insert(*number, vector.copy()?)),
        Change::Delete(number) => Ok(Change::Delete(*number)),
    }
}

/// The same changes once more.
pub(crate) fn copy_changes(alloc: Global, changes: &[Change]) -> Result<Changes, AllocError>
    ensures { IfOk result (λ copy. copy ≡ changes.now) }
{
    let mut copy = Changes::new(alloc);
    for change in changes {
        copy.push(copy_change(change)?)?;
    }
    Ok(copy)
}

/// Appends events.
pub(crate) fn append_events(events: &[Event], out: &mut Events) -> Result<(), AllocError>
    ensures { OnOk result (out.new ≡ out.old ++ events.now) }
{
    for event in events {
        out.push(*event)?;
    }
    Ok(())
}
