//! Changes applied to records.

ghost use Rattle.std.specs.Prelude.{◌≡◌, IfOk, IsOk, OnErr, OnOk};
ghost use Rattle.std.specs.List.{AllByRecursion};
ghost use Rattle.batch_text.specs.After.{CanApply, after, changed};
ghost use Rattle.batch_text.specs.Batch.{IsChangeOf};

use std::alloc::AllocError;
use vec_record::{Change, Changes, Params, Records};

/// Applies one change that can apply. After want of memory the records are as before.
pub fn apply_change(records: &mut Records, change: Change) -> Result<(), AllocError>
    requires fits { IsChangeOf records.old.width change }
    requires can { CanApply records.old.vectors change }
    ensures ok { OnOk result (records.new
        ≡ record records.old { vectors = changed records.old.vectors change }) }
    ensures err { OnErr result (records.new ≡ records.old) }
    ensures width { records.new.width ≡ records.old.width }
{
    match change {
        Change::Insert(number, vector) => records.insert(number, vector),
        Change::Delete(number) => {
            records.remove(number);
            Ok(())
        }
    }
}

/// Applies changes that `check_batch` accepts of these records and parameters, and that fit the
/// width of the records. The parameters say only what was accepted. After want of memory the
/// records have their width, and some of the changes.
pub fn apply_all(records: &mut Records, params: &Params, changes: Changes) -> Result<(), AllocError>
    requires accepted { IsOk (after params.now.cap records.old.vectors changes) }
    requires fits { AllByRecursion (IsChangeOf records.old.width) changes }
    ensures ok { OnOk result (IfOk (after params.now.cap records.old.vectors changes)
        (λ next. records.new ≡ record records.old { vectors = next })) }
    ensures width { records.new.width ≡ records.old.width }
{
    for change in changes.into_vec() {
        apply_change(records, change)?;
    }
    Ok(())
}
