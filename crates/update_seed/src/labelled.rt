//! Numbers beside their labels, brought into order by label.

ghost use Rattle.std.specs.Prelude.{IfOk};
ghost use Rattle.update_seed.specs.inside.Split.{IsByLabel, IsReordered, AreUnder, AreLabelsOf};

use std::alloc::{AllocError, Global};
use vec_record::{Number, Numbers};

/// A number and its label.
#[derive(Clone, Copy)]
pub(crate) struct Labelled {
    pub(crate) label: Number,
    pub(crate) number: Number,
}

/// The same numbers by rising label.
pub(crate) fn sorted(mut list: Vec<Labelled>) -> Vec<Labelled>
    ensures same { IsReordered list.items result.items }
    ensures order { IsByLabel result.items }
{
    list.sort_unstable_by_key(|one| one.label);
    list
}

/// The numbers with this label, out of a list by rising label.
pub(crate) fn with_label(
    alloc: Global,
    list: &[Labelled],
    label: Number,
) -> Result<Numbers, AllocError>
    requires { IsByLabel list.now }
    ensures { IfOk result (AreUnder list.now label) }
{
    let start = list.partition_point(|one| one.label < label);
    let end = list.partition_point(|one| one.label <= label);
    let mut numbers = Numbers::new(alloc);
    for i in start..end {
        numbers.push(list[i].number)?;
    }
    Ok(numbers)
}

/// The labels, each once and rising, out of a list by rising label.
pub(crate) fn labels_in(alloc: Global, list: &[Labelled]) -> Result<Vec<Number>, AllocError>
    requires { IsByLabel list.now }
    ensures { IfOk result (λ r. AreLabelsOf list.now r.items) }
{
    let mut labels = Vec::new(alloc);
    for i in 0..list.len() {
        if i == 0 || list[i - 1].label < list[i].label {
            labels.push(list[i].label)?;
        }
    }
    Ok(labels)
}
