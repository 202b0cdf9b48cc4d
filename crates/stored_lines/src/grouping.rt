//! The cores of each label, listed.

ghost use Rattle.std.specs.Prelude.{◌≡◌, IfOk, OnOk};
ghost use Rattle.stored_lines.specs.inside.Steps.{AreGroups, IsTaken, IsPut};

use crate::line::Line;
use number_map::NumberMap;
use std::alloc::{AllocError, Global};
use vec_record::{Number, Numbers};

/// The numbers of the cores under their labels, each list in the order of the lines.
pub(crate) fn grouped(
    alloc: Global,
    minpts: u32,
    lines: &[Line],
) -> Result<NumberMap<Numbers>, AllocError>
    ensures { IfOk result (AreGroups minpts lines.now) }
{
    let mut groups = NumberMap::<Numbers>::new(alloc);
    for i in 0..lines.len() {
        take_in(alloc, minpts, lines[i], &mut groups)?;
    }
    Ok(groups)
}

// Lists a line under its label, where it is a core's.
fn take_in(
    alloc: Global,
    minpts: u32,
    line: Line,
    groups: &mut NumberMap<Numbers>,
) -> Result<(), AllocError>
    ensures { OnOk result (IsTaken minpts line groups.old groups.new) }
{
    if minpts <= line.count {
        put(alloc, groups, line.label, line.number)
    } else {
        Ok(())
    }
}

// Lists a number under a label.
fn put(
    alloc: Global,
    groups: &mut NumberMap<Numbers>,
    label: Number,
    number: Number,
) -> Result<(), AllocError>
    ensures { OnOk result (IsPut label number groups.old groups.new) }
{
    match groups.get_mut(label) {
        Some(numbers) => numbers.push(number),
        None => {
            let mut numbers = Numbers::new(alloc);
            numbers.push(number)?;
            groups.insert(label, numbers)
        }
    }
}
