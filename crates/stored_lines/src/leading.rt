//! The clusters whose label is a core with itself as label.

ghost use Rattle.std.specs.Prelude.{◌≡◌, true, IfOk, OnOk};
ghost use Rattle.std.specs.FinMap as map;
ghost use Rattle.stored_lines.specs.Lines.{AreLines};
ghost use Rattle.stored_lines.specs.inside.Steps.{is_leader, numbers_in, IsReady, IsLed};
ghost use Rattle.stored_lines.specs.inside.Steps.{IsLedBy};

use crate::grouping::grouped;
use crate::line::Line;
use label_book::LabelBook;
use number_map::NumberMap;
use std::alloc::{AllocError, Global};
use vec_record::Numbers;

/// The labels of all cores whose label leads a cluster.
pub(crate) fn led(alloc: Global, minpts: u32, lines: &[Line]) -> Result<LabelBook, AllocError>
    requires { AreLines minpts lines.now }
    ensures { IfOk result (IsLed minpts lines.now lines.now) }
{
    let groups = grouped(alloc, minpts, lines)?;
    let mut labels = LabelBook::new(alloc);
    for i in 0..lines.len() {
        lead(minpts, lines[i], &groups, &mut labels)?;
    }
    Ok(labels)
}

// Founds the cluster that a line leads, where it leads one.
fn lead(
    minpts: u32,
    line: Line,
    groups: &NumberMap<Numbers>,
    labels: &mut LabelBook,
) -> Result<(), AllocError>
    requires { is_leader minpts line ≡ true
        → IsReady labels.old line.number (numbers_in (map.get groups.now line.number)) }
    ensures { OnOk result (IsLedBy minpts line (numbers_in (map.get groups.now line.number))
        labels.old labels.new) }
{
    if minpts <= line.count && line.label == line.number {
        if let Some(group) = groups.get(line.number) {
            labels.found(group)?;
        }
    }
    Ok(())
}
