//! The texts, each appended in one go.

ghost use Rattle.std.specs.Prelude.{◌≡◌, ◌++◌, OnOk, OnErr};
ghost use Rattle.plain_dbscan.specs.Texts as text;
ghost use Rattle.cluster_report.specs.Texts as more;

use crate::counts::{Summary, count_marks};
use crate::lines::{write_counts, write_label, write_labels, write_members, write_numbers};
use plain_dbscan::{Mark, Marks};
use std::alloc::AllocError;
use vec_record::{Bytes, Number, Numbers};

/// Appends the line of a number with its mark.
pub fn label_text(number: Number, mark: Mark, out: &mut Bytes) -> Result<(), AllocError>
    ensures ok { OnOk result (out.new ≡ out.old ++ text.label_text number mark) }
    ensures err { OnErr result (out.new ≡ out.old) }
{
    let mut line = String::new(out.allocator());
    write_label(&mut line, number, mark)?;
    out.append(line.as_bytes())
}

/// Appends the line of counts.
pub fn counts_text(summary: &Summary, out: &mut Bytes) -> Result<(), AllocError>
    ensures ok { OnOk result (out.new ≡ out.old ++ more.counts_text summary.now) }
    ensures err { OnErr result (out.new ≡ out.old) }
{
    let mut line = String::new(out.allocator());
    write_counts(&mut line, summary)?;
    out.append(line.as_bytes())
}

/// Appends the counts of marks.
pub fn summary_text(marks: &Marks, out: &mut Bytes) -> Result<(), AllocError>
    ensures ok { OnOk result (out.new ≡ out.old ++ text.summary_text marks.now) }
    ensures err { OnErr result (out.new ≡ out.old) }
{
    counts_text(&count_marks(marks.as_slice()), out)
}

/// Appends the line of each number with its mark, and then the counts.
pub fn report_text(marks: &Marks, out: &mut Bytes) -> Result<(), AllocError>
    ensures ok { OnOk result (out.new ≡ out.old ++ text.report_text marks.now) }
    ensures err { OnErr result (out.new ≡ out.old) }
{
    let marks = marks.as_slice();
    let mut report = String::new(out.allocator());
    write_labels(&mut report, marks)?;
    write_counts(&mut report, &count_marks(marks))?;
    out.append(report.as_bytes())
}

/// Appends the label and the size of a cluster, and then the line of each member.
pub fn members_text(label: Number, members: &Marks, out: &mut Bytes) -> Result<(), AllocError>
    ensures ok { OnOk result (out.new ≡ out.old ++ more.members_text label members.now) }
    ensures err { OnErr result (out.new ≡ out.old) }
{
    let members = members.as_slice();
    let size = members.len();
    let mut text = format!(in out.allocator(); "cluster {label} size {size}\n")?;
    write_members(&mut text, members)?;
    out.append(text.as_bytes())
}

/// Appends a number and its size, and then a line for each number near it.
pub fn near_text(number: Number, near: &Numbers, out: &mut Bytes) -> Result<(), AllocError>
    ensures ok { OnOk result (out.new ≡ out.old ++ more.near_text number near.now) }
    ensures err { OnErr result (out.new ≡ out.old) }
{
    let near = near.as_slice();
    let size = near.len();
    let mut text = format!(in out.allocator(); "near {number} size {size}\n")?;
    write_numbers(&mut text, near)?;
    out.append(text.as_bytes())
}
