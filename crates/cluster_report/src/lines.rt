//! Lines that are written behind a text.

ghost use Rattle.std.specs.Prelude.{◌≡◌, ◌++◌, ℕ, OnOk, codes};
ghost use Rattle.std.specs.Fmt.{decimal};
ghost use Rattle.std.specs.List.{flat_map};
ghost use Rattle.std.specs.String.{string_bytes};
ghost use Rattle.plain_dbscan.specs.declared.marks.Mark.{Mark as AnyMark};
ghost use Rattle.plain_dbscan.specs.Texts.{label_text};
ghost use Rattle.cluster_report.specs.Texts.{counts_text, member_text};

use crate::counts::Summary;
use plain_dbscan::Mark;
use std::alloc::AllocError;
use vec_record::Number;

/// The line of a number with its mark.
pub(crate) fn write_label(text: &mut String, number: Number, mark: Mark) -> Result<(), AllocError>
    ensures { OnOk result
        (string_bytes text.new ≡ string_bytes text.old ++ label_text number mark) }
{
    match mark {
        Mark::Core(label) => write!(text, "{number} core {label}\n"),
        Mark::Border(label) => write!(text, "{number} border {label}\n"),
        Mark::Noise => write!(text, "{number} noise\n"),
    }
}

/// The line of a member of a cluster.
pub(crate) fn write_member(text: &mut String, number: Number, mark: Mark) -> Result<(), AllocError>
    ensures { OnOk result
        (string_bytes text.new ≡ string_bytes text.old ++ member_text number mark) }
{
    match mark {
        Mark::Core(_) => write!(text, "{number} core\n"),
        Mark::Border(_) => write!(text, "{number} border\n"),
        Mark::Noise => Ok(()),
    }
}

/// The line of counts.
pub(crate) fn write_counts(text: &mut String, summary: &Summary) -> Result<(), AllocError>
    ensures { OnOk result
        (string_bytes text.new ≡ string_bytes text.old ++ counts_text summary.now) }
{
    let Summary {
        records,
        cores,
        borders,
        noise,
        clusters,
    } = *summary;
    write!(
        text,
        "records {records} cores {cores} borders {borders} noise {noise} clusters {clusters}\n"
    )
}

/// The line of each mark.
pub(crate) fn write_labels(text: &mut String, marks: &[(Number, Mark)]) -> Result<(), AllocError>
    ensures { OnOk result (string_bytes text.new ≡ string_bytes text.old
        ++ flat_map (λ (m : ℕ × AnyMark). label_text m.0 m.1) marks.now) }
{
    for (number, mark) in marks {
        write_label(text, *number, *mark)?;
    }
    Ok(())
}

/// The line of each member.
pub(crate) fn write_members(text: &mut String, members: &[(Number, Mark)]) -> Result<(), AllocError>
    ensures { OnOk result (string_bytes text.new ≡ string_bytes text.old
        ++ flat_map (λ (m : ℕ × AnyMark). member_text m.0 m.1) members.now) }
{
    for (number, mark) in members {
        write_member(text, *number, *mark)?;
    }
    Ok(())
}

/// A line for each number.
pub(crate) fn write_numbers(text: &mut String, numbers: &[Number]) -> Result<(), AllocError>
    ensures { OnOk result (string_bytes text.new ≡ string_bytes text.old
        ++ flat_map (λ (b : ℕ). decimal b ++ codes "\n") numbers.now) }
{
    for number in numbers {
        write!(text, "{number}\n")?;
    }
    Ok(())
}
