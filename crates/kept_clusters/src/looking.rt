//! The marks that the two books give numbers.

ghost use Rattle.std.specs.Prelude.{◌≡◌, ℕ, filter, IfOk};
ghost use Rattle.std.specs.FinMap as map;
ghost use Rattle.plain_dbscan.specs.declared.marks.Mark.{Mark as AnyMark};
ghost use Rattle.plain_dbscan.specs.Cases.{is_member_of};
ghost use Rattle.cluster_report.specs.Counts.{summary_of};
ghost use Rattle.kept_clusters.specs.inside.Looked.{border_of, hung_mark};
ghost use Rattle.kept_clusters.specs.inside.Looked.{mark_in_books, marks_in_books};

use cluster_report::Summary;
use count_book::CountBook;
use label_book::LabelBook;
use plain_dbscan::{Mark, Marks, names_cluster};
use std::alloc::{AllocError, Global};
use vec_record::{Number, Records};

/// The mark of a number, noise where neither book has it.
#[inline]
pub(crate) fn look_up(counts: &CountBook, labels: &LabelBook, number: Number) -> Mark
    ensures { result ≡ mark_in_books counts.now labels.now number }
{
    match labels.label_of(number) {
        Some(label) => Mark::Core(label),
        None => hung_mark(labels, counts.anchor_of(number)),
    }
}

// A border with the label of its anchor, or noise where it has none.
fn hung_mark(labels: &LabelBook, anchor: Option<Number>) -> Mark
    ensures { result ≡ hung_mark labels.now anchor }
{
    match anchor {
        Some(core) => border_of(labels.label_of(core)),
        None => Mark::Noise,
    }
}

// A border with this label. An anchor of records always has one.
fn border_of(label: Option<Number>) -> Mark
    ensures { result ≡ border_of label }
{
    match label {
        Some(label) => Mark::Border(label),
        None => Mark::Noise,
    }
}

/// The numbers of records with their marks, rising.
pub(crate) fn list_marks(
    alloc: Global,
    counts: &CountBook,
    labels: &LabelBook,
    records: &Records,
) -> Result<Marks, AllocError>
    ensures { IfOk result (λ marks. marks
        ≡ marks_in_books counts.now labels.now (map.entries records.now.vectors)) }
{
    let mut marks = Marks::new(alloc);
    for (number, _) in records.iter() {
        marks.push((*number, look_up(counts, labels, *number)))?;
    }
    Ok(marks)
}

/// Those of them that are members of the cluster with a label.
pub(crate) fn list_members(
    alloc: Global,
    counts: &CountBook,
    labels: &LabelBook,
    records: &Records,
    label: Number,
) -> Result<Marks, AllocError>
    ensures { IfOk result (λ members. members
        ≡ filter (λ (m : ℕ × AnyMark). is_member_of label m.1)
        (marks_in_books counts.now labels.now (map.entries records.now.vectors))) }
{
    let mut members = Marks::new(alloc);
    for (number, _) in records.iter() {
        let mark = look_up(counts, labels, *number);
        if is_member_of(label, mark) {
            members.push((*number, mark))?;
        }
    }
    Ok(members)
}

// Whether a mark has the label.
fn is_member_of(label: Number, mark: Mark) -> bool
    ensures { result ≡ is_member_of label mark }
{
    match mark {
        Mark::Core(own) | Mark::Border(own) => own == label,
        Mark::Noise => false,
    }
}

/// The counts of the marks of records, in one pass that takes no memory.
pub(crate) fn count_marks(counts: &CountBook, labels: &LabelBook, records: &Records) -> Summary
    ensures { result ≡ summary_of
        (marks_in_books counts.now labels.now (map.entries records.now.vectors)) }
{
    let total = records.len();
    let mut cores = 0usize;
    let mut borders = 0usize;
    let mut noise = 0usize;
    let mut clusters = 0usize;
    for (number, _) in records.iter() {
        let mark = look_up(counts, labels, *number);
        match mark {
            Mark::Core(_) => cores += 1,
            Mark::Border(_) => borders += 1,
            Mark::Noise => noise += 1,
        }
        if names_cluster(*number, mark) {
            clusters += 1;
        }
    }
    Summary {
        records: total,
        cores,
        borders,
        noise,
        clusters,
    }
}
