//! The events of one change, from the marks before and after it.

ghost use Rattle.std.specs.Prelude.{◌≡◌, ◌++◌, ◌||◌, ℕ, filter, map, is_some, IfOk, OnOk};
ghost use Rattle.std.specs.List.{list_any};
ghost use Rattle.std.specs.Ordering.{nat_cmp};
ghost use Rattle.std.specs.BTreeSet.{contains};
ghost use Rattle.std.specs.FinMap.Entries.{is_sorted};
ghost use lib.Dec.{T};
ghost use Rattle.plain_dbscan.specs.Cases.{new_number, clusters_of, growth, decline};
ghost use Rattle.plain_dbscan.specs.Cases.{insertion_events, deletion_events, cases_of};
ghost use Rattle.plain_dbscan.specs.Across.{both_marks, is_core_alone, is_core_alone_of};
ghost use Rattle.plain_dbscan.specs.Across.{is_in_both, is_label, labels_in, changed_in};

use crate::marks::{Mark, Marks, find_mark, names_cluster};
use std::alloc::{AllocError, Global};
use std::collections::BTreeSet;
use vec_record::{Event, Events, Kind, Number};

/// The marks of one number in two lists, the second one noise where that list hasn't the number.
#[derive(Clone, Copy)]
struct BothMarks {
    here: Mark,
    there: Mark,
}

/// Each mark of one list, with that of its number in the other.
fn marks_across(
    alloc: Global,
    one: &[(Number, Mark)],
    other: &[(Number, Mark)],
) -> Result<Vec<BothMarks>, AllocError>
    requires { T (is_sorted nat_cmp other.now) }
    ensures { IfOk result (λ both. both.items ≡ map (both_marks other.now) one.now) }
{
    let mut both = Vec::new(alloc);
    for &(number, here) in one {
        let there = find_mark(other, number).unwrap_or(Mark::Noise);
        both.push(BothMarks { here, there })?;
    }
    Ok(both)
}

/// The first number of one list that the other hasn't, or 0.
fn find_new_number(one: &[(Number, Mark)], other: &[(Number, Mark)]) -> Number
    requires { T (is_sorted nat_cmp other.now) }
    ensures { result ≡ new_number one.now other.now }
{
    for &(number, _) in one {
        if find_mark(other, number).is_none() {
            return number;
        }
    }
    0
}

/// The label of a core that isn't core in the other list.
fn lone_label(both: &BothMarks) -> Option<Number>
    ensures label { (l : ℕ) → is_label l result ≡ is_core_alone_of l both.now }
    ensures some { is_some result ≡ is_core_alone both.now }
{
    match (both.here, both.there) {
        (Mark::Core(_), Mark::Core(_)) => None,
        (Mark::Core(label), _) => Some(label),
        _ => None,
    }
}

/// The label in the other list of a member of a cluster of the one, if it is core there.
fn label_across(both: &BothMarks, cluster: Number) -> Option<Number>
    ensures { (k : ℕ) → is_label k result ≡ is_in_both cluster k both.now }
{
    let (Mark::Core(label) | Mark::Border(label)) = both.here else {
        return None;
    };
    match both.there {
        Mark::Core(other) if label == cluster => Some(other),
        _ => None,
    }
}

/// Puts a label, if there is one, into a set.
fn add_label(labels: &mut BTreeSet<Number>, label: Option<Number>) -> Result<(), AllocError>
    ensures { OnOk result ((l : ℕ) → contains nat_cmp labels.new l
        ≡ (contains nat_cmp labels.old l || is_label l label)) }
{
    if let Some(label) = label {
        labels.insert(label)?;
    }
    Ok(())
}

/// Whether some core isn't core in the other list.
fn has_lone_core(both: &[BothMarks]) -> bool
    ensures { result ≡ list_any is_core_alone both.now }
{
    for marks in both {
        if lone_label(marks).is_some() {
            return true;
        }
    }
    false
}

/// The labels of the cores that aren't core in the other list.
fn lone_labels(alloc: Global, both: &[BothMarks]) -> Result<BTreeSet<Number>, AllocError>
    ensures { IfOk result (λ labels. (l : ℕ) → contains nat_cmp labels l
        ≡ list_any (is_core_alone_of l) both.now) }
{
    let mut labels = BTreeSet::new(alloc);
    for marks in both {
        add_label(&mut labels, lone_label(marks))?;
    }
    Ok(labels)
}

/// The labels in the other list of the members of a cluster of the one.
fn labels_beyond(
    alloc: Global,
    both: &[BothMarks],
    cluster: Number,
) -> Result<BTreeSet<Number>, AllocError>
    ensures { IfOk result (λ labels. (k : ℕ) → contains nat_cmp labels k
        ≡ list_any (is_in_both cluster k) both.now) }
{
    let mut labels = BTreeSet::new(alloc);
    for marks in both {
        add_label(&mut labels, label_across(marks, cluster))?;
    }
    Ok(labels)
}

/// The clusters of a list whose labels are in a set, rising.
fn clusters_among(
    alloc: Global,
    marks: &[(Number, Mark)],
    labels: &BTreeSet<Number>,
) -> Result<Vec<Number>, AllocError>
    ensures { IfOk result (λ found. found.items
        ≡ filter (contains nat_cmp labels.now) (clusters_of marks.now)) }
{
    let mut found = Vec::new(alloc);
    for &(number, mark) in marks {
        if names_cluster(number, mark) && labels.contains(&number) {
            found.push(number)?;
        }
    }
    Ok(found)
}

/// Appends what happened to a cluster with a new core, given its old labels.
pub fn push_growth(label: Number, old: &[Number], out: &mut Events) -> Result<(), AllocError>
    ensures ok { OnOk result (out.new ≡ out.old ++ growth label old.now) }
{
    if old.is_empty() {
        return out.push(Event {
            kind: Kind::Created,
            from: 0,
            to: label,
        });
    }
    let kind = if old.len() == 1 {
        Kind::Absorbed
    } else {
        Kind::Merged
    };
    for &from in old {
        out.push(Event {
            kind,
            from,
            to: label,
        })?;
    }
    Ok(())
}

/// Appends what happened to a cluster with a lost core, given its new labels.
pub fn push_decline(label: Number, new: &[Number], out: &mut Events) -> Result<(), AllocError>
    ensures ok { OnOk result (out.new ≡ out.old ++ decline label new.now) }
{
    if new.is_empty() {
        return out.push(Event {
            kind: Kind::Removed,
            from: label,
            to: 0,
        });
    }
    let kind = if new.len() == 1 {
        Kind::Reduced
    } else {
        Kind::Split
    };
    for &to in new {
        out.push(Event {
            kind,
            from: label,
            to,
        })?;
    }
    Ok(())
}

/// Appends what happened to a cluster after an insertion, by its old labels.
fn push_grown(
    alloc: Global,
    both: &[BothMarks],
    before: &[(Number, Mark)],
    label: Number,
    out: &mut Events,
) -> Result<(), AllocError>
    ensures { OnOk result (out.new
        ≡ out.old ++ growth label (labels_in both.now before.now label)) }
{
    let labels = labels_beyond(alloc, both, label)?;
    let old = clusters_among(alloc, before, &labels)?;
    push_growth(label, &old, out)
}

/// Appends what happened to a cluster after a deletion, by its new labels.
fn push_declined(
    alloc: Global,
    both: &[BothMarks],
    after: &[(Number, Mark)],
    label: Number,
    out: &mut Events,
) -> Result<(), AllocError>
    ensures { OnOk result (out.new
        ≡ out.old ++ decline label (labels_in both.now after.now label)) }
{
    let labels = labels_beyond(alloc, both, label)?;
    let new = clusters_among(alloc, after, &labels)?;
    push_decline(label, &new, out)
}

/// The clusters of one list that have a core which isn't core in the other, rising.
fn find_changed(
    alloc: Global,
    both: &[BothMarks],
    marks: &[(Number, Mark)],
) -> Result<Vec<Number>, AllocError>
    ensures { IfOk result (λ found. found.items ≡ changed_in both.now marks.now) }
{
    let labels = lone_labels(alloc, both)?;
    clusters_among(alloc, marks, &labels)
}

/// Appends the events of an insertion.
fn push_insertion(
    alloc: Global,
    before: &[(Number, Mark)],
    after: &[(Number, Mark)],
    out: &mut Events,
) -> Result<(), AllocError>
    requires { T (is_sorted nat_cmp before.now) }
    ensures { OnOk result (out.new ≡ out.old ++ insertion_events before.now after.now) }
{
    let both = marks_across(alloc, after, before)?;
    if !has_lone_core(&both) {
        return out.push(Event {
            kind: Kind::Noise,
            from: 0,
            to: find_new_number(after, before),
        });
    }
    let grown = find_changed(alloc, &both, after)?;
    for label in &grown {
        push_grown(alloc, &both, before, *label, out)?;
    }
    Ok(())
}

/// Appends the events of a deletion.
fn push_deletion(
    alloc: Global,
    before: &[(Number, Mark)],
    after: &[(Number, Mark)],
    out: &mut Events,
) -> Result<(), AllocError>
    requires { T (is_sorted nat_cmp after.now) }
    ensures { OnOk result (out.new ≡ out.old ++ deletion_events before.now after.now) }
{
    let both = marks_across(alloc, before, after)?;
    let declined = find_changed(alloc, &both, before)?;
    for label in &declined {
        push_declined(alloc, &both, after, *label, out)?;
    }
    Ok(())
}

/// Appends the events of one change, given the marks before and after it.
///
/// The change is an insertion where `after` is the longer list, else a deletion. Events come by
/// rising label of the cluster that grew or shrank, then by rising label on the other side. It
/// takes the time of a sort of the lists, and of one more for each cluster that the change
/// touched. Want of memory is its only other answer.
#[tactic(auto, unfolding(crate::specs::Cases::cases_of))]
pub fn cases_plain(
    alloc: Global,
    before: &Marks,
    after: &Marks,
    out: &mut Events,
) -> Result<(), AllocError>
    requires rising_before { T (is_sorted nat_cmp before.now) }
    requires rising_after { T (is_sorted nat_cmp after.now) }
    ensures ok { OnOk result (out.new ≡ out.old ++ cases_of before.now after.now) }
{
    if before.len() < after.len() {
        push_insertion(alloc, before.as_slice(), after.as_slice(), out)
    } else {
        push_deletion(alloc, before.as_slice(), after.as_slice(), out)
    }
}

#[cfg(test)]
mod tests {
    use super::*;
    use crate::marks::Mark::{Border, Core, Noise};
    use std::test::Fail;
    use vec_record::Kind::{Absorbed, Created, Merged, Reduced, Removed, Split};

    type Row = (Number, Mark);

    const PAIR: &[Row] = &[(1, Core(1)), (2, Core(1))];

    const THREE: &[Row] = &[(1, Core(1)), (2, Core(1)), (3, Core(1))];

    const FIVE: &[Row] = &[
        (1, Core(1)),
        (2, Core(1)),
        (3, Core(1)),
        (4, Core(1)),
        (5, Core(1)),
    ];

    const THREE_CORES: &[Row] = &[
        (1, Border(2)),
        (2, Core(2)),
        (3, Core(2)),
        (4, Core(2)),
        (5, Border(2)),
    ];

    const TWO_PAIRS: &[Row] = &[(1, Core(1)), (2, Core(1)), (4, Core(4)), (5, Core(4))];

    const TWO_CORES: &[Row] = &[
        (1, Border(3)),
        (2, Border(3)),
        (3, Core(3)),
        (4, Core(4)),
        (5, Border(4)),
        (6, Border(4)),
        (7, Border(3)),
    ];

    const ONE_CORE: &[Row] = &[
        (2, Noise),
        (3, Noise),
        (4, Core(4)),
        (5, Border(4)),
        (6, Border(4)),
        (7, Border(4)),
    ];

    const FOUR_NOISE: &[Row] = &[(1, Noise), (2, Noise), (4, Noise), (5, Noise)];

    const SIX_NOISE: &[Row] = &[
        (1, Noise),
        (2, Noise),
        (3, Noise),
        (4, Noise),
        (5, Noise),
        (6, Noise),
    ];

    fn listed(alloc: Global, rows: &[Row]) -> Result<Marks, AllocError>
        ensures { IfOk result (λ marks. marks ≡ rows.now) }
    {
        let mut marks = Marks::new(alloc);
        for row in rows {
            marks.push(*row)?;
        }
        Ok(marks)
    }

    fn event(kind: Kind, from: Number, to: Number) -> Event {
        Event { kind, from, to }
    }

    // Whether a change has these events.
    fn has_events(
        alloc: Global,
        before: &[Row],
        after: &[Row],
        events: &[Event],
    ) -> Result<bool, AllocError>
        requires before { T (is_sorted nat_cmp before.now) }
        requires after { T (is_sorted nat_cmp after.now) }
    {
        let before = listed(alloc, before)?;
        let after = listed(alloc, after)?;
        let mut out = Events::new(alloc);
        cases_plain(alloc, &before, &after, &mut out)?;
        Ok(out.as_slice() == events)
    }

    #[test]
    fn insertions_of_worked_rows(rt: HostRuntime) -> Result<(), Fail> {
        let alloc = rt.alloc();
        assert!(rt; has_events(alloc, &[], &[(1, Noise)], &[event(Kind::Noise, 0, 1)])?);
        assert!(rt; has_events(alloc, &[(1, Noise)], PAIR, &[event(Created, 0, 1)])?);
        assert!(rt; has_events(alloc, PAIR, THREE, &[event(Absorbed, 1, 1)])?);
        let merged = [event(Merged, 1, 1), event(Merged, 4, 1)];
        assert!(rt; has_events(alloc, TWO_PAIRS, FIVE, &merged)?);
        let created = [event(Created, 0, 3), event(Created, 0, 4)];
        assert!(rt; has_events(alloc, SIX_NOISE, TWO_CORES, &created)?);
        Ok(())
    }

    #[test]
    fn deletions_of_worked_rows(rt: HostRuntime) -> Result<(), Fail> {
        let alloc = rt.alloc();
        let split = [event(Split, 1, 1), event(Split, 1, 4)];
        assert!(rt; has_events(alloc, FIVE, TWO_PAIRS, &split)?);
        assert!(rt; has_events(alloc, THREE_CORES, FOUR_NOISE, &[event(Removed, 2, 0)])?);
        let removed = [event(Removed, 3, 0), event(Removed, 4, 0)];
        assert!(rt; has_events(alloc, TWO_CORES, SIX_NOISE, &removed)?);
        assert!(rt; has_events(alloc, TWO_CORES, ONE_CORE, &[event(Removed, 3, 0)])?);
        let later = &[(2, Core(2)), (3, Core(2))];
        assert!(rt; has_events(alloc, THREE, later, &[event(Reduced, 1, 2)])?);
        assert!(rt; has_events(alloc, &[(3, Noise), (8, Noise)], &[(3, Noise)], &[])?);
        Ok(())
    }
}
