//! Groups of new cores become clusters, and what happened to them is told.

ghost use Rattle.std.specs.Prelude.{◌≡◌, ◌++◌, map, IfOk, OnOk, AllPairs};
ghost use Rattle.std.specs.List.Sorted.{IsPermutation};
ghost use Rattle.plain_dbscan.specs.Cases.{event, growth};
ghost use Rattle.insert_case.specs.Joining.{AreJoinable, AreAllJoined, HaveLabels};
ghost use Rattle.insert_case.specs.Joining.{AreToldNow, ComesBefore};
ghost use Rattle.insert_case.specs.inside.Joins.{IsJoinable, IsUnited, IsOneJoined, AreUntied};

use label_book::LabelBook;
use std::alloc::{AllocError, Global};
use update_seed::InGroup;
use vec_record::{Event, Events, Kind, Number};

/// Makes a cluster of each group, and appends what happened to it, by rising new label and then old
/// label.
///
/// The groups are those of cores that have no label yet. After want of memory some of them may be
/// clusters, and some of the events appended.
pub(crate) fn join_all(
    alloc: Global,
    labels: &mut LabelBook,
    groups: &[InGroup],
    out: &mut Events,
) -> Result<(), AllocError>
    requires { AreJoinable labels.old groups.now }
    ensures labels { OnOk result (AreAllJoined labels.old groups.now labels.new) }
    ensures labelled { OnOk result (HaveLabels labels.old groups.now labels.new) }
    ensures events { OnOk result (AreToldNow groups.now out.old out.new) }
{
    let mut events = Vec::new(alloc);
    for i in 0..groups.len() {
        join(labels, &groups[i], &mut events)?;
    }
    put_in_order(&mut events);
    append(&events, out)
}

// Makes one cluster of a group, and puts its events behind the others.
fn join(labels: &mut LabelBook, group: &InGroup, events: &mut Vec<Event>) -> Result<(), AllocError>
    requires { IsJoinable labels.old group.now }
    ensures { OnOk result (IsOneJoined labels.old group.now labels.new
        events.old.items events.new.items) }
{
    let label = unite(labels, group)?;
    tell(group, label, events)
}

// Makes one cluster of a group, and answers its label.
fn unite(labels: &mut LabelBook, group: &InGroup) -> Result<Number, AllocError>
    requires { IsJoinable labels.old group.now }
    ensures { IfOk result (λ l. IsUnited labels.old group.now l labels.new) }
{
    if group.old_labels.len() == 0 {
        labels.found(&group.new_cores)
    } else {
        labels.join(&group.old_labels, &group.new_cores)
    }
}

// What happened to a group that has this label now: an event for each old label, or one where it
// has none.
fn tell(group: &InGroup, to: Number, events: &mut Vec<Event>) -> Result<(), AllocError>
    ensures { OnOk result (events.new.items
        ≡ events.old.items ++ growth to group.now.old_labels) }
{
    let old = group.old_labels.as_slice();
    if old.is_empty() {
        let from = 0;
        let kind = Kind::Created;
        events.push(Event { kind, from, to })?;
        return Ok(());
    }
    let kind = if old.len() == 1 {
        Kind::Absorbed
    } else {
        Kind::Merged
    };
    tell_each(kind, old, to, events)
}

// An event for each old label.
fn tell_each(
    kind: Kind,
    old: &[Number],
    to: Number,
    events: &mut Vec<Event>,
) -> Result<(), AllocError>
    ensures { OnOk result (events.new.items
        ≡ events.old.items ++ map (λ o. event kind o to) old.now) }
{
    for i in 0..old.len() {
        let from = old[i];
        events.push(Event { kind, from, to })?;
    }
    Ok(())
}

// The events by rising new label and then old label. It takes no memory.
fn put_in_order(events: &mut Vec<Event>)
    requires { AreUntied events.old.items }
    ensures permutation { IsPermutation events.old.items events.new.items }
    ensures rising { AllPairs ComesBefore events.new.items }
{
    events.sort_unstable_by_key(|event| (event.to, event.from));
}

// Puts these events behind others.
fn append(events: &[Event], out: &mut Events) -> Result<(), AllocError>
    ensures { OnOk result (out.new ≡ out.old ++ events.now) }
{
    for i in 0..events.len() {
        out.push(events[i])?;
    }
    Ok(())
}
