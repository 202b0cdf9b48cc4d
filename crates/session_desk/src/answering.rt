//! The answers to the lines outside of batches.
ghost use Rattle.std.specs.Prelude.{◌≡◌, ◌++◌, ◌≤◌, ◌+◌, ◌*◌, ℕ, List, false, None, IfOk, OnOk};
ghost use Rattle.std.specs.Prelude.{length};
ghost use Rattle.std.specs.FinMap as maps;
ghost use Rattle.plain_dbscan.specs.Texts.{report_text as text_of_report};
ghost use Rattle.plain_dbscan.specs.Texts.{summary_text as text_of_summary};
ghost use Rattle.event_feed.specs.Meanings.{meanings, slot_at};
ghost use Rattle.warehouse_core.specs.Batches.{marks_on};
ghost use Rattle.warehouse_core.specs.Queries.{mark_on, members_of};
ghost use Rattle.warehouse_core.specs.States.{IsClustered};
ghost use Rattle.session_desk.specs.Session.{tells, refuses, label_answer, cluster_answer};
ghost use Rattle.session_desk.specs.Session.{near_answer, watch_answer, drop_answer, ended};
ghost use Rattle.session_desk.specs.Session.{without_dropped};
ghost use Rattle.session_desk.specs.Talks.{IsGiven};

use crate::texts::{dropped_line, refusal_line};
use cluster_report::{counts_text, label_text, members_text, near_text, report_text};
use event_feed::{Watcher, WatcherSlots};
use std::alloc::AllocError;
use std::sync::ledger::Ledger;
use vec_record::{Bytes, Metric, Number, Numbers, Steps};
use warehouse_core::Warehouse;

/// Appends a refusal; it answers that there was one.
pub fn refuse(number: u32, place: Option<u32>, out: &mut Bytes) -> Result<bool, AllocError>
    ensures { IfOk result (λ refused. IsGiven (refuses number place) refused out.old out.new) }
{
    refusal_line(number, place, out)?;
    Ok(true)
}

/// Appends the report.
pub fn report<M: Metric>(warehouse: &Warehouse<M>, out: &mut Bytes) -> Result<bool, AllocError>
    requires { warehouse.now.failed ≡ false }
    ensures { IsClustered warehouse.now → IfOk result (λ refused. IsGiven
        (tells (text_of_report (marks_on warehouse.now.values warehouse.now.rows))) refused out.old
        out.new) }
{
    report_text(&warehouse.marks()?, out)?;
    Ok(false)
}

/// Appends the counts of all records.
pub fn summary<M: Metric>(warehouse: &Warehouse<M>, out: &mut Bytes) -> Result<bool, AllocError>
    requires { warehouse.now.failed ≡ false }
    ensures { IsClustered warehouse.now → IfOk result (λ refused. IsGiven
        (tells (text_of_summary (marks_on warehouse.now.values warehouse.now.rows))) refused out.old
        out.new) }
{
    counts_text(&warehouse.summary(), out)?;
    Ok(false)
}

/// Appends the line of a number.
pub fn label<M: Metric>(
    warehouse: &Warehouse<M>,
    number: Number,
    out: &mut Bytes,
) -> Result<bool, AllocError>
    requires { warehouse.now.failed ≡ false }
    ensures { IsClustered warehouse.now → IfOk result (λ refused. IsGiven
        (label_answer number (mark_on warehouse.now.values warehouse.now.rows number)) refused
        out.old out.new) }
{
    match warehouse.mark_of(number) {
        None => refuse(22, None, out),
        Some(mark) => {
            label_text(number, mark, out)?;
            Ok(false)
        }
    }
}

/// Appends the members of the cluster with a label.
pub fn cluster<M: Metric>(
    warehouse: &Warehouse<M>,
    label: Number,
    out: &mut Bytes,
) -> Result<bool, AllocError>
    requires { warehouse.now.failed ≡ false }
    ensures { IsClustered warehouse.now → IfOk result (λ refused. IsGiven
        (cluster_answer label
        (members_of label (marks_on warehouse.now.values warehouse.now.rows))) refused out.old
        out.new) }
{
    match warehouse.members(label)? {
        None => refuse(23, None, out),
        Some(members) => {
            members_text(label, &members, out)?;
            Ok(false)
        }
    }
}

/// Appends the numbers near a number.
pub fn near<M: Metric, L: Ledger>(
    warehouse: &Warehouse<M>,
    number: Number,
    out: &mut Bytes,
    steps: &mut Steps<L>,
) -> Result<bool, AllocError>
    requires { warehouse.now.failed ≡ false }
    ensures given { IfOk result (λ refused. IsGiven
        (near_answer warehouse.now.values warehouse.now.rows number) refused out.old out.new) }
    ensures work { steps.new ≤ steps.old + 2 * maps.len warehouse.now.rows }
{
    let mut numbers = Numbers::new(out.allocator());
    if !warehouse.near(number, &mut numbers, steps)? {
        return refuse(22, None, out);
    }
    near_text(number, &numbers, out)?;
    Ok(false)
}

/// Ends the last line behind a place, where there is one that isn't ended.
fn end_line(start: usize, out: &mut Bytes) -> Result<(), AllocError>
    requires { start ≤ length out.old }
    ensures { (before said : List ℕ) → out.old ≡ before ++ said → length before ≡ start
        → OnOk result (out.new ≡ before ++ ended said) }
{
    let text = out.as_slice();
    if start < text.len() && text[text.len() - 1] != b'\n' {
        out.push(b'\n')?;
    }
    Ok(())
}

/// Appends what the watcher of a slot says.
pub fn watch<W: Watcher>(
    feed: &WatcherSlots<W>,
    slot: u32,
    out: &mut Bytes,
) -> Result<bool, AllocError>
    ensures { IfOk result (λ refused. IsGiven
        (watch_answer (slot_at slot (meanings W.says_after feed.now.slots.items))) refused out.old
        out.new) }
{
    let start = out.len();
    if !feed.text_of(slot, out)? {
        return refuse(24, None, out);
    }
    end_line(start, out)?;
    Ok(false)
}

/// Drops the watcher of a slot, and appends that it did.
pub fn drop_watcher<W: Watcher>(
    feed: &mut WatcherSlots<W>,
    slot: u32,
    out: &mut Bytes,
) -> Result<bool, AllocError>
    ensures given { IfOk result (λ refused. IsGiven (drop_answer slot (slot_at slot (meanings
        W.says_after feed.old.slots.items))) refused out.old out.new) }
    ensures slots { meanings W.says_after feed.new.slots.items ≡ without_dropped
        (drop_answer slot (slot_at slot (meanings W.says_after feed.old.slots.items))).dropped
        (meanings W.says_after feed.old.slots.items) }
{
    if !feed.drop_one(slot) {
        return refuse(24, None, out);
    }
    dropped_line(slot, out)?;
    Ok(false)
}
