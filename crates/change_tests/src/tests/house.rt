//! Records, tree and books, changed one record at a time, beside plain clustering of the records.

ghost use Rattle.std.specs.Prelude.{◌≡◌, OnOk, IsTrue};
ghost use Rattle.std.specs.Ordering.{nat_cmp};
ghost use Rattle.std.specs.FinMap.Entries.{is_sorted};
ghost use lib.Dec.{T};
ghost use Rattle.vec_record.specs.Vectors.{IsWidth};
ghost use Rattle.mtree_index.specs.Tree.{contents};
ghost use Rattle.update_seed.specs.Books.{Fits};
ghost use Rattle.insert_case.specs.Inserted.{IsAddable};

use count_book::CountBook;
use delete_case::delete_change;
use insert_case::insert_change;
use label_book::LabelBook;
use mtree_index::MTree;
use plain_dbscan::{Mark, Marks, RangeIndex, cases_plain, cluster_plain};
use std::alloc::{AllocError, Global};
use std::sync::ledger::Ledger;
use vec_record::{Events, Metric, Number, Records, Steps, Vector};

/// How far apart records may be that are near each other, and how many make a core.
#[derive(Clone, Copy)]
pub struct Setting {
    pub eps: u32,
    pub minpts: u32,
}

/// What changes work on, and the events that they told.
#[derive(Drop)]
pub struct House<I> {
    pub records: Records,
    pub index: I,
    pub counts: CountBook,
    pub labels: LabelBook,
    pub told: Events,
}

/// The marks of plain clustering, and the events between them so far.
#[derive(Drop)]
pub struct Plain {
    pub marks: Marks,
    pub events: Events,
}

/// No records, with an empty tree and empty books.
pub fn empty_house<M: Metric>(alloc: Global, width: u32, minpts: u32) -> House<MTree<M>>
    requires { IsWidth width }
    ensures { Fits result.index.width (contents result.index) result.records
        result.counts result.labels }
{
    let records = Records::new(alloc, width);
    let index = MTree::empty(alloc, width);
    let counts = CountBook::new(alloc, minpts);
    let labels = LabelBook::new(alloc);
    let told = Events::new(alloc);
    House {
        records,
        index,
        counts,
        labels,
        told,
    }
}

/// No marks and no events.
pub fn nothing_plain(alloc: Global) -> Plain
    ensures { T (is_sorted nat_cmp result.marks) }
{
    Plain {
        marks: Marks::new(alloc),
        events: Events::new(alloc),
    }
}

/// Whether a record may be added.
fn may_add<I>(house: &House<I>, number: Number, bytes: &[u8]) -> bool
    ensures { IsTrue result → IsAddable house.now.records number bytes.now }
{
    number != 0
        && house.records.get(number).is_none()
        && bytes.len() == house.records.width() as usize
        && house.records.len() < 200_000
}

/// Adds a record. False, and nothing is changed, where it may not be added.
pub fn add<M: Metric, I: RangeIndex<M>, L: Ledger>(
    alloc: Global,
    house: &mut House<I>,
    eps: u32,
    number: Number,
    bytes: &[u8],
    steps: &mut Steps<L>,
) -> Result<bool, AllocError>
    requires { Fits (I.width house.old.index) (I.contents house.old.index) house.old.records
        house.old.counts house.old.labels }
    ensures { OnOk result (Fits (I.width house.new.index) (I.contents house.new.index)
        house.new.records house.new.counts house.new.labels) }
{
    if !may_add(house, number, bytes) {
        return Ok(false);
    }
    let vector = Vector::from_slice(alloc, bytes)?;
    insert_change::<M, I, L>(
        alloc,
        &mut house.records,
        &mut house.index,
        &mut house.counts,
        &mut house.labels,
        eps,
        number,
        vector,
        &mut house.told,
        steps,
    )?;
    Ok(true)
}

/// Takes a record out. False, and nothing is changed, where there is none of this number.
pub fn take_out<M: Metric, I: RangeIndex<M>, L: Ledger>(
    alloc: Global,
    house: &mut House<I>,
    eps: u32,
    number: Number,
    steps: &mut Steps<L>,
) -> Result<bool, AllocError>
    requires { Fits (I.width house.old.index) (I.contents house.old.index) house.old.records
        house.old.counts house.old.labels }
    ensures { OnOk result (Fits (I.width house.new.index) (I.contents house.new.index)
        house.new.records house.new.counts house.new.labels) }
{
    if house.records.get(number).is_none() {
        return Ok(false);
    }
    delete_change::<M, I, L>(
        alloc,
        &mut house.records,
        &mut house.index,
        &mut house.counts,
        &mut house.labels,
        eps,
        number,
        &mut house.told,
        steps,
    )?;
    Ok(true)
}

/// The mark that the books give a record.
fn mark_in<I>(house: &House<I>, number: Number) -> Mark {
    if let Some(label) = house.labels.label_of(number) {
        return Mark::Core(label);
    }
    let Some(anchor) = house.counts.anchor_of(number) else {
        return Mark::Noise;
    };
    match house.labels.label_of(anchor) {
        Some(label) => Mark::Border(label),
        None => Mark::Noise,
    }
}

/// Whether the books give the records these marks.
fn has_marks<I>(house: &House<I>, marks: &[(Number, Mark)]) -> bool {
    for &(number, mark) in marks {
        if house.counts.count_of(number).is_none() || mark_in(house, number) != mark {
            return false;
        }
    }
    true
}

/// Clusters the records anew after one change. Whether the books say the same, and the events that
/// were told so far are those between the marks.
pub fn is_plain<M: Metric, I, L: Ledger>(
    alloc: Global,
    house: &House<I>,
    setting: Setting,
    plain: &mut Plain,
    steps: &mut Steps<L>,
) -> Result<bool, AllocError>
    requires { T (is_sorted nat_cmp plain.old.marks) }
    ensures { OnOk result (T (is_sorted nat_cmp plain.new.marks)) }
{
    let marks = cluster_plain::<M, L>(alloc, &house.records, setting.eps, setting.minpts, steps)?;
    cases_plain(alloc, &plain.marks, &marks, &mut plain.events)?;
    plain.marks = marks;
    Ok(has_marks(house, plain.marks.as_slice()) && house.told.as_slice() == plain.events.as_slice())
}
