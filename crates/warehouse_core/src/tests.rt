//! Tests of batches on a warehouse over a site in memory.

ghost use Rattle.std.specs.Prelude.{◌≡◌, ◌≤◌, ◌<◌, true, false, length, IfSome};
ghost use Rattle.site_disk.specs.Memory.{told};
ghost use Rattle.page_gate.specs.Promises.{Holds};

use crate::{Refusal, Warehouse};
use cluster_report::Summary;
use event_feed::{Tally, WatcherSlots};
use int_metric::L1;
use page_gate::{Pages, open_pages};
use plain_dbscan::{Mark, Marks};
use site_disk::MemSite;
use std::alloc::{AllocError, Global};
use std::marker::Brand;
use std::sync::ledger::{Blank, Ledger};
use std::test::Fail;
use store_image::read_params;
use vec_record::{Bytes, MetricKind, Number, Numbers, Steps};

/// A body, and its receipt or its refusal.
type Batch = (&'static str, Result<&'static str, Refusal>);

const FIVE_IN_A_ROW: [Batch; 2] = [
    (
        "+,1,0\n+,2,1\n+,3,2\n+,4,3\n+,5,4\n",
        Ok("ok 1 +5 -0 noise 1 created 1 absorbed 3 merged 0 removed 0 reduced 0 split 0\n"),
    ),
    (
        "-,3\n",
        Ok("ok 2 +0 -1 noise 0 created 0 absorbed 0 merged 0 removed 0 reduced 0 split 2\n"),
    ),
];

const MERGED_BY_3: [Batch; 2] = [
    (
        "+,1,0\n+,2,1\n+,4,3\n+,5,4\n",
        Ok("ok 1 +4 -0 noise 2 created 2 absorbed 0 merged 0 removed 0 reduced 0 split 0\n"),
    ),
    (
        "+,3,2\n",
        Ok("ok 2 +1 -0 noise 0 created 0 absorbed 0 merged 2 removed 0 reduced 0 split 0\n"),
    ),
];

const BORDER_BETWEEN: [Batch; 2] = [
    (
        "+,1,8\n+,2,8\n+,3,9\n+,4,11\n+,5,12\n+,6,12\n",
        Ok("ok 1 +6 -0 noise 6 created 0 absorbed 0 merged 0 removed 0 reduced 0 split 0\n"),
    ),
    (
        "+,7,10\n",
        Ok("ok 2 +1 -0 noise 0 created 2 absorbed 0 merged 0 removed 0 reduced 0 split 0\n"),
    ),
];

const BORDER_GONE: [Batch; 1] = [(
    "-,7\n",
    Ok("ok 3 +0 -1 noise 0 created 0 absorbed 0 merged 0 removed 2 reduced 0 split 0\n"),
)];

const FULL_AT_THE_THIRD: [Batch; 2] = [
    ("+,1,0\n+,2,1\n+,3,2\n-,1\n", Err(Refusal::Full(3))),
    (
        "+,1,0\n+,2,1\n-,1\n+,3,2\n",
        Ok("ok 1 +3 -1 noise 1 created 2 absorbed 0 merged 0 removed 1 reduced 0 split 0\n"),
    ),
];

const REPLACED: [Batch; 3] = [
    (
        "+,5,0\n",
        Ok("ok 1 +1 -0 noise 0 created 1 absorbed 0 merged 0 removed 0 reduced 0 split 0\n"),
    ),
    ("+,5,9\n-,5\n", Err(Refusal::Repeated(1))),
    (
        "-,5\n+,5,9\n",
        Ok("ok 2 +1 -1 noise 0 created 1 absorbed 0 merged 0 removed 1 reduced 0 split 0\n"),
    ),
];

const REFUSED_AT_THE_FOURTH: [Batch; 3] = [
    ("+,1,0\n+,2,1\n+,3,2\n+,1,5\n", Err(Refusal::Repeated(4))),
    ("+,1,0\n+,2,1\n+,3,2\n+,4\n", Err(Refusal::WrongLength(4))),
    (
        "+,1,7\n+,2,7\n",
        Ok("ok 1 +2 -0 noise 1 created 1 absorbed 0 merged 0 removed 0 reduced 0 split 0\n"),
    ),
];

const USED_UP: [Batch; 1] = [("+,1,0\n", Err(Refusal::BatchesUsedUp))];

/// The file of a store without records, over one coordinate and the sum of differences.
fn content(
    alloc: Global,
    eps: u32,
    minpts: u32,
    cap: u32,
    batches: u32,
) -> Result<Bytes, AllocError> {
    let mut content = Bytes::new(alloc);
    content.append(b"\x01\0denswh")?;
    content.append(&[0; 16376])?;
    for word in [2, 1, 1, 1, eps, minpts, cap, batches, 0, 0, 0] {
        content.append(&u32::to_le_bytes(word))?;
    }
    content.append(&[0; 16340])?;
    Ok(content)
}

fn site_with(content: Bytes, stop: Option<u32>) -> MemSite {
    let alloc = content.allocator();
    MemSite::new(content, Numbers::new(alloc), stop)
}

/// The warehouse of pages, where the metric is the sum of differences.
fn loaded<L: Ledger>(alloc: Global, pages: Pages, steps: &mut Steps<L>) -> Option<Warehouse<L1>>
    ensures pages { IfSome result (λ w. w.pages ≡ pages.list) }
    ensures stored { IfSome result (λ w. w.stored ≡ true) }
    ensures whole { IfSome result (λ w. w.failed ≡ false) }
{
    let params = match read_params(&pages) {
        Ok(params) => params,
        Err(_) => return None,
    };
    if params.metric != MetricKind::L1 {
        return None;
    }
    match Warehouse::<L1>::load(alloc, pages, steps) {
        Ok(warehouse) => Some(warehouse),
        Err(_) => None,
    }
}

/// The warehouse of a store.
fn opened<L: Ledger>(
    alloc: Global,
    site: &mut MemSite,
    steps: &mut Steps<L>,
) -> Option<Warehouse<L1>>
    ensures ready { IfSome result (λ w. Holds w.pages (told site.new)) }
    ensures stored { IfSome result (λ w. w.stored ≡ true) }
    ensures whole { IfSome result (λ w. w.failed ≡ false) }
{
    match open_pages(alloc, site) {
        Ok(pages) => loaded(alloc, pages, steps),
        Err(_) => None,
    }
}

/// A feed without a slot.
fn unheard(alloc: Global) -> WatcherSlots<Tally> {
    WatcherSlots {
        slots: Vec::new(alloc),
    }
}

/// Whether a batch over a store gives what is due to it.
fn is_due<L: Ledger>(
    alloc: Global,
    site: &mut MemSite,
    batch: &Batch,
    steps: &mut Steps<L>,
) -> bool {
    let body = batch.0.as_bytes();
    let Some(mut warehouse) = opened(alloc, site, steps) else {
        return false;
    };
    if body.len() > 1000 {
        return false;
    }
    let mut out = Bytes::new(alloc);
    let mut feed = unheard(alloc);
    match warehouse.apply(site, &mut feed, body, &mut out, steps) {
        Ok(()) => batch
            .1
            .is_ok_and(|receipt| out.as_slice() == receipt.as_bytes()),
        Err(refusal) => out.len() == 0 && batch.1.is_err_and(|due| due == refusal),
    }
}

/// How many of the batches give what is due to them, each over the store that the one before left.
fn count_due_with<L: Ledger>(
    rt: &HostRuntime,
    site: &mut MemSite,
    batches: &[Batch],
    blank: Blank,
) -> usize
    requires name { blank.name ≡ L.name }
    requires parts { blank.parts ≡ L.parts }
    requires some { 0 < blank.parts }
{
    let alloc = rt.alloc();
    let mut steps = Steps::<L>::new(rt, blank);
    let mut count = 0usize;
    for batch in batches {
        if is_due(alloc, site, batch, &mut steps) {
            count = count.saturating_add(1);
        }
    }
    count
}

fn count_due(rt: &HostRuntime, site: &mut MemSite, batches: &[Batch]) -> usize {
    count_due_with::<Brand>(rt, site, batches, Blank::new(1))
}

/// How many of the batches over a new store give what is due to them.
fn count_due_anew(
    rt: &HostRuntime,
    eps: u32,
    minpts: u32,
    cap: u32,
    batches: &[Batch],
) -> Result<usize, AllocError> {
    let alloc = rt.alloc();
    let mut site = site_with(content(alloc, eps, minpts, cap, 0)?, None);
    Ok(count_due(rt, &mut site, batches))
}

#[test]
fn deletion_in_a_row_of_five(rt: HostRuntime) -> Result<(), Fail> {
    assert_eq!(rt; count_due_anew(&rt, 1, 2, 100, &FIVE_IN_A_ROW)?, 2);
    Ok(())
}

#[test]
fn two_clusters_merged(rt: HostRuntime) -> Result<(), Fail> {
    assert_eq!(rt; count_due_anew(&rt, 1, 2, 100, &MERGED_BY_3)?, 2);
    Ok(())
}

#[test]
fn full_at_the_third(rt: HostRuntime) -> Result<(), Fail> {
    assert_eq!(rt; count_due_anew(&rt, 1, 2, 2, &FULL_AT_THE_THIRD)?, 2);
    Ok(())
}

#[test]
fn deleted_and_inserted_again(rt: HostRuntime) -> Result<(), Fail> {
    assert_eq!(rt; count_due_anew(&rt, 0, 1, 100, &REPLACED)?, 3);
    Ok(())
}

#[test]
fn refused_at_the_fourth(rt: HostRuntime) -> Result<(), Fail> {
    assert_eq!(rt; count_due_anew(&rt, 1, 2, 100, &REFUSED_AT_THE_FOURTH)?, 3);
    Ok(())
}

/// A refused batch leaves the file as it was.
#[test]
fn batch_numbers_used_up(rt: HostRuntime) -> Result<(), Fail> {
    let alloc = rt.alloc();
    let full = content(alloc, 1, 2, 100, u32::MAX)?;
    let mut site = site_with(content(alloc, 1, 2, 100, u32::MAX)?, None);
    assert_eq!(rt; count_due(&rt, &mut site, &USED_UP), 1);
    assert!(rt; site.content() == full.as_slice());
    Ok(())
}

const MARKS_BETWEEN: [(Number, Mark); 7] = [
    (1, Mark::Border(3)),
    (2, Mark::Border(3)),
    (3, Mark::Core(3)),
    (4, Mark::Core(4)),
    (5, Mark::Border(4)),
    (6, Mark::Border(4)),
    (7, Mark::Border(3)),
];

fn is_listed(marks: Result<Marks, AllocError>, want: &[(Number, Mark)]) -> bool {
    match marks {
        Ok(marks) => marks.as_slice() == want,
        Err(_) => false,
    }
}

/// Whether the marks of a store are these, by each query of marks.
fn has_marks(warehouse: &Warehouse<L1>) -> bool
    requires { warehouse.now.failed ≡ false }
{
    let one = warehouse.mark_of(7) == Some(Mark::Border(3)) && warehouse.mark_of(8).is_none();
    let members = match warehouse.members(4) {
        Ok(Some(members)) => members.as_slice() == &MARKS_BETWEEN[3..6],
        _ => false,
    };
    let none = match warehouse.members(7) {
        Ok(None) => true,
        _ => false,
    };
    let summary = Summary {
        records: 7,
        cores: 2,
        borders: 5,
        noise: 0,
        clusters: 2,
    };
    one && members
        && none
        && warehouse.summary() == summary
        && is_listed(warehouse.marks(), &MARKS_BETWEEN)
}

/// Whether the neighbourhoods are those of the store: 8 is absent, and leaves the list alone.
fn has_near<L: Ledger>(alloc: Global, warehouse: &Warehouse<L1>, steps: &mut Steps<L>) -> bool
    requires { warehouse.now.failed ≡ false }
{
    let mut near = Numbers::new(alloc);
    let found = warehouse.near(7, &mut near, steps);
    let absent = warehouse.near(8, &mut near, steps);
    found == Ok(true) && absent == Ok(false) && near.as_slice() == [3, 4, 7].as_slice()
}

fn marks_between_with<L: Ledger>(rt: &HostRuntime, site: &mut MemSite, blank: Blank) -> bool
    requires name { blank.name ≡ L.name }
    requires parts { blank.parts ≡ L.parts }
    requires some { 0 < blank.parts }
{
    let alloc = rt.alloc();
    let mut steps = Steps::<L>::new(rt, blank);
    match opened(alloc, site, &mut steps) {
        Some(warehouse) => {
            has_marks(&warehouse)
                && has_near(alloc, &warehouse, &mut steps)
                && warehouse.batches() == 2
        }
        None => false,
    }
}

fn marks_between(rt: &HostRuntime, site: &mut MemSite) -> bool {
    marks_between_with::<Brand>(rt, site, Blank::new(1))
}

#[test]
fn border_between_two_clusters(rt: HostRuntime) -> Result<(), Fail> {
    let alloc = rt.alloc();
    let mut site = site_with(content(alloc, 1, 4, 100, 0)?, None);
    assert_eq!(rt; count_due(&rt, &mut site, &BORDER_BETWEEN), 2);
    assert!(rt; marks_between(&rt, &mut site));
    assert_eq!(rt; count_due(&rt, &mut site, &BORDER_GONE), 1);
    Ok(())
}

/// Whether an image holds the batch of one record wholly or not at all.
fn is_whole<L: Ledger>(alloc: Global, image: Bytes, steps: &mut Steps<L>) -> bool {
    let mut site = site_with(image, None);
    match opened(alloc, &mut site, steps) {
        Some(warehouse) => {
            let batches = warehouse.batches();
            batches <= 1 && warehouse.records().len() == batches as usize
        }
        None => false,
    }
}

fn count_whole<L: Ledger>(
    alloc: Global,
    site: &MemSite,
    steps: &mut Steps<L>,
) -> Result<usize, AllocError> {
    let mut count = 0usize;
    for pick in 0..4 {
        let image = site.crash_image(pick)?;
        if is_whole(alloc, image, steps) {
            count = count.saturating_add(1);
        }
    }
    Ok(count)
}

/// Whether a batch over a site that stops ends by a receipt or by a fault, after which all has
/// failed.
fn ends_well<L: Ledger>(alloc: Global, site: &mut MemSite, steps: &mut Steps<L>) -> bool {
    let Some(mut warehouse) = opened(alloc, site, steps) else {
        return true;
    };
    let mut out = Bytes::new(alloc);
    let mut feed = unheard(alloc);
    match warehouse.apply(site, &mut feed, b"+,1,0\n", &mut out, steps) {
        Ok(()) => out.len() > 0 && !warehouse.failed(),
        Err(refusal) => refusal == Refusal::SiteFault && out.len() == 0 && warehouse.failed(),
    }
}

fn stopped_with<L: Ledger>(
    rt: &HostRuntime,
    site: &mut MemSite,
    blank: Blank,
) -> Result<bool, AllocError>
    requires name { blank.name ≡ L.name }
    requires parts { blank.parts ≡ L.parts }
    requires some { 0 < blank.parts }
{
    let alloc = rt.alloc();
    let mut steps = Steps::<L>::new(rt, blank);
    let well = ends_well(alloc, site, &mut steps);
    let whole = count_whole(alloc, site, &mut steps)?;
    Ok(well && whole == 4)
}

fn stopped(rt: &HostRuntime, site: &mut MemSite) -> Result<bool, AllocError> {
    stopped_with::<Brand>(rt, site, Blank::new(1))
}

/// A batch that is cut off after any call of the device leaves a store with it or without it.
#[test]
fn cut_batches(rt: HostRuntime) -> Result<(), Fail> {
    let alloc = rt.alloc();
    for stop in 0..26 {
        let mut site = site_with(content(alloc, 1, 2, 100, 0)?, Some(stop));
        let well = stopped(&rt, &mut site)?;
        assert!(rt; well, "stop {stop}");
    }
    Ok(())
}
