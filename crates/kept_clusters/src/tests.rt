//! Two clusters with a border between them, asked and changed.

ghost use Rattle.std.specs.Prelude.{◌≡◌, ◌≢◌, ◌<◌, None, IsTrue, length};
ghost use Rattle.std.specs.FinMap as map;
ghost use Rattle.kept_clusters.specs.Kept.{Stand};

use crate::{Built, Clusters, build};
use cluster_report::Summary;
use count_book::CountBook;
use int_metric::L1;
use label_book::LabelBook;
use mtree_index::MTree;
use plain_dbscan::Mark::{self, Border, Core};
use std::alloc::{AllocError, Global};
use std::marker::Brand;
use std::sync::ledger::{Blank, Ledger};
use std::test::Fail;
use vec_record::{Event, Events, Kind, Metric, Number, Numbers, Records, Steps, Vector};

/// Records of one coordinate, as they come.
const LINE: [(Number, u8); 7] = [(4, 11), (1, 8), (7, 10), (2, 8), (5, 12), (3, 9), (6, 12)];

const MARKS: [(Number, Mark); 7] = [
    (1, Border(3)),
    (2, Border(3)),
    (3, Core(3)),
    (4, Core(4)),
    (5, Border(4)),
    (6, Border(4)),
    (7, Border(3)),
];

const SUMMARY: Summary = Summary {
    records: 7,
    cores: 2,
    borders: 5,
    noise: 0,
    clusters: 2,
};

/// Whether a record may be added.
fn may_add(records: &Records, number: Number, vector: &Vector) -> bool
    ensures { IsTrue result → (number ≢ 0) × (map.get records.now.vectors number ≡ None)
        × (length vector.now ≡ records.now.width) }
{
    number != 0
        && records.get(number).is_none()
        && vector.as_slice().len() == records.width() as usize
}

/// The records of the line.
fn line(alloc: Global) -> Result<Records, AllocError> {
    let mut records = Records::new(alloc, 1);
    for (number, place) in LINE {
        let vector = Vector::from_slice(alloc, &[place])?;
        if may_add(&records, number, &vector) {
            records.insert(number, vector)?;
        }
    }
    Ok(records)
}

/// Whether the marks, the members, the counts and what is near are those of the line.
fn answers<M: Metric, L: Ledger>(
    alloc: Global,
    built: &Built<M>,
    steps: &mut Steps<L>,
) -> Result<bool, AllocError>
    requires { Stand M.dist built.now.records built.now.clusters }
{
    let clusters = &built.clusters;
    let records = &built.records;
    let members = match clusters.members(records, 4)? {
        Some(members) => members.as_slice() == &MARKS[3..6],
        None => false,
    };
    let mut near = Numbers::new(alloc);
    let found = clusters.near(records, 7, &mut near, steps)?;
    Ok(
        members
            && found
            && near.as_slice() == [3, 4, 7].as_slice()
            && clusters.marks(records)?.as_slice() == MARKS.as_slice()
            && clusters.members(records, 7)?.is_none()
            && clusters.summary(records) == SUMMARY
            && clusters.mark_of(5) == Some(Border(4))
            && clusters.mark_of(8).is_none()
            && !clusters.near(records, 8, &mut near, steps)?,
    )
}

/// Whether both clusters end where the border between them goes.
fn ends<M: Metric, L: Ledger>(
    alloc: Global,
    built: &mut Built<M>,
    steps: &mut Steps<L>,
) -> Result<bool, AllocError>
    requires { Stand M.dist built.old.records built.old.clusters }
{
    if built.records.get(7).is_none() {
        return Ok(false);
    }
    let mut told = Events::new(alloc);
    built
        .clusters
        .delete(&mut built.records, 7, &mut told, steps)?;
    let kind = Kind::Removed;
    let ends = [3, 4].map(|from| Event { kind, from, to: 0 });
    Ok(told.as_slice() == ends.as_slice() && built.clusters.summary(&built.records).noise == 6)
}

/// Whether the line is clustered, and parts.
fn plays<M: Metric, L: Ledger>(rt: &HostRuntime, blank: Blank) -> Result<bool, AllocError>
    requires name { blank.name ≡ L.name }
    requires parts { blank.parts ≡ L.parts }
    requires some { 0 < blank.parts }
{
    let alloc = rt.alloc();
    let mut steps = Steps::<L>::new(rt, blank);
    let records = line(alloc)?;
    if records.len() > 200_000 {
        return Ok(false);
    }
    let mut built = build::<M, L>(alloc, records, 1, 4, &mut steps)?;
    Ok(answers::<M, L>(alloc, &built, &mut steps)? && ends::<M, L>(alloc, &mut built, &mut steps)?)
}

#[test]
fn two_clusters_and_a_border(rt: HostRuntime) -> Result<(), Fail> {
    assert!(rt; plays::<L1, Brand>(&rt, Blank::new(1))?);
    Ok(())
}

#[test]
fn parts_of_no_records(rt: HostRuntime) {
    let alloc = rt.alloc();
    let counts = CountBook::new(alloc, 2);
    let labels = LabelBook::new(alloc);
    let mut none = Clusters::<L1>::from_parts(alloc, 1, MTree::empty(alloc, 1), counts, labels);
    none.retag(&[]);
    assert_eq!(rt; none.index().height(), 0);
    assert!(rt; !none.counts().is_core(1));
    assert_eq!(rt; none.labels().clusters(), 0);
}
