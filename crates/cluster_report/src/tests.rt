//! The texts of a few marks.

use crate::{
    count_marks, counts_text, label_text, members_text, near_text, report_text, summary_text,
};
use plain_dbscan::{Mark, Marks};
use std::alloc::{AllocError, Global};
use std::test::Fail;
use vec_record::{Bytes, Number, Numbers};

/// Two clusters of one core, a border of each, and noise.
const MARKS: [(Number, Mark); 5] = [
    (1, Mark::Border(3)),
    (3, Mark::Core(3)),
    (4, Mark::Core(4)),
    (10, Mark::Noise),
    (4294967295, Mark::Border(4)),
];

const REPORT: &[u8] = b"1 border 3\n3 core 3\n4 core 4\n10 noise\n4294967295 border 4\n\
records 5 cores 2 borders 2 noise 1 clusters 2\n";

const SUMMARY: &[u8] = b"records 5 cores 2 borders 2 noise 1 clusters 2\n";

fn listed(alloc: Global, items: &[(Number, Mark)]) -> Result<Marks, AllocError> {
    let mut marks = Marks::new(alloc);
    for item in items {
        marks.push(*item)?;
    }
    Ok(marks)
}

#[test]
fn report(rt: HostRuntime) -> Result<(), Fail> {
    let mut out = Bytes::new(rt.alloc());
    report_text(&listed(rt.alloc(), &MARKS)?, &mut out)?;
    assert!(rt; out.as_slice() == REPORT);
    Ok(())
}

#[test]
fn summary(rt: HostRuntime) -> Result<(), Fail> {
    let mut out = Bytes::new(rt.alloc());
    summary_text(&listed(rt.alloc(), &MARKS)?, &mut out)?;
    assert!(rt; out.as_slice() == SUMMARY);
    let mut counts = Bytes::new(rt.alloc());
    counts_text(&count_marks(&MARKS), &mut counts)?;
    assert!(rt; counts.as_slice() == SUMMARY);
    Ok(())
}

#[test]
fn lines(rt: HostRuntime) -> Result<(), Fail> {
    let alloc = rt.alloc();
    let mut out = Bytes::new(alloc);
    label_text(10, Mark::Noise, &mut out)?;
    members_text(3, &listed(alloc, &MARKS[..2])?, &mut out)?;
    let mut near = Numbers::new(alloc);
    near.push(3)?;
    near.push(7)?;
    near_text(7, &near, &mut out)?;
    let want: &[u8] = b"10 noise\ncluster 3 size 2\n1 border\n3 core\nnear 7 size 2\n3\n7\n";
    assert!(rt; out.as_slice() == want);
    Ok(())
}
