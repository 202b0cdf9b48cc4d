//! Tables of bodies, vectors and checks, with what is due to each.

ghost use Rattle.std.specs.Prelude.{◌≡◌, ◌≤◌, length};
ghost use Rattle.vec_record.specs.Limits.{width_of};

use crate::apply::{apply_all, apply_change};
use crate::check::check_batch;
use crate::faults::CheckFault::{Full, Repeated, Unknown};
use crate::faults::LineFault::{Malformed, WrongLength};
use crate::faults::{CheckFault, LineFault};
use crate::read::{ReadBatch, read_batch};
use std::alloc::{AllocError, Global};
use std::test::Fail;
use vec_record::MetricKind::{Hamming, L1, Max};
use vec_record::{Change, MetricKind, Params, Records, Vector};

/// What a body says under these parameters, with room for two records.
fn read(alloc: Global, metric: MetricKind, dim: u32, body: &[u8]) -> Result<ReadBatch, AllocError>
    requires { length body.now ≤ 500_000 }
{
    match Params::check(metric, dim, 1, 1, 2) {
        Some(params) => read_batch(alloc, body, &params),
        None => Err(AllocError),
    }
}

/// What bodies say: how many changes come first, the fault behind them, and how many records there
/// are.
#[test]
fn bodies(rt: HostRuntime) -> Result<(), Fail> {
    let malformed = Some(LineFault::Malformed);
    let wrong_length = Some(LineFault::WrongLength);
    let table = [
        (b"".as_slice(), 0usize, None, 0u32),
        (b"+,4,255\n-,4\n".as_slice(), 2, None, 2),
        (b"+,4294967295,1\n+,0000000001,01\n".as_slice(), 2, None, 2),
        (b"\"+\",\"1\",\"0\"\r\n".as_slice(), 1, None, 1),
        (b"\xEF\xBB\xBF-,1\n".as_slice(), 1, None, 1),
        (b"-,1\n\xEF\xBB\xBF-,2\n".as_slice(), 1, malformed, 2),
        (b"+,1\"2\",3\n".as_slice(), 0, malformed, 1),
        (b"+,\"1\"\"\",3\n".as_slice(), 0, malformed, 1),
        (b"-,1\n-,\"2\n-,3\n".as_slice(), 1, malformed, 2),
        (b"-,1\r-,2\r\n\n\r\n\n-,3".as_slice(), 3, None, 3),
        (b"+,4,256,1\n".as_slice(), 0, malformed, 1),
        (b"-,4,1\n".as_slice(), 0, malformed, 1),
        (b"+,0,1\n".as_slice(), 0, malformed, 1),
        (b"+,4294967296,1\n".as_slice(), 0, malformed, 1),
        (b"+,00000000001,1\n".as_slice(), 0, malformed, 1),
        (b"*,4,1\n".as_slice(), 0, malformed, 1),
        (b"+,4,\n".as_slice(), 0, malformed, 1),
        (b"+,4,\xFF\n".as_slice(), 0, malformed, 1),
        (b" \n".as_slice(), 0, malformed, 1),
        (b"+,4\n".as_slice(), 0, wrong_length, 1),
        (b"-,1\n+,4,1,1\n*\n-,2\n".as_slice(), 1, wrong_length, 4),
    ];
    for (body, good, fault, total) in table {
        assert!(rt; body.len() <= 500_000);
        let batch = read(rt.alloc(), MetricKind::L1, 1, body)?;
        assert!(rt; batch.changes.len() == good);
        assert!(rt; batch.fault == fault);
        assert!(rt; batch.total == total);
    }
    Ok(())
}

/// A metric, a dimension, a record, the bytes of the vector that it spells, and the record's fault.
const VECTORS: [(MetricKind, u32, &[u8], &[u8], Option<LineFault>); 10] = [
    (L1, 2, b"+,1,1,255", b"\x01\xFF", None),
    (Max, 2, b"+,1,007,0", b"\x07\x00", None),
    (Hamming, 9, b"+,1,000000001", b"\x00\x80", None),
    (Hamming, 9, b"+,1,0000,00001", b"\x00\x80", None),
    (Hamming, 9, b"+,1,110000000", b"\xC0\x00", None),
    (Hamming, 5, b"+,1,10,1,01", b"\xA8", None),
    (Hamming, 5, b"+,1,1010", b"", Some(WrongLength)),
    (Hamming, 5, b"+,1,10101,", b"", Some(Malformed)),
    (Hamming, 5, b"+,1,10102", b"", Some(Malformed)),
    (Max, 1, b"+,1,1,256", b"", Some(Malformed)),
];

#[test]
fn vectors(rt: HostRuntime) -> Result<(), Fail> {
    for (metric, dim, body, bytes, fault) in VECTORS {
        assert!(rt; body.len() <= 500_000);
        let batch = read(rt.alloc(), metric, dim, body)?;
        assert!(rt; batch.fault == fault);
        assert!(rt; batch.changes.len() == usize::from(fault.is_none()));
        for change in batch.changes.as_slice() {
            match change {
                Change::Insert(number, vector) => {
                    assert!(rt; *number == 1);
                    assert!(rt; vector.as_slice() == bytes);
                }
                Change::Delete(_) => assert!(rt; false),
            }
        }
    }
    Ok(())
}

/// How many of so many records are counted.
#[test]
fn totals(rt: HostRuntime) -> Result<(), Fail> {
    for (lines, total) in [
        (99_999u32, 99_999u32),
        (100_000, 100_000),
        (100_001, 100_001),
        (100_003, 100_001),
    ] {
        let mut body = Vec::new(rt.alloc());
        for _ in 0..lines {
            body.extend_from_slice(b"-,1\n".as_slice())?;
        }
        assert!(rt; body.len() <= 500_000);
        let batch = read(rt.alloc(), MetricKind::L1, 1, &body)?;
        assert!(rt; batch.total == total);
        assert!(rt; batch.fault.is_none());
    }
    Ok(())
}

/// Reads a body and applies it to records, unless one of its changes cannot apply.
fn apply(
    alloc: Global,
    records: &mut Records,
    params: &Params,
    body: &[u8],
) -> Result<Option<CheckFault>, AllocError>
    requires body { length body.now ≤ 500_000 }
    requires width { records.old.width ≡ width_of params.now.metric params.now.dim }
    ensures { records.new.width ≡ records.old.width }
{
    let batch = read_batch(alloc, body, params)?;
    match check_batch(alloc, records, params, &batch.changes) {
        Ok(()) => {
            apply_all(records, params, batch.changes)?;
            Ok(None)
        }
        Err(fault) => Ok(Some(fault)),
    }
}

/// With room for two records, of which number 7 is there: a body, the change that cannot apply, how
/// many records there are then, and the vector of number 5.
const CHECKS: [(&[u8], Option<CheckFault>, usize, Option<u8>); 9] = [
    (b"", None, 1, None),
    (b"+,1,0\n+,3,2\n-,1\n", Some(Full { place: 2 }), 1, None),
    (b"+,1,0\n-,7\n+,3,2\n", None, 2, None),
    (b"+,5,0\n-,5\n+,5,9\n", None, 2, Some(9)),
    (b"-,7\n+,7,1\n+,5,3\n", None, 2, Some(3)),
    (b"-,7\n-,7\n", Some(Unknown { place: 2 }), 1, None),
    (b"-,4\n", Some(Unknown { place: 1 }), 1, None),
    (b"+,7,1\n", Some(Repeated { place: 1 }), 1, None),
    (b"-,7\n+,5,1\n+,5,1\n", Some(Repeated { place: 3 }), 1, None),
];

#[test]
fn checks(rt: HostRuntime) -> Result<(), Fail> {
    let params = Params::check(MetricKind::L1, 1, 1, 1, 2).expect(&rt, "within the limits");
    for (body, fault, size, coordinate) in CHECKS {
        let mut records = Records::new(rt.alloc(), params.width());
        let first = apply(rt.alloc(), &mut records, &params, b"+,7,0".as_slice())?;
        assert!(rt; first.is_none());
        assert!(rt; body.len() <= 500_000);
        let found = apply(rt.alloc(), &mut records, &params, body)?;
        assert!(rt; found == fault);
        assert!(rt; records.len() == size);
        match records.get(5) {
            Some(vector) => assert!(rt; vector.as_slice().first().copied() == coordinate),
            None => assert!(rt; coordinate.is_none()),
        }
    }
    Ok(())
}

/// One change after another, without a batch.
#[test]
fn single_changes(rt: HostRuntime) -> Result<(), Fail> {
    let mut records = Records::new(rt.alloc(), 1);
    let vector = Vector::from_slice(rt.alloc(), &[9])?;
    apply_change(&mut records, Change::Insert(7, vector))?;
    assert!(rt; records.len() == 1);
    let held = records.get(7).expect(&rt, "inserted");
    assert!(rt; held.as_slice() == [9].as_slice());
    apply_change(&mut records, Change::Delete(7))?;
    assert!(rt; records.len() == 0);
    Ok(())
}
