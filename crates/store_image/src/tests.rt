//! Stores of hand-made pages, loaded or refused.

ghost use Rattle.std.specs.Prelude.{◌≡◌, ◌<◌, ◌≤◌, length};

use crate::{StoreFault, load, read_params};
use int_metric::L1;
use page_gate::{Pages, open_pages};
use site_disk::{Failed, MemSite, Site};
use std::alloc::{AllocError, Global};
use std::marker::Brand;
use std::sync::ledger::{Blank, Ledger};
use std::test::Fail;
use vec_record::{Bytes, MetricKind, Numbers, Steps};

/// What stands for a fault of the device, or for another metric.
const WRONG: StoreFault = StoreFault::Damaged { page: 9, offset: 9 };

/// Page 1 of a store of `l1`, dimension 1, epsilon 1, 2 to a core and at most 100 records, which
/// has the one record 3 in four pages, and its tree's root in slot 0 of page 3.
const HEAD: [u8; 44] = [
    4, 0, 0, 0, 1, 0, 0, 0, 1, 0, 0, 0, 1, 0, 0, 0, 1, 0, 0, 0, 2, 0, 0, 0, 100, 0, 0, 0, 1, 0, 0,
    0, 1, 0, 0, 0, 192, 0, 0, 0, 1, 0, 0, 0,
];

/// Page 2 up to its second slot: the record 3 with one neighbour, itself, at the place 9.
const RECORDS: [u8; 33] = [
    1, 0, 0, 0, 0, 0, 0, 0, 0, 0, 0, 0, 0, 0, 0, 0, 3, 0, 0, 0, 1, 0, 0, 0, 0, 0, 0, 0, 0, 0, 0, 0,
    9,
];

/// Page 3 up to the second entry of its first slot: the record 3, at no distance of a parent.
const LEAVES: [u8; 40] = [
    2, 0, 0, 0, 0, 0, 0, 0, 0, 0, 0, 0, 0, 0, 0, 0, 1, 0, 0, 0, 0, 0, 0, 0, 0, 0, 0, 0, 0, 0, 0, 0,
    3, 0, 0, 0, 0, 0, 0, 0,
];

/// Page 2 up to its second slot, as a free page of leaves.
const TWO_LEAVES: [u8; 33] = [
    2, 0, 0, 0, 0, 0, 0, 0, 0, 0, 0, 0, 0, 0, 0, 0, 0, 0, 0, 0, 0, 0, 0, 0, 0, 0, 0, 0, 0, 0, 0, 0,
    0,
];

/// A slot with the record 3, and one with the record 4.
const AGAIN: [u8; 17] = [3, 0, 0, 0, 1, 0, 0, 0, 0, 0, 0, 0, 0, 0, 0, 0, 9];

const ANOTHER: [u8; 17] = [4, 0, 0, 0, 1, 0, 0, 0, 0, 0, 0, 0, 0, 0, 0, 0, 9];

/// Writes the store of one record, with these bytes changed.
fn store<T: Site>(site: &mut T, at: u64, bytes: &[u8]) -> Result<(), Failed>
    requires place { at < 65536 }
    requires few { length bytes.now ≤ 100 }
{
    site.write_at(65_535, &[0])?;
    site.write_at(0, b"\x01\0denswh")?;
    site.write_at(16_384, &HEAD)?;
    site.write_at(32_768, &RECORDS)?;
    site.write_at(49_152, &LEAVES)?;
    site.write_at(at, bytes)
}

/// The pages of the store of one record, with these bytes changed.
fn pages_with(alloc: Global, at: u64, bytes: &[u8]) -> Result<Pages, StoreFault>
    requires place { at < 65536 }
    requires few { length bytes.now ≤ 100 }
{
    let mut site = MemSite::new(Bytes::new(alloc), Numbers::new(alloc), None);
    if store(&mut site, at, bytes).is_err() {
        return Err(WRONG);
    }
    match open_pages(alloc, &mut site) {
        Ok(pages) => Ok(pages),
        Err(_) => Err(WRONG),
    }
}

/// The number and the place of the one record of a store in pages.
fn first_record<L: Ledger>(
    alloc: Global,
    pages: &Pages,
    steps: &mut Steps<L>,
) -> Result<(usize, Option<u8>), StoreFault> {
    let params = read_params(pages)?;
    match params.metric {
        MetricKind::L1 => {}
        MetricKind::Max | MetricKind::Hamming => return Err(WRONG),
    }
    let state = load::<L1, L>(alloc, pages, steps)?;
    let vector = state.records.get(3);
    Ok((state.records.len(), vector.map(|v| v.as_slice()[0])))
}

/// Bytes changed in the store of one record from a place on, and what a load answers then: how many
/// records there are and the place of record 3, or the refusal.
type Change = (u64, &'static [u8], Result<(usize, Option<u8>), StoreFault>);

const CHANGES: [Change; 13] = [
    // nothing changed, and record 3 as a core that leads its own cluster
    (16_384, &[4], Ok((1, Some(9)))),
    (32_788, &[2, 0, 0, 0, 0, 0, 0, 0, 3], Ok((1, Some(9)))),
    // the version before, and an unknown metric
    (16_388, &[0], Err(StoreFault::Foreign)),
    (
        16_392,
        &[9],
        Err(StoreFault::Damaged { page: 1, offset: 8 }),
    ),
    // a count of no neighbour, not even itself
    (
        32_788,
        &[0],
        Err(StoreFault::Damaged {
            page: 2,
            offset: 20,
        }),
    ),
    // page 2 as a free page of leaves: the second, where 100 records need one
    (
        32_768,
        &TWO_LEAVES,
        Err(StoreFault::Damaged { page: 1, offset: 0 }),
    ),
    // slot 1: record 3 again, and record 4, of which RECORDS doesn't know
    (
        32_801,
        &AGAIN,
        Err(StoreFault::Damaged {
            page: 2,
            offset: 33,
        }),
    ),
    (
        32_801,
        &ANOTHER,
        Err(StoreFault::Damaged {
            page: 1,
            offset: 32,
        }),
    ),
    // an anchor that is no core, and a label that no cluster has
    (
        32_792,
        &[3],
        Err(StoreFault::Damaged {
            page: 2,
            offset: 24,
        }),
    ),
    (
        32_788,
        &[2, 0, 0, 0, 0, 0, 0, 0, 1],
        Err(StoreFault::Damaged {
            page: 2,
            offset: 28,
        }),
    ),
    // a root that no leaf is at, an entry of no record, and a distance in the root
    (
        16_420,
        &[193],
        Err(StoreFault::Damaged {
            page: 1,
            offset: 36,
        }),
    ),
    (
        49_184,
        &[4],
        Err(StoreFault::Damaged {
            page: 3,
            offset: 32,
        }),
    ),
    (
        49_188,
        &[5],
        Err(StoreFault::Damaged {
            page: 3,
            offset: 36,
        }),
    ),
];

/// Whether each change is answered so.
fn are_answered<L: Ledger>(rt: &HostRuntime, blank: Blank) -> Result<bool, AllocError>
    requires name { blank.name ≡ L.name }
    requires parts { blank.parts ≡ L.parts }
    requires some { 0 < blank.parts }
{
    let alloc = rt.alloc();
    let mut steps = Steps::<L>::new(rt, blank);
    for (at, bytes, answer) in CHANGES {
        if at >= 65_536 || bytes.len() > 100 {
            return Ok(false);
        }
        let found = match pages_with(alloc, at, bytes) {
            Ok(pages) => first_record(alloc, &pages, &mut steps),
            Err(fault) => Err(fault),
        };
        if found != answer {
            return Ok(false);
        }
    }
    Ok(true)
}

#[test]
fn changed_bytes_are_refused(rt: HostRuntime) -> Result<(), Fail> {
    assert!(rt; are_answered::<Brand>(&rt, Blank::new(1))?);
    Ok(())
}
