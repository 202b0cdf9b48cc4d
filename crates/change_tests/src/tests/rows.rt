//! Records that come and go one by one, with the events of each.

ghost use Rattle.std.specs.Prelude.{◌≡◌, ◌<◌};

use crate::tests::house::{Setting, add, empty_house, is_plain, nothing_plain, take_out};
use int_metric::{Hamming, L1};
use std::alloc::AllocError;
use std::marker::Brand;
use std::sync::ledger::{Blank, Ledger};
use std::test::Fail;
use vec_record::{Event, Kind, Metric, Number, Steps};

/// The kind of an event, the old label and the new one.
type Told = (Kind, Number, Number);

/// Records of two coordinates that come one after the other, numbers that go again, and all events.
struct Row {
    setting: Setting,
    records: &'static [(Number, [u8; 2])],
    gone: &'static [Number],
    events: &'static [Told],
}

const ROWS: [Row; 17] = [
    // A chain of five falls in two.
    Row {
        setting: Setting { eps: 1, minpts: 2 },
        records: &[
            (1, [0, 0]),
            (2, [1, 0]),
            (3, [2, 0]),
            (4, [3, 0]),
            (5, [4, 0]),
        ],
        gone: &[3],
        events: &[
            (Kind::Noise, 0, 1),
            (Kind::Created, 0, 1),
            (Kind::Absorbed, 1, 1),
            (Kind::Absorbed, 1, 1),
            (Kind::Absorbed, 1, 1),
            (Kind::Split, 1, 1),
            (Kind::Split, 1, 4),
        ],
    },
    // The third joins two clusters.
    Row {
        setting: Setting { eps: 1, minpts: 2 },
        records: &[
            (1, [0, 0]),
            (2, [1, 0]),
            (4, [3, 0]),
            (5, [4, 0]),
            (3, [2, 0]),
        ],
        gone: &[],
        events: &[
            (Kind::Noise, 0, 1),
            (Kind::Created, 0, 1),
            (Kind::Noise, 0, 4),
            (Kind::Created, 0, 4),
            (Kind::Merged, 1, 1),
            (Kind::Merged, 4, 1),
        ],
    },
    // A record that is no core makes two clusters, and ends both.
    Row {
        setting: Setting { eps: 1, minpts: 4 },
        records: &[
            (1, [8, 0]),
            (2, [8, 0]),
            (3, [9, 0]),
            (4, [11, 0]),
            (5, [12, 0]),
            (6, [12, 0]),
            (7, [10, 0]),
        ],
        gone: &[7],
        events: &[
            (Kind::Noise, 0, 1),
            (Kind::Noise, 0, 2),
            (Kind::Noise, 0, 3),
            (Kind::Noise, 0, 4),
            (Kind::Noise, 0, 5),
            (Kind::Noise, 0, 6),
            (Kind::Created, 0, 3),
            (Kind::Created, 0, 4),
            (Kind::Removed, 3, 0),
            (Kind::Removed, 4, 0),
        ],
    },
    // Equal vectors, and no distance allowed.
    Row {
        setting: Setting { eps: 0, minpts: 3 },
        records: &[
            (9, [5, 0]),
            (4, [5, 0]),
            (7, [6, 0]),
            (2, [5, 0]),
            (1, [5, 0]),
        ],
        gone: &[9, 2, 4, 1],
        events: &[
            (Kind::Noise, 0, 9),
            (Kind::Noise, 0, 4),
            (Kind::Noise, 0, 7),
            (Kind::Created, 0, 2),
            (Kind::Absorbed, 2, 1),
            (Kind::Reduced, 1, 1),
            (Kind::Removed, 1, 0),
        ],
    },
    // Each record is a core.
    Row {
        setting: Setting { eps: 1, minpts: 1 },
        records: &[
            (3, [7, 0]),
            (2, [9, 0]),
            (1, [11, 0]),
            (4, [8, 0]),
            (5, [10, 0]),
        ],
        gone: &[5, 4, 3],
        events: &[
            (Kind::Created, 0, 3),
            (Kind::Created, 0, 2),
            (Kind::Created, 0, 1),
            (Kind::Merged, 2, 2),
            (Kind::Merged, 3, 2),
            (Kind::Merged, 1, 1),
            (Kind::Merged, 2, 1),
            (Kind::Split, 1, 1),
            (Kind::Split, 1, 2),
            (Kind::Split, 2, 2),
            (Kind::Split, 2, 3),
            (Kind::Removed, 3, 0),
        ],
    },
    // A border between two clusters becomes a core, and joins them.
    Row {
        setting: Setting { eps: 2, minpts: 4 },
        records: &[
            (1, [10, 0]),
            (2, [10, 0]),
            (3, [10, 0]),
            (4, [10, 0]),
            (5, [14, 0]),
            (6, [14, 0]),
            (7, [14, 0]),
            (8, [14, 0]),
            (9, [12, 0]),
        ],
        gone: &[],
        events: &[
            (Kind::Noise, 0, 1),
            (Kind::Noise, 0, 2),
            (Kind::Noise, 0, 3),
            (Kind::Created, 0, 1),
            (Kind::Noise, 0, 5),
            (Kind::Noise, 0, 6),
            (Kind::Noise, 0, 7),
            (Kind::Created, 0, 5),
            (Kind::Merged, 1, 1),
            (Kind::Merged, 5, 1),
        ],
    },
    // The same, where the border is there first and becomes a core by a later record.
    Row {
        setting: Setting { eps: 2, minpts: 5 },
        records: &[
            (9, [12, 0]),
            (1, [9, 0]),
            (2, [9, 0]),
            (3, [9, 0]),
            (4, [9, 0]),
            (10, [10, 0]),
            (5, [15, 0]),
            (6, [15, 0]),
            (7, [15, 0]),
            (8, [15, 0]),
            (11, [14, 0]),
            (12, [12, 0]),
            (13, [12, 0]),
        ],
        gone: &[],
        events: &[
            (Kind::Noise, 0, 9),
            (Kind::Noise, 0, 1),
            (Kind::Noise, 0, 2),
            (Kind::Noise, 0, 3),
            (Kind::Noise, 0, 4),
            (Kind::Created, 0, 1),
            (Kind::Noise, 0, 5),
            (Kind::Noise, 0, 6),
            (Kind::Noise, 0, 7),
            (Kind::Noise, 0, 8),
            (Kind::Created, 0, 5),
            (Kind::Noise, 0, 12),
            (Kind::Merged, 1, 1),
            (Kind::Merged, 5, 1),
        ],
    },
    // The last joins four clusters.
    Row {
        setting: Setting { eps: 3, minpts: 2 },
        records: &[
            (11, [10, 7]),
            (12, [10, 6]),
            (7, [13, 10]),
            (8, [14, 10]),
            (3, [10, 13]),
            (4, [10, 14]),
            (9, [7, 10]),
            (10, [6, 10]),
            (5, [10, 10]),
        ],
        gone: &[],
        events: &[
            (Kind::Noise, 0, 11),
            (Kind::Created, 0, 11),
            (Kind::Noise, 0, 7),
            (Kind::Created, 0, 7),
            (Kind::Noise, 0, 3),
            (Kind::Created, 0, 3),
            (Kind::Noise, 0, 9),
            (Kind::Created, 0, 9),
            (Kind::Merged, 3, 3),
            (Kind::Merged, 7, 3),
            (Kind::Merged, 9, 3),
            (Kind::Merged, 11, 3),
        ],
    },
    // Nothing is near.
    Row {
        setting: Setting { eps: 1, minpts: 2 },
        records: &[(1, [0, 0]), (2, [9, 0])],
        gone: &[2, 1],
        events: &[(Kind::Noise, 0, 1), (Kind::Noise, 0, 2)],
    },
    // A chain of five ends.
    Row {
        setting: Setting { eps: 1, minpts: 3 },
        records: &[
            (1, [0, 0]),
            (2, [1, 0]),
            (3, [2, 0]),
            (4, [3, 0]),
            (5, [4, 0]),
        ],
        gone: &[3],
        events: &[
            (Kind::Noise, 0, 1),
            (Kind::Noise, 0, 2),
            (Kind::Created, 0, 2),
            (Kind::Absorbed, 2, 2),
            (Kind::Absorbed, 2, 2),
            (Kind::Removed, 2, 0),
        ],
    },
    // A border moves to the other cluster.
    Row {
        setting: Setting { eps: 1, minpts: 4 },
        records: &[
            (1, [8, 0]),
            (2, [8, 0]),
            (3, [9, 0]),
            (4, [11, 0]),
            (5, [12, 0]),
            (6, [12, 0]),
            (7, [10, 0]),
        ],
        gone: &[1],
        events: &[
            (Kind::Noise, 0, 1),
            (Kind::Noise, 0, 2),
            (Kind::Noise, 0, 3),
            (Kind::Noise, 0, 4),
            (Kind::Noise, 0, 5),
            (Kind::Noise, 0, 6),
            (Kind::Created, 0, 3),
            (Kind::Created, 0, 4),
            (Kind::Removed, 3, 0),
        ],
    },
    // A cluster loses its least core.
    Row {
        setting: Setting { eps: 1, minpts: 2 },
        records: &[(1, [0, 0]), (2, [0, 0]), (3, [1, 0])],
        gone: &[1],
        events: &[
            (Kind::Noise, 0, 1),
            (Kind::Created, 0, 1),
            (Kind::Absorbed, 1, 1),
            (Kind::Reduced, 1, 2),
        ],
    },
    // A border goes, and noise: nothing happens.
    Row {
        setting: Setting { eps: 1, minpts: 4 },
        records: &[
            (1, [10, 0]),
            (2, [11, 0]),
            (3, [11, 0]),
            (4, [12, 0]),
            (5, [12, 0]),
            (6, [13, 0]),
            (7, [50, 0]),
        ],
        gone: &[1, 7],
        events: &[
            (Kind::Noise, 0, 1),
            (Kind::Noise, 0, 2),
            (Kind::Noise, 0, 3),
            (Kind::Created, 0, 2),
            (Kind::Absorbed, 2, 2),
            (Kind::Noise, 0, 6),
            (Kind::Noise, 0, 7),
        ],
    },
    // A core goes, and its cluster stays whole.
    Row {
        setting: Setting { eps: 1, minpts: 4 },
        records: &[
            (1, [10, 0]),
            (2, [11, 0]),
            (3, [11, 0]),
            (4, [12, 0]),
            (5, [12, 0]),
            (6, [13, 0]),
            (7, [50, 0]),
        ],
        gone: &[7, 2],
        events: &[
            (Kind::Noise, 0, 1),
            (Kind::Noise, 0, 2),
            (Kind::Noise, 0, 3),
            (Kind::Created, 0, 2),
            (Kind::Absorbed, 2, 2),
            (Kind::Noise, 0, 6),
            (Kind::Noise, 0, 7),
            (Kind::Reduced, 2, 3),
        ],
    },
    // A ring stays one cluster.
    Row {
        setting: Setting { eps: 2, minpts: 2 },
        records: &[
            (1, [0, 0]),
            (2, [2, 0]),
            (3, [4, 0]),
            (4, [4, 2]),
            (5, [4, 4]),
            (6, [2, 4]),
            (7, [0, 4]),
            (8, [0, 2]),
        ],
        gone: &[5],
        events: &[
            (Kind::Noise, 0, 1),
            (Kind::Created, 0, 1),
            (Kind::Absorbed, 1, 1),
            (Kind::Absorbed, 1, 1),
            (Kind::Absorbed, 1, 1),
            (Kind::Absorbed, 1, 1),
            (Kind::Absorbed, 1, 1),
            (Kind::Absorbed, 1, 1),
            (Kind::Reduced, 1, 1),
        ],
    },
    // Two clusters lose their label, and are told by the one they had.
    Row {
        setting: Setting { eps: 2, minpts: 4 },
        records: &[
            (1, [3, 1]),
            (2, [4, 0]),
            (3, [5, 2]),
            (4, [3, 2]),
            (5, [1, 0]),
            (6, [6, 0]),
            (7, [1, 2]),
            (8, [1, 0]),
            (9, [5, 0]),
        ],
        gone: &[1],
        events: &[
            (Kind::Noise, 0, 1),
            (Kind::Noise, 0, 2),
            (Kind::Noise, 0, 3),
            (Kind::Noise, 0, 4),
            (Kind::Noise, 0, 5),
            (Kind::Noise, 0, 6),
            (Kind::Created, 0, 4),
            (Kind::Absorbed, 4, 4),
            (Kind::Created, 0, 2),
            (Kind::Reduced, 2, 9),
            (Kind::Reduced, 4, 7),
        ],
    },
    // Of two clusters one falls in two, and one ends.
    Row {
        setting: Setting { eps: 2, minpts: 4 },
        records: &[
            (1, [3, 0]),
            (2, [0, 0]),
            (3, [7, 2]),
            (4, [0, 1]),
            (5, [5, 2]),
            (6, [4, 0]),
            (7, [6, 0]),
            (8, [3, 2]),
            (9, [2, 2]),
            (10, [4, 0]),
            (11, [7, 2]),
            (12, [1, 1]),
        ],
        gone: &[9],
        events: &[
            (Kind::Noise, 0, 1),
            (Kind::Noise, 0, 2),
            (Kind::Noise, 0, 3),
            (Kind::Noise, 0, 4),
            (Kind::Noise, 0, 5),
            (Kind::Noise, 0, 6),
            (Kind::Noise, 0, 7),
            (Kind::Noise, 0, 8),
            (Kind::Created, 0, 8),
            (Kind::Absorbed, 8, 1),
            (Kind::Absorbed, 1, 1),
            (Kind::Created, 0, 12),
            (Kind::Split, 1, 1),
            (Kind::Split, 1, 5),
            (Kind::Removed, 12, 0),
        ],
    },
];

/// Five arms of sixteen bits, and the centre that joins them and goes again.
const STAR: Row = Row {
    setting: Setting { eps: 3, minpts: 2 },
    records: &[
        (10, [224, 0]),
        (20, [224, 1]),
        (11, [28, 0]),
        (21, [28, 1]),
        (12, [3, 128]),
        (22, [3, 129]),
        (13, [0, 112]),
        (23, [0, 113]),
        (14, [0, 14]),
        (24, [0, 15]),
        (3, [0, 0]),
    ],
    gone: &[3],
    events: &[
        (Kind::Noise, 0, 10),
        (Kind::Created, 0, 10),
        (Kind::Noise, 0, 11),
        (Kind::Created, 0, 11),
        (Kind::Noise, 0, 12),
        (Kind::Created, 0, 12),
        (Kind::Noise, 0, 13),
        (Kind::Created, 0, 13),
        (Kind::Noise, 0, 14),
        (Kind::Created, 0, 14),
        (Kind::Merged, 10, 3),
        (Kind::Merged, 11, 3),
        (Kind::Merged, 12, 3),
        (Kind::Merged, 13, 3),
        (Kind::Merged, 14, 3),
        (Kind::Split, 3, 10),
        (Kind::Split, 3, 11),
        (Kind::Split, 3, 12),
        (Kind::Split, 3, 13),
        (Kind::Split, 3, 14),
    ],
};

/// Whether the events are these: the kind, the old label and the new one of each.
fn are_told(events: &[Event], told: &[Told]) -> bool {
    if events.len() != told.len() {
        return false;
    }
    for i in 0..events.len() {
        let (kind, from, to) = told[i];
        if events[i] != (Event { kind, from, to }) {
            return false;
        }
    }
    true
}

/// Whether the changes can be made one after the other, each to what plain clustering says, and
/// their events are those of the row.
fn plays<M: Metric, L: Ledger>(
    rt: &HostRuntime,
    blank: Blank,
    row: &Row,
) -> Result<bool, AllocError>
    requires name { blank.name ≡ L.name }
    requires parts { blank.parts ≡ L.parts }
    requires some { 0 < blank.parts }
{
    let alloc = rt.alloc();
    let mut steps = Steps::<L>::new(rt, blank);
    let mut house = empty_house::<M>(alloc, 2, row.setting.minpts);
    let mut plain = nothing_plain(alloc);
    for record in row.records {
        if !add::<M, _, L>(
            alloc,
            &mut house,
            row.setting.eps,
            record.0,
            &record.1,
            &mut steps,
        )? || !is_plain::<M, _, L>(alloc, &house, row.setting, &mut plain, &mut steps)?
        {
            return Ok(false);
        }
    }
    for number in row.gone {
        if !take_out::<M, _, L>(alloc, &mut house, row.setting.eps, *number, &mut steps)?
            || !is_plain::<M, _, L>(alloc, &house, row.setting, &mut plain, &mut steps)?
        {
            return Ok(false);
        }
    }
    Ok(are_told(house.told.as_slice(), row.events))
}

#[test]
fn rows(rt: HostRuntime) -> Result<(), Fail> {
    for row in &ROWS {
        assert!(rt; plays::<L1, Brand>(&rt, Blank::new(1), row)?);
    }
    Ok(())
}

#[test]
fn star(rt: HostRuntime) -> Result<(), Fail> {
    assert!(rt; plays::<Hamming, Brand>(&rt, Blank::new(1), &STAR)?);
    Ok(())
}
