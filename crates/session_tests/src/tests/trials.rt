//! Trials: changes of the generator, applied without a store.
use super::{USAGE, run_on};
use session_desk::Status;
use std::test::Fail;
use vec_record::Bytes;

/// The words, how the run ends, and what it says.
const TRIALS: [(&str, Status, &str); 11] = [
    (
        "trial 1 3",
        Status::Fine,
        "tally noise 3 created 0 absorbed 0 merged 0 removed 0 reduced 0 split 0\n\
        records 3 cores 0 borders 0 noise 3 clusters 0\n",
    ),
    (
        "trial 0000000001 003",
        Status::Fine,
        "tally noise 3 created 0 absorbed 0 merged 0 removed 0 reduced 0 split 0\n\
        records 3 cores 0 borders 0 noise 3 clusters 0\n",
    ),
    (
        "trial 4294967295 1",
        Status::Fine,
        "tally noise 1 created 0 absorbed 0 merged 0 removed 0 reduced 0 split 0\n\
        records 1 cores 0 borders 0 noise 1 clusters 0\n",
    ),
    (
        "trial 7 300",
        Status::Fine,
        "tally noise 218 created 0 absorbed 0 merged 0 removed 0 reduced 0 split 0\n\
        records 136 cores 0 borders 0 noise 136 clusters 0\n",
    ),
    (
        "trial 10 1000",
        Status::Fine,
        "tally noise 714 created 1 absorbed 0 merged 0 removed 0 reduced 0 split 0\n\
        records 430 cores 4 borders 0 noise 426 clusters 1\n",
    ),
    (
        "trial 12 1000",
        Status::Fine,
        "tally noise 709 created 1 absorbed 0 merged 0 removed 1 reduced 0 split 0\n\
        records 420 cores 0 borders 0 noise 420 clusters 0\n",
    ),
    ("trial 0 0", Status::Words, USAGE),
    ("trial 1 100001", Status::Words, USAGE),
    ("trial 4294967296 1", Status::Words, USAGE),
    ("trial 1 00000000003", Status::Words, USAGE),
    ("trial 1", Status::Words, USAGE),
];

#[test]
fn worked_trials(rt: HostRuntime) -> Result<(), Fail> {
    for (words, status, said) in TRIALS {
        let end = run_on(&rt, words, Bytes::new(rt.alloc()), 1, (0, 0))?;
        assert_eq!(rt; end.status, status, "{words}");
        assert_eq!(rt; end.said.as_slice(), said.as_bytes(), "{words}");
    }
    Ok(())
}
