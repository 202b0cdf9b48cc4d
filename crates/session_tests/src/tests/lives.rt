//! Runs one after another over one file.
use super::{Outcome, bytes_of, ended, run_in_memory, words_of};
use session_desk::Status;
use site_disk::{MemSite, MemSource};
use std::alloc::AllocError;
use std::test::Fail;
use vec_record::{Bytes, Numbers};

/// The words and the input of a run, and its status and what it says.
pub type Turn = (&'static str, &'static str, Status, &'static str);

/// Each life begins with a blank file.
const LIVES: [&[Turn]; 14] = [
    // A store with nothing in it.
    &[
        ("init l1 1 1 2 100", "", Status::Fine, "born\n"),
        ("serve", "", Status::Fine, ""),
        (
            "serve",
            "report\n",
            Status::Fine,
            "records 0 cores 0 borders 0 noise 0 clusters 0\n",
        ),
        ("init l1 1 1 2 100", "", Status::Exists, "store exists\n"),
        (
            "serve",
            "\n\nreport\n\n",
            Status::Fine,
            "records 0 cores 0 borders 0 noise 0 clusters 0\n",
        ),
        (
            "serve",
            "batch\nend\n",
            Status::Fine,
            "ok 1 +0 -0 noise 0 created 0 absorbed 0 merged 0 removed 0 reduced 0 split 0\n",
        ),
    ],
    // A cluster falls apart where its middle goes.
    &[
        ("init l1 1 1 2 100", "", Status::Fine, "born\n"),
        (
            "serve",
            "batch\n+,1,0\n+,2,1\n+,3,2\n+,4,3\n+,5,4\nend\nbatch\n-,3\nend\nreport\n",
            Status::Fine,
            "ok 1 +5 -0 noise 1 created 1 absorbed 3 merged 0 removed 0 reduced 0 split 0\n\
            ok 2 +0 -1 noise 0 created 0 absorbed 0 merged 0 removed 0 reduced 0 split 2\n\
            1 core 1\n2 core 1\n4 core 4\n5 core 4\n\
            records 4 cores 4 borders 0 noise 0 clusters 2\n",
        ),
        (
            "serve",
            "report\n",
            Status::Fine,
            "1 core 1\n2 core 1\n4 core 4\n5 core 4\nrecords 4 cores 4 borders 0 noise 0 clusters 2\n",
        ),
    ],
    // A cluster ends where its middle goes.
    &[
        ("init l1 1 1 3 100", "", Status::Fine, "born\n"),
        (
            "serve",
            "batch\n+,1,0\n+,2,1\n+,3,2\n+,4,3\n+,5,4\nend\n",
            Status::Fine,
            "ok 1 +5 -0 noise 2 created 1 absorbed 2 merged 0 removed 0 reduced 0 split 0\n",
        ),
        (
            "serve",
            "batch\n-,3\nend\nreport\n",
            Status::Fine,
            "ok 2 +0 -1 noise 0 created 0 absorbed 0 merged 0 removed 1 reduced 0 split 0\n\
            1 noise\n2 noise\n4 noise\n5 noise\nrecords 4 cores 0 borders 0 noise 4 clusters 0\n",
        ),
    ],
    // Two clusters become one.
    &[
        ("init l1 1 1 2 100", "", Status::Fine, "born\n"),
        (
            "serve",
            "batch\n+,1,0\n+,2,1\n+,4,3\n+,5,4\nend\nbatch\n+,3,2\nend\nreport\n",
            Status::Fine,
            "ok 1 +4 -0 noise 2 created 2 absorbed 0 merged 0 removed 0 reduced 0 split 0\n\
            ok 2 +1 -0 noise 0 created 0 absorbed 0 merged 2 removed 0 reduced 0 split 0\n\
            1 core 1\n2 core 1\n3 core 1\n4 core 1\n5 core 1\n\
            records 5 cores 5 borders 0 noise 0 clusters 1\n",
        ),
    ],
    // One record makes two clusters, and ends both though it isn't core.
    &[
        ("init l1 1 1 4 100", "", Status::Fine, "born\n"),
        (
            "serve",
            "batch\n+,1,8\n+,2,8\n+,3,9\n+,4,11\n+,5,12\n+,6,12\nend\nbatch\n+,7,10\nend\nreport\n",
            Status::Fine,
            "ok 1 +6 -0 noise 6 created 0 absorbed 0 merged 0 removed 0 reduced 0 split 0\n\
            ok 2 +1 -0 noise 0 created 2 absorbed 0 merged 0 removed 0 reduced 0 split 0\n\
            1 border 3\n2 border 3\n3 core 3\n4 core 4\n5 border 4\n6 border 4\n7 border 3\n\
            records 7 cores 2 borders 5 noise 0 clusters 2\n",
        ),
        (
            "serve",
            "batch\n-,7\nend\n",
            Status::Fine,
            "ok 3 +0 -1 noise 0 created 0 absorbed 0 merged 0 removed 2 reduced 0 split 0\n",
        ),
    ],
    // A border moves to the other cluster.
    &[
        ("init l1 1 1 4 100", "", Status::Fine, "born\n"),
        (
            "serve",
            "batch\n+,1,8\n+,2,8\n+,3,9\n+,4,11\n+,5,12\n+,6,12\nend\nbatch\n+,7,10\nend\nreport\n",
            Status::Fine,
            "ok 1 +6 -0 noise 6 created 0 absorbed 0 merged 0 removed 0 reduced 0 split 0\n\
            ok 2 +1 -0 noise 0 created 2 absorbed 0 merged 0 removed 0 reduced 0 split 0\n\
            1 border 3\n2 border 3\n3 core 3\n4 core 4\n5 border 4\n6 border 4\n7 border 3\n\
            records 7 cores 2 borders 5 noise 0 clusters 2\n",
        ),
        (
            "serve",
            "batch\n-,1\nend\nreport\n",
            Status::Fine,
            "ok 3 +0 -1 noise 0 created 0 absorbed 0 merged 0 removed 1 reduced 0 split 0\n\
            2 noise\n3 noise\n4 core 4\n5 border 4\n6 border 4\n7 border 4\n\
            records 6 cores 1 borders 3 noise 2 clusters 1\n",
        ),
    ],
    // A cluster loses the record that it was named after.
    &[
        ("init l1 1 1 2 100", "", Status::Fine, "born\n"),
        (
            "serve",
            "batch\n+,1,0\n+,2,0\n+,3,1\nend\nbatch\n-,1\nend\nreport\n",
            Status::Fine,
            "ok 1 +3 -0 noise 1 created 1 absorbed 1 merged 0 removed 0 reduced 0 split 0\n\
            ok 2 +0 -1 noise 0 created 0 absorbed 0 merged 0 removed 0 reduced 1 split 0\n\
            2 core 2\n3 core 2\nrecords 2 cores 2 borders 0 noise 0 clusters 1\n",
        ),
    ],
    // A refused batch changes nothing, and the session goes on.
    &[
        ("init l1 1 0 1 100", "", Status::Fine, "born\n"),
        (
            "serve",
            "batch\n+,5,0\nend\n",
            Status::Fine,
            "ok 1 +1 -0 noise 0 created 1 absorbed 0 merged 0 removed 0 reduced 0 split 0\n",
        ),
        (
            "serve",
            "batch\n+,5,9\n-,5\nend\nbatch\n-,5\n+,5,9\nend\nreport\n",
            Status::Refused,
            "refused 13 at 1\n\
            ok 2 +1 -1 noise 0 created 1 absorbed 0 merged 0 removed 1 reduced 0 split 0\n\
            5 core 5\nrecords 1 cores 1 borders 0 noise 0 clusters 1\n",
        ),
    ],
    // A store of two records is full where a third would come.
    &[
        ("init l1 1 1 2 2", "", Status::Fine, "born\n"),
        (
            "serve",
            "batch\n+,1,0\n+,2,1\n+,3,2\n-,1\nend\nbatch\n+,1,0\n+,2,1\n-,1\n+,3,2\nend\n",
            Status::Refused,
            "refused 15 at 3\n\
            ok 1 +3 -1 noise 1 created 2 absorbed 0 merged 0 removed 1 reduced 0 split 0\n",
        ),
    ],
    // A batch without its end is refused, and what was there stays.
    &[
        ("init l1 1 1 2 100", "", Status::Fine, "born\n"),
        (
            "serve",
            "batch\n+,1,0\nend\nbatch\n+,2,1\n",
            Status::Refused,
            "ok 1 +1 -0 noise 1 created 0 absorbed 0 merged 0 removed 0 reduced 0 split 0\n\
            refused 17\n",
        ),
        (
            "serve",
            "report\nsummaries\nreport now\n Report\nbatch\n+,2,1\nend",
            Status::Refused,
            "1 noise\nrecords 1 cores 0 borders 0 noise 1 clusters 0\nrefused 21\nrefused 21\n\
            refused 21\n\
            ok 2 +1 -0 noise 0 created 1 absorbed 0 merged 0 removed 0 reduced 0 split 0\n",
        ),
    ],
    // 31 equal vectors, as many as overfill one node of a tree, come and go.
    &[
        ("init l1 1 0 1 100", "", Status::Fine, "born\n"),
        (
            "serve",
            "batch\n\
            +,1,5\n+,2,5\n+,3,5\n+,4,5\n+,5,5\n+,6,5\n+,7,5\n+,8,5\n\
            +,9,5\n+,10,5\n+,11,5\n+,12,5\n+,13,5\n+,14,5\n+,15,5\n+,16,5\n\
            +,17,5\n+,18,5\n+,19,5\n+,20,5\n+,21,5\n+,22,5\n+,23,5\n+,24,5\n\
            +,25,5\n+,26,5\n+,27,5\n+,28,5\n+,29,5\n+,30,5\n+,31,5\n\
            end\n",
            Status::Fine,
            "ok 1 +31 -0 noise 0 created 1 absorbed 30 merged 0 removed 0 reduced 0 split 0\n",
        ),
        (
            "serve",
            "batch\n\
            -,1\n-,2\n-,3\n-,4\n-,5\n-,6\n-,7\n-,8\n\
            -,9\n-,10\n-,11\n-,12\n-,13\n-,14\n-,15\n-,16\n\
            -,17\n-,18\n-,19\n-,20\n-,21\n-,22\n-,23\n-,24\n\
            -,25\n-,26\n-,27\n-,28\n-,29\n-,30\n-,31\n\
            end\nreport\n",
            Status::Fine,
            "ok 2 +0 -31 noise 0 created 0 absorbed 0 merged 0 removed 1 reduced 30 split 0\n\
            records 0 cores 0 borders 0 noise 0 clusters 0\n",
        ),
    ],
    // Lines may end with CRLF.
    &[
        ("init l1 1 1 2 100", "", Status::Fine, "born\n"),
        (
            "serve",
            "\r\nbatch\r\n\"+\",\"1\",\"0\"\r\n+,2,1\r\nend\r\nreport\r\n",
            Status::Fine,
            "ok 1 +2 -0 noise 1 created 1 absorbed 0 merged 0 removed 0 reduced 0 split 0\n\
            1 core 1\n2 core 1\nrecords 2 cores 2 borders 0 noise 0 clusters 1\n",
        ),
    ],
    // Greatest differences.
    &[
        ("init max 2 3 2 100", "", Status::Fine, "born\n"),
        (
            "serve",
            "batch\n+,1,0,0\n+,2,3,3\n+,3,4,7\nend\n",
            Status::Fine,
            "ok 1 +3 -0 noise 2 created 1 absorbed 0 merged 0 removed 0 reduced 0 split 0\n",
        ),
        (
            "serve",
            "report\n",
            Status::Fine,
            "1 core 1\n2 core 1\n3 noise\nrecords 3 cores 2 borders 0 noise 1 clusters 1\n",
        ),
    ],
    // Bits that differ.
    &[
        ("init hamming 9 1 2 100", "", Status::Fine, "born\n"),
        (
            "serve",
            "batch\n+,1,000000000\n+,2,0000,00001\n+,3,110000000\nend\n",
            Status::Fine,
            "ok 1 +3 -0 noise 2 created 1 absorbed 0 merged 0 removed 0 reduced 0 split 0\n",
        ),
        (
            "serve",
            "report\n",
            Status::Fine,
            "1 core 1\n2 core 1\n3 noise\nrecords 3 cores 2 borders 0 noise 1 clusters 1\n",
        ),
    ],
];

/// Runs a turn over a file, and gives what the file holds then.
fn run_over(
    rt: &HostRuntime,
    turn: &Turn,
    content: Bytes,
    piece: usize,
) -> Result<(Outcome, Bytes), AllocError> {
    let alloc = rt.alloc();
    let words = words_of(alloc, turn.0)?;
    let input = bytes_of(alloc, turn.1.as_bytes())?;
    let mut source = MemSource::new(input, piece.max(1), Numbers::new(alloc));
    let mut site = MemSite::new(content, Numbers::new(alloc), None);
    let status = run_in_memory(rt, &words, &mut source, &mut site)?;
    let end = ended(alloc, status, &source, &site)?;
    Ok((end, bytes_of(alloc, site.content())?))
}

/// Whether a run ended as its turn has it.
fn is_due(turn: &Turn, end: &Outcome) -> bool {
    let calm = end.source_faults == 0 && end.site_faults == 0 && end.wants == 0;
    calm && end.status == turn.2 && end.said.as_slice() == turn.3.as_bytes()
}

/// The place of the first turn of a life that ends otherwise, with what it says.
pub fn first_undue(
    rt: &HostRuntime,
    turns: &[Turn],
    piece: usize,
) -> Result<Option<(usize, Outcome)>, AllocError> {
    let alloc = rt.alloc();
    let mut content = Bytes::new(alloc);
    for (place, turn) in turns.iter().enumerate() {
        let (end, left) = run_over(rt, turn, content, piece)?;
        if !is_due(turn, &end) {
            return Ok(Some((place, end)));
        }
        content = left;
    }
    Ok(None)
}

#[test]
fn lives(rt: HostRuntime) -> Result<(), Fail> {
    for (number, turns) in LIVES.iter().enumerate() {
        for piece in [7usize, 4096] {
            if let Some((place, end)) = first_undue(&rt, turns, piece)? {
                assert_eq!(rt;
                    String::from_utf8_lossy(rt.alloc(), &end.said)?.as_str(),
                    "",
                    "life {number}, turn {place}"
                );
            }
        }
    }
    Ok(())
}
