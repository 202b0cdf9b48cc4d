//! Sessions that are asked for counts, one record, a cluster and a neighbourhood.
use super::lives::{Turn, first_undue};
use session_desk::Status;
use std::test::Fail;

const EQUAL_VECTORS: &str = "batch\n\
+,1,5\n+,2,5\n+,3,5\n+,4,5\n+,5,5\n+,6,5\n+,7,5\n+,8,5\n\
+,9,5\n+,10,5\n+,11,5\n+,12,5\n+,13,5\n+,14,5\n+,15,5\n+,16,5\n\
+,17,5\n+,18,5\n+,19,5\n+,20,5\n+,21,5\n+,22,5\n+,23,5\n+,24,5\n\
+,25,5\n+,26,5\n+,27,5\n+,28,5\n+,29,5\n+,30,5\n+,31,5\n\
end\nnear 1\n";

/// Numbers as they may be written, and lines that are no question.
const FORMS: &str =
    "label 0000000007\nnear 07\ncluster 00000000003\ncluster 0\ncluster 4294967296\n\
label  7\nlabel 7 \n label 7\nLABEL 7\nlabel 7 7\nlabel\nlabel \nlabel -7\nlabel +7\nlabel 7,\n\
summary 7\nSummary\nnear\n\nlabel 7\r\ncluster 4294967295\n";

const ASKED: [&[Turn]; 5] = [
    &[
        ("init l1 1 1 3 100", "", Status::Fine, "born\n"),
        (
            "serve",
            "batch\n+,1,0\n+,2,1\n+,3,2\n+,4,3\n+,5,4\nend\nsummary\nlabel 1\ncluster 2\nnear 3\n",
            Status::Fine,
            "ok 1 +5 -0 noise 2 created 1 absorbed 2 merged 0 removed 0 reduced 0 split 0\n\
            records 5 cores 3 borders 2 noise 0 clusters 1\n1 border 2\n\
            cluster 2 size 5\n1 border\n2 core\n3 core\n4 core\n5 border\n\
            near 3 size 3\n2\n3\n4\n",
        ),
        (
            "serve",
            "batch\n-,3\nend\nsummary\n",
            Status::Fine,
            "ok 2 +0 -1 noise 0 created 0 absorbed 0 merged 0 removed 1 reduced 0 split 0\n\
            records 4 cores 0 borders 0 noise 4 clusters 0\n",
        ),
    ],
    // A border has no cluster of its own.
    &[
        ("init l1 1 1 4 100", "", Status::Fine, "born\n"),
        (
            "serve",
            "batch\n+,1,8\n+,2,8\n+,3,9\n+,4,11\n+,5,12\n+,6,12\nend\nbatch\n+,7,10\nend\n\
            cluster 4\ncluster 7\ncluster 5\ncluster 9\nlabel 7\nlabel 8\n",
            Status::Refused,
            "ok 1 +6 -0 noise 6 created 0 absorbed 0 merged 0 removed 0 reduced 0 split 0\n\
            ok 2 +1 -0 noise 0 created 2 absorbed 0 merged 0 removed 0 reduced 0 split 0\n\
            cluster 4 size 3\n4 core\n5 border\n6 border\nrefused 23\nrefused 23\nrefused 23\n\
            7 border 3\nrefused 22\n",
        ),
    ],
    &[
        ("init l1 1 1 2 100", "", Status::Fine, "born\n"),
        (
            "serve",
            "batch\n+,1,0\n+,2,0\n+,3,1\nend\nbatch\n-,1\nend\nlabel 3\nlabel 1\n",
            Status::Refused,
            "ok 1 +3 -0 noise 1 created 1 absorbed 1 merged 0 removed 0 reduced 0 split 0\n\
            ok 2 +0 -1 noise 0 created 0 absorbed 0 merged 0 removed 0 reduced 1 split 0\n\
            3 core 2\nrefused 22\n",
        ),
    ],
    &[
        ("init l1 1 0 1 100", "", Status::Fine, "born\n"),
        (
            "serve",
            "batch\n+,7,5\n+,3,5\nend\nnear 7\nnear 9\nlabel x\n",
            Status::Refused,
            "ok 1 +2 -0 noise 0 created 1 absorbed 1 merged 0 removed 0 reduced 0 split 0\n\
            near 7 size 2\n3\n7\nrefused 22\nrefused 21\n",
        ),
        (
            "serve",
            FORMS,
            Status::Refused,
            "7 core 3\nnear 7 size 2\n3\n7\nrefused 21\nrefused 21\nrefused 21\n\
            refused 21\nrefused 21\nrefused 21\nrefused 21\nrefused 21\nrefused 21\nrefused 21\n\
            refused 21\nrefused 21\nrefused 21\nrefused 21\nrefused 21\nrefused 21\n\
            7 core 3\nrefused 23\n",
        ),
    ],
    &[
        ("init l1 1 0 1 100", "", Status::Fine, "born\n"),
        (
            "serve",
            EQUAL_VECTORS,
            Status::Fine,
            "ok 1 +31 -0 noise 0 created 1 absorbed 30 merged 0 removed 0 reduced 0 split 0\n\
            near 1 size 31\n1\n2\n3\n4\n5\n6\n7\n8\n9\n10\n11\n12\n13\n14\n15\n16\n17\n18\n19\n20\n\
            21\n22\n23\n24\n25\n26\n27\n28\n29\n30\n31\n",
        ),
    ],
];

#[test]
fn asked_lives(rt: HostRuntime) -> Result<(), Fail> {
    for (number, turns) in ASKED.iter().enumerate() {
        if let Some((place, end)) = first_undue(&rt, turns, 7)? {
            assert_eq!(rt;
                String::from_utf8_lossy(rt.alloc(), &end.said)?.as_str(),
                "",
                "life {number}, turn {place}"
            );
        }
    }
    Ok(())
}
