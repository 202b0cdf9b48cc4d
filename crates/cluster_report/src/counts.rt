//! The counts of marks.

ghost use Rattle.std.specs.Prelude.{◌≡◌};
ghost use Rattle.cluster_report.specs.Counts.{summary_of};

use plain_dbscan::{Mark, names_cluster};
use vec_record::Number;

/// How many records there are, how many of them are cores, borders and noise, and how many
/// clusters.
#[derive(Clone, Copy, Debug, PartialEq, Eq)]
pub struct Summary {
    pub records: usize,
    pub cores: usize,
    pub borders: usize,
    pub noise: usize,
    pub clusters: usize,
}

/// The counts of marks, in one pass that takes no memory.
pub fn count_marks(marks: &[(Number, Mark)]) -> Summary
    ensures { result ≡ summary_of marks.now }
{
    let mut cores = 0usize;
    let mut borders = 0usize;
    let mut noise = 0usize;
    let mut clusters = 0usize;
    for (number, mark) in marks {
        match *mark {
            Mark::Core(_) => cores += 1,
            Mark::Border(_) => borders += 1,
            Mark::Noise => noise += 1,
        }
        if names_cluster(*number, *mark) {
            clusters += 1;
        }
    }
    Summary {
        records: marks.len(),
        cores,
        borders,
        noise,
        clusters,
    }
}
