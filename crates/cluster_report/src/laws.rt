//! Laws over the definitions. Each is the contract of a function that does nothing.

ghost use Rattle.cluster_report.specs.Texts.{CountsAreTheSummary};

/// The line of the counts of marks is their summary.
pub fn counts_are_the_summary()
    ensures { CountsAreTheSummary }
{}
