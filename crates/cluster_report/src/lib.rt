//! The texts of clusters, as a user reads them.
//!
//! A text is built whole and appended in one go: after want of memory what it goes to is as
//! before. The report, the line of a number and the summary are those that `plain_dbscan` defines
//! of the list of marks; the members of a cluster and the neighbourhood of a record are defined
//! here. [`Summary`] has the counts of a summary by themselves, so that who keeps no list of marks
//! can say them too. It stands on `vec_record` and `plain_dbscan`.
#![tactic(auto)]

pub mod counts;
pub mod laws;
mod lines;
#[cfg(test)]
mod tests;
pub mod texts;

pub use counts::{Summary, count_marks};
pub use texts::{counts_text, label_text, members_text, near_text, report_text, summary_text};
