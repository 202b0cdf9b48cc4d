//! The outside: where input comes from, and the one device that answers and pages go to.
//!
//! It stands on `vec_record` for its lists alone. [`Source`] and [`Site`] carry the promises that
//! every caller rests on: what a read gives, what a crash may leave at each moment, and that a call
//! fails only where a count of faults rose. `MemSource` and `MemSite` tell all and keep them by
//! proof; `StdSource` and `FileSite` are the trusted edge.
#![tactic(auto)]

pub mod callers;
mod counts;
mod crash;
mod file_bytes;
pub mod file_site;
mod handle;
pub mod laws;
pub mod mem_site;
pub mod mem_source;
mod parts;
pub mod site;
#[cfg(test)]
mod slow_file;
pub mod source;
pub mod std_source;
#[cfg(test)]
mod tests;

pub use file_site::{FileSite, SiteError};
pub use mem_site::MemSite;
pub use mem_source::MemSource;
pub use site::Site;
pub use source::{Failed, Source};
pub use std_source::StdSource;
