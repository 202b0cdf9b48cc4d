//! The worked rows on the top call, over a source and a site in memory.
//!
//! What whole runs say and leave behind: single runs, lives of many runs, runs that a device or a
//! source breaks off, and files that were changed by hand. They stand in a crate of their own,
//! since the gate proves a crate that has tests twice.
#![tactic(auto)]

#[cfg(test)]
mod tests;
