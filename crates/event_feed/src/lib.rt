//! Watchers that are told the events of each change, and the feed that tells them.
//!
//! It stands on vec_record alone. A [`Watcher`] has one meaning: the text that it says after
//! further events. [`WatcherSlots::tell_all`] carries the promise: behind it each watcher means what
//! it meant before, with the events in front, and it takes no memory. [`Tally`] and [`Recent`] are
//! the two watchers of the program; [`Feed`] is the slots of boxed watchers.
#![tactic(auto)]

pub mod feed;
pub mod recent;
pub mod tally;
#[cfg(test)]
mod tests;
pub mod watcher;

pub use feed::{Feed, WatcherSlots};
pub use recent::{LastHundred, Recent};
pub use tally::Tally;
pub use watcher::Watcher;
