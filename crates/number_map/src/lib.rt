//! A hashed map from numbers, whose order nobody sees: contracts see a finite map.
//!
//! The books of the engine stand on it, since a look-up in a hashed map costs a fraction of one in
//! an ordered map. [`NumberMap`] is promised to answer and to change exactly as the finite map
//! does. The crate stands on no other crate.
#![tactic(auto)]

mod map;
#[cfg(test)]
mod tests;

pub use map::NumberMap;
