//! The metrics of the house: the sum of the absolute differences, the greatest of them, and the
//! number of differing bits.
//!
//! It stands on `vec_record`, whose trait `Metric` says what a metric is. Each unit type here
//! implements that trait: `Metric::distance` is promised to be the definition of its kind, to count
//! one and to take no memory, and the five laws are proved with the impl.
#![tactic(auto)]

mod bits;
mod kernel;
mod most;
#[cfg(test)]
mod rows_tests;
mod sum;
#[cfg(test)]
mod tests;

pub use bits::Hamming;
pub use most::Max;
pub use sum::L1;
