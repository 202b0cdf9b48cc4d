//! Numbered vectors, the parameters of a store, and what a metric is.
//!
//! The base of the house: it stands on no other crate. A collection of [`Records`] is promised to
//! be a finite map from numbers to lists of bytes of one width, in which each call changes one
//! number alone; a [`Metric`] is promised to be a distance with five laws, each call of which
//! counts one on the caller's [`Steps`].
#![tactic(auto)]

pub mod block;
pub mod bytes;
pub mod change;
pub mod event;
pub mod groups;
pub mod kind;
pub mod metric;
pub mod numbers;
pub mod params;
pub mod records;
pub mod steps;
pub mod vector;

pub use block::Block;
pub use bytes::Bytes;
pub use change::{Change, Changes};
pub use event::{Event, Events, Kind};
pub use groups::Groups;
pub use kind::MetricKind;
pub use metric::Metric;
pub use numbers::{Number, Numbers};
pub use params::Params;
pub use records::Records;
pub use steps::Steps;
pub use vector::Vector;
