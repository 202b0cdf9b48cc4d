//! What a deletion works on.

use std::alloc::Global;
use vec_record::{Number, Numbers, Records};

/// The records that remain with their index, how far a neighbour may be, the deleted number, and
/// what is near it.
#[derive(Drop)]
pub(crate) struct Scene<'a, I> {
    pub(crate) alloc: Global,
    pub(crate) records: &'a Records,
    pub(crate) index: &'a I,
    pub(crate) eps: u32,
    pub(crate) number: Number,
    pub(crate) around: &'a Numbers,
}
