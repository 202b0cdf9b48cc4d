//! How far the walk over a list of shapes has come.

use vec_record::Records;

/// How far a walk over shapes is.
#[derive(Drop)]
pub struct Progress {
    /// The place of the next shape.
    pub next: u32,
    /// The records that no entry has named.
    pub left: Records,
}
