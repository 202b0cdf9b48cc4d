//! What can be wrong with a batch.

use thiserror::Error;

/// What is wrong with a record of a batch.
#[derive(Clone, Copy, Debug, PartialEq, Eq)]
pub enum LineFault {
    /// The record is not in the grammar.
    Malformed,
    /// Its vector is, but has not as many coordinates or bits as it must have.
    WrongLength,
}

/// Why changes cannot apply. Places count from 1.
#[derive(Debug, Drop, PartialEq, Eq, Error)]
pub enum CheckFault {
    #[error("the number that change {place} inserts is present")]
    Repeated { place: u32 },
    #[error("the number that change {place} deletes is absent")]
    Unknown { place: u32 },
    #[error("there is no room for the record that change {place} inserts")]
    Full { place: u32 },
    #[error("out of memory")]
    Memory,
}
