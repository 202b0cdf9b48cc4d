//! Why a batch is refused.

ghost use Rattle.std.specs.Prelude.{◌≡◌};
ghost use Rattle.warehouse_core.specs.declared.refusal.Refusal.TheVariants.{SiteFault, Memory};
ghost use Rattle.warehouse_core.specs.Batches.{refusal_at, refusal_of};

use batch_text::{CheckFault, LineFault};
use site_disk::Failed;
use std::alloc::AllocError;
use thiserror::Error;

/// Why a batch isn't accepted. Places of records count from 1.
#[derive(Clone, Copy, Debug, Drop, Error, PartialEq, Eq)]
pub enum Refusal {
    #[error("record {0} is malformed")]
    Malformed(u32),
    #[error("the vector of record {0} has the wrong length")]
    WrongLength(u32),
    #[error("the number of record {0} is present already")]
    Repeated(u32),
    #[error("the number of record {0} is absent")]
    Unknown(u32),
    #[error("the store is full at record {0}")]
    Full(u32),
    #[error("over 100,000 records")]
    TooManyRecords,
    #[error("all batch numbers are used up")]
    BatchesUsedUp,
    #[error("the device failed")]
    SiteFault,
    #[error("out of memory")]
    Memory,
}

impl Refusal {
    /// The refusal of a fault of grammar at a place.
    pub(crate) fn at(place: u32, fault: LineFault) -> Refusal
        ensures { result ≡ refusal_at place fault }
    {
        match fault {
            LineFault::Malformed => Refusal::Malformed(place),
            LineFault::WrongLength => Refusal::WrongLength(place),
        }
    }
}

impl From<CheckFault> for Refusal {
    ghost from_gives = { λ fault refusal. refusal ≡ refusal_of fault };

    fn from(fault: CheckFault) -> Refusal {
        match fault {
            CheckFault::Repeated { place } => Refusal::Repeated(place),
            CheckFault::Unknown { place } => Refusal::Unknown(place),
            CheckFault::Full { place } => Refusal::Full(place),
            CheckFault::Memory => Refusal::Memory,
        }
    }
}

impl From<Failed> for Refusal {
    ghost from_gives = { λ _ refusal. refusal ≡ SiteFault };

    fn from(_: Failed) -> Refusal {
        Refusal::SiteFault
    }
}

impl From<AllocError> for Refusal {
    ghost from_gives = { λ _ refusal. refusal ≡ Memory };

    fn from(_: AllocError) -> Refusal {
        Refusal::Memory
    }
}
