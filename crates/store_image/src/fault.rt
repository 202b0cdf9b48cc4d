//! Why a list of pages is not a store.

ghost use Rattle.std.specs.Prelude.{◌≡◌};
ghost use Rattle.store_image.specs.declared.fault.StoreFault.TheVariants.{Memory};

use std::alloc::AllocError;
use thiserror::Error;

/// Why a list of pages isn't a store.
#[derive(Clone, Copy, Debug, Drop, Error, PartialEq, Eq)]
pub enum StoreFault {
    #[error("foreign store")]
    Foreign,
    #[error("damaged page {page} offset {offset}")]
    Damaged { page: u32, offset: u32 },
    #[error("out of memory")]
    Memory,
}

impl From<AllocError> for StoreFault {
    ghost from_gives = { λ _ e. e ≡ Memory };

    fn from(_fault: AllocError) -> StoreFault {
        StoreFault::Memory
    }
}
