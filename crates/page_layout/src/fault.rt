//! Why a page is not read.

ghost use Rattle.std.specs.Prelude.{◌≡◌};
ghost use Rattle.page_layout.specs.declared.fault.LayoutFault.TheVariants.{Memory};

use std::alloc::AllocError;
use thiserror::Error;

/// Why a page isn't read.
#[derive(Clone, Copy, Debug, Drop, Error, PartialEq, Eq)]
pub enum LayoutFault {
    /// The version of the store isn't known.
    #[error("foreign store")]
    Foreign,
    /// The first field that isn't lawful, by its offset in the page.
    #[error("damaged at offset {offset}")]
    Damaged { offset: u32 },
    #[error("out of memory")]
    Memory,
}

impl From<AllocError> for LayoutFault {
    ghost from_gives = { λ _ e. e ≡ Memory };

    fn from(_fault: AllocError) -> LayoutFault {
        LayoutFault::Memory
    }
}
