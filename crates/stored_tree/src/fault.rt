//! Why no tree is read.

use std::alloc::AllocError;

/// Why pages hold no tree of the records.
#[derive(Clone, Copy, Debug, Drop, PartialEq, Eq)]
pub enum TreeFault {
    /// The first field that fails, by its page and its offset there.
    Damaged { page: u32, offset: u32 },
    Memory,
}

impl From<AllocError> for TreeFault {
    ghost use Rattle.std.specs.Prelude.{◌≡◌};
    ghost use Rattle.stored_tree.specs.declared.fault.TreeFault.TheVariants.{Memory};

    ghost from_gives = { λ _ fault. fault ≡ Memory };

    fn from(_fault: AllocError) -> TreeFault {
        TreeFault::Memory
    }
}
