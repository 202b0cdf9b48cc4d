//! Why no books are made of lines.

use std::alloc::AllocError;

/// A line that names what it mustn't, by its place in the list.
#[derive(Clone, Copy, Debug, Drop, PartialEq, Eq)]
pub enum Loose {
    /// Its anchor isn't 0, and no core.
    Anchor(usize),
    /// Its label isn't 0, and no core with itself as label.
    Label(usize),
}

/// Why no books are made of lines.
#[derive(Clone, Copy, Debug, Drop, PartialEq, Eq)]
pub enum LinesFault {
    /// The first line that names what it mustn't.
    Loose(Loose),
    Memory,
}

impl From<AllocError> for LinesFault {
    ghost use Rattle.std.specs.Prelude.{◌≡◌};
    ghost use Rattle.stored_lines.specs.declared.fault.LinesFault.TheVariants.{Memory};

    ghost from_gives = { λ _ fault. fault ≡ Memory };

    fn from(_fault: AllocError) -> LinesFault {
        LinesFault::Memory
    }
}
