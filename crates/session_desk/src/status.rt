//! How a run ends.

ghost use Rattle.std.specs.Prelude.{◌≡◌};
ghost use Rattle.session_desk.specs.Statuses.{status_number};

use std::alloc::AllocError;

/// How a run ended. The process ends with the number of the status, which is its place in this list
/// from 0.
#[derive(Clone, Copy, Debug, PartialEq, Eq)]
pub enum Status {
    Fine,
    Refused,
    Words,
    SiteFault,
    SourceFault,
    Memory,
    Blank,
    Broken,
    TooLong,
    Exists,
    Differs,
}

impl Status {
    /// The number that the process ends with: 0 to 10.
    pub fn number(self) -> u8
        ensures { result ≡ status_number self }
    {
        self as u8
    }
}

impl From<AllocError> for Status {
    ghost use Rattle.session_desk.specs.declared.status.Status.TheVariants.{Memory};

    ghost from_gives = { λ error status. status ≡ Memory };

    fn from(_error: AllocError) -> Status {
        Status::Memory
    }
}
