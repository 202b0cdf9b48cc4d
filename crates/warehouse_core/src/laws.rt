//! Laws over the definitions. Each is the contract of a function that does nothing.
ghost use Rattle.warehouse_core.specs.Applying.{DueAreNumbered};
ghost use Rattle.warehouse_core.specs.Queries.{MembersAreNoNoise};

/// What is due to a body is its changes or a refusal with a number: never a fault of the site, and
/// never want of memory.
pub fn due_are_numbered()
    ensures { DueAreNumbered }
{}

/// The members of a cluster are cores and borders: noise is never among them.
pub fn members_are_no_noise()
    ensures { MembersAreNoNoise }
{}
