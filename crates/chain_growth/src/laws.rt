//! Laws over the definitions. Each is the contract of a function that does nothing.

ghost use Rattle.chain_growth.specs.Hops.{HasLastClass};

/// Where there is a seed there is a last class, and in it a farthest seed: so of the last class
/// only the members fewer steps away than this seed are grown.
pub fn has_last_class()
    ensures { HasLastClass }
{}
