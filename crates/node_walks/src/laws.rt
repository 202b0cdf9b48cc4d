//! Laws over the definitions. Each is the contract of a function that does nothing.

ghost use Rattle.node_walks.specs.Alike.{WalksAreAlike, FailuresAreAlike, TreesAreAlike};

/// Two distances that are equal on all vectors of a width lead to the same walk over shapes whose
/// objects, and over records whose vectors, have that width; to the same first failing place; and
/// to the same well-formed trees.
pub fn distances_are_alike()
    ensures walks { WalksAreAlike }
    ensures failures { FailuresAreAlike }
    ensures trees { TreesAreAlike }
{}
