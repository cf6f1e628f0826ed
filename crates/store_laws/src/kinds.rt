//! Moves of one kind, in any list of moves.

ghost use Rattle.store_laws.specs.Kinds.{DifferentAreTaken, DisjointAddUp, LoadsAreAKind};

/// A law: in any list of moves at least as many moves of a kind take the vertices of a set as there are different ones that are
/// taken, and those of sets of which no two have a vertex in common add up to at most all of the kind. Loads are such a kind.
pub fn moves_of_a_kind()
    ensures loads { LoadsAreAKind }
    ensures many { DifferentAreTaken }
    ensures disjoint { DisjointAddUp }
{}
