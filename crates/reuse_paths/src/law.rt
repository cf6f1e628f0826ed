//! What reaches say.

ghost use Rattle.reuse_paths.specs.Arrival.{ReachesArrive};
ghost use Rattle.reuse_paths.specs.FamilyPieces.{FamilyPiecesCover, WalkPiecesCover};
ghost use Rattle.reuse_paths.specs.FewContexts.{ContextsAreFew};
ghost use Rattle.reuse_paths.specs.SoundFamilies.{FamiliesAreSound, WalksAreSound};

/// A law: where the claims of a reach hold, over true source trees, then at all admitted parameter values, of any size, and
/// at each point of the nest at which the first spot is an instance of the execution, the second is that instance or is
/// reached from it by going from vertex to predecessor. (Paths of dependences, Feautrier 1991.)
pub fn reaches_arrive()
    ensures { ReachesArrive }
{}

/// A law: where the claims of a family hold, over true source trees, the family is sound. At all admitted parameter values, of
/// any size, its start walk takes from each counted instance a word with the instance's start label, and the walk of a region
/// takes from each instance in it a word with the instance's own label; a word is an input cell, or an instance that is
/// credited or in its statement's region. So all words of a walk have one label. (Reuse paths, as in Olivry et al. 2020.)
pub fn families_are_sound()
    ensures { FamiliesAreSound }
{}

/// A law: so is a family whose walks' claims hold, wherever their trees stand, and whatever its start label fixes.
pub fn walks_are_sound()
    ensures { WalksAreSound }
{}

/// A law: where the claims of a family hold, over true source trees, and the points of its nest are instances, each vertex of
/// its footprint is in one of its pieces.
pub fn family_pieces_cover()
    ensures { FamilyPiecesCover }
{}

/// A law: so is each vertex of the footprint of walks whose claims hold, wherever their trees stand.
pub fn walk_pieces_cover()
    ensures { WalkPiecesCover }
{}

/// A law: where the claims of a family hold, the rows of each of its contexts are few, so its pieces are told.
pub fn contexts_are_few()
    ensures { ContextsAreFew }
{}
