//! Loads of sets of vertices.

ghost use Rattle.pebble_game.specs.Loaded.{DifferentAreLoads, LoadedByALoad};
ghost use Rattle.pebble_game.specs.Sets.{DisjointLoadsAddUp};

/// A law: in any list of moves the loads of sets of which no two have a vertex in common add up to at most all loads.
pub fn disjoint_loads_add_up()
    ensures { DisjointLoadsAddUp }
{}

/// A law: in any list of moves a vertex is loaded at least once exactly where there is a load of it, and of different vertices
/// there are at least as many loads as there are loaded ones among them.
pub fn loaded_are_loads()
    ensures once { LoadedByALoad }
    ensures many { DifferentAreLoads }
{}
