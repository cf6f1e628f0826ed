//! What an execution has to load at least once.

ghost use Rattle.pebble_game.specs.Cold.{EachInputReadIsLoaded, InputReadsAreLoaded, InputReadsAreVertices};

/// A law: in every complete pebbling of a program's computation graph, points whose reads have different input
/// cells as sources cost at least one load of these cells each, and each of the cells is loaded. (Hong and Kung 1981; the sources are those of Feautrier
/// 1991.)
pub fn input_reads_are_loaded()
    ensures vertices { InputReadsAreVertices }
    ensures loaded { InputReadsAreLoaded }
    ensures each { EachInputReadIsLoaded }
{}
