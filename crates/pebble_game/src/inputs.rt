//! What every complete pebbling has to load.

ghost use Rattle.pebble_game.specs.Inputs.{EachReadInputIsLoaded, ReadInputIsLoaded, ReadInputsAreLoaded};

/// A law: every complete pebbling loads each input that is read at least once, and so different ones at least as often as
/// they are. (Hong and Kung 1981.)
pub fn read_inputs_are_loaded()
    ensures each { ReadInputIsLoaded }
    ensures many { ReadInputsAreLoaded }
    ensures all { EachReadInputIsLoaded }
{}
