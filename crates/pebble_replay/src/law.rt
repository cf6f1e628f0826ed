//! That what is played is a complete pebbling.

ghost use Rattle.pebble_replay.specs.Complete.{PlayedIsComplete};

/// A law: an order that holds each instance once, with every source before its reader and enough red pebbles for each
/// instance, is played by a complete pebbling.
pub fn what_is_played_is_complete()
    ensures { PlayedIsComplete }
{}
