//! The moves of the red-blue pebble game.

/// A move of the red-blue pebble game of Hong and Kung (1981): what is done, and to which vertex of the
/// computation graph. Instances have the vertices from 0 on, in the order of execution, and the inputs follow.
#[derive(Clone, Copy, Debug, PartialEq, Eq)]
pub enum Move {
    /// Puts a red pebble on a vertex that has a blue one: a word goes from the slow to the fast memory.
    Load(u32),
    /// Puts a blue pebble on a vertex that has a red one: a word goes from the fast to the slow memory.
    Store(u32),
    /// Puts a red pebble on an instance whose predecessors all have one.
    Compute(u32),
    /// Takes the red pebble off.
    Drop(u32),
    /// Takes the blue pebble off.
    Erase(u32),
}
