//! How great a graph may be.

/// Vertices of a graph, at most.
pub const VERTICES: u32 = 1 << 21;

/// Turns of all loops together, at most.
pub const TURNS: u32 = 1 << 24;
