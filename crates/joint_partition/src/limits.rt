//! The limits of joint terms, by name.

/// The weights of a joint term's families together, at most.
pub const JOINT_WEIGHTS: u8 = 16;

/// Labelings of a family, at most.
pub const LABELINGS: usize = 4;

/// Groups of families, at most, so that their numbers are below this.
pub const GROUPS: u8 = 6;

/// Parts of a joint term, at most.
pub const PARTS: usize = 4;

/// Ways of a family, at most.
pub const WAYS: usize = 8;

/// Credited nests of a joint term, at most.
pub const JOINT_CREDITS: usize = 8;
