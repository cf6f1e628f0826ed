//! Which multipliers are wanted.

/// Which multipliers are wanted: short lists alone, or any.
#[derive(Clone, Copy, Debug)]
pub enum Wanted {
    /// Scale 1, and at most four rows, each with 1 or 2.
    Short,
    /// Any that show what is asked.
    Any,
}
