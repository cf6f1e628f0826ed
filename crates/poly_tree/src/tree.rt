//! Trees of polynomials with whole-number coefficients.

/// A polynomial with whole-number coefficients, as a tree.
#[derive(Debug, Drop, PartialEq, Eq)]
pub enum Tree {
    /// A number.
    Num(i128),
    /// A polynomial in one variable: the sum over e of part e times the variable's power e.
    Over {
        /// The variable.
        var: u16,
        /// The coefficients of the variable's powers, from power 0 on.
        parts: Vec<Tree>,
    },
}
