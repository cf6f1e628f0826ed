//! Why a bound has no value at sizes.

/// Why a bound has no value at given sizes.
#[derive(Clone, Copy, Debug, PartialEq, Eq)]
pub enum ValueFault {
    /// The assumption of this number is the first that is false.
    OutsideAssumption(u16),
    /// A value is beyond 128 bits.
    Wide,
}
