//! Why there is no value for several processors.

use claims::FailedCondition;

/// Why there is no value for several processors.
#[derive(Debug, Drop)]
pub enum ParallelFault {
    /// A condition of the certificate doesn't hold, the first such.
    Refused(FailedCondition),
    /// The assumption of this number is the first that is false.
    OutsideAssumption(u16),
    /// A value is beyond 128 bits.
    Wide,
    /// There was no memory for the check.
    Memory,
}
