//! Loads and stores together, and why there is no value of them.

use claims::FailedCondition;

/// How many loads and how many stores are made at least.
#[derive(Clone, Copy, Debug, PartialEq, Eq)]
pub struct Traffic {
    pub loads: u128,
    pub stores: u128,
}

/// Why there is no value of loads and stores.
#[derive(Debug, Drop)]
pub enum TrafficFault {
    /// A condition of the certificate doesn't hold, the first such.
    Refused(FailedCondition),
    /// A condition of the stores doesn't hold, the first such.
    StoresRefused(FailedCondition),
    /// The assumption of this number is the first that is false.
    OutsideAssumption(u16),
    /// A value is beyond 128 bits.
    Wide,
    /// There was no memory for a check.
    Memory,
}
