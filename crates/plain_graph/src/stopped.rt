//! Why there is no answer.

use affine_form::Memory;
use std::alloc::{AllocError, AllocFailed};

/// Why there is no answer. Which of them it is says nothing more.
#[derive(Clone, Copy, Debug, PartialEq, Eq)]
pub enum Stopped {
    /// There was no memory.
    Memory,
    /// A value is 2^40 or greater in size, or a form has another number of variables than are known where it stands.
    OutOfReach,
}

impl From<Memory> for Stopped {
    fn from(_error: Memory) -> Stopped {
        Stopped::Memory
    }
}

impl From<AllocError> for Stopped {
    fn from(_error: AllocError) -> Stopped {
        Stopped::Memory
    }
}

impl<T: Drop> From<AllocFailed<T>> for Stopped {
    fn from(_error: AllocFailed<T>) -> Stopped {
        Stopped::Memory
    }
}
