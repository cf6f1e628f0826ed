//! Steps of places.

use claims::Step;

/// The index at a step, if it is one.
pub fn index_at(steps: &[Step], number: usize) -> Option<usize> {
    match steps.get(number)? {
        Step::Index(index) => usize::try_from(*index).ok(),
        Step::Key(_) => None,
    }
}

/// The key at a step, if it is one.
pub fn key_at(steps: &[Step], number: usize) -> Option<&'static str> {
    match steps.get(number)? {
        Step::Key(key) => Some(key.0),
        Step::Index(_) => None,
    }
}

/// The steps behind the first ones, so many.
pub fn behind(steps: &[Step], count: usize) -> &[Step] {
    steps.get(count..).unwrap_or(&[])
}
