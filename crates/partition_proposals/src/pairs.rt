//! Which two of several things are apart.

use affine_form::Memory;

/// Which two of so many are apart: for each one in turn what is known of it and each one in turn.
#[derive(Drop)]
pub(crate) struct Pairs {
    count: usize,
    apart: Vec<bool>,
}

impl Pairs {
    /// So many, of which nothing is known yet.
    pub(crate) fn new(count: usize, none: Vec<bool>) -> Pairs {
        Pairs { count, apart: none }
    }

    /// How many there are.
    pub(crate) fn count(&self) -> usize {
        self.count
    }

    /// Tells of the next pair.
    pub(crate) fn push(&mut self, is_apart: bool) -> Result<(), Memory> {
        self.apart.push(is_apart)?;
        Ok(())
    }

    /// Whether two are known to be apart, the first before the second.
    pub(crate) fn is_apart(&self, first: usize, second: usize) -> bool {
        let place = first.saturating_mul(self.count).saturating_add(second);
        self.apart.as_slice().get(place).copied().unwrap_or(false)
    }

    /// Whether each two are known to be apart.
    pub(crate) fn are_all_apart(&self) -> bool {
        for place in 0..self.count.saturating_mul(self.count) {
            let first = place.checked_div(self.count).unwrap_or(0);
            let second = place.checked_rem(self.count).unwrap_or(0);
            if first < second && !self.is_apart(first, second) {
                return false;
            }
        }
        true
    }
}
