//! Which of two proposals is likely to be the stronger one.

use affine_facts::words::Proposed;
use joint_partition::{Joint, JointFamily};
use k_partition::{Partition, Shape};
use reuse_paths::Family;

/// A term over stretches that is proposed.
#[derive(Drop)]
pub enum StretchTerm {
    Partition(Partition),
    Joint(Joint),
}

/// The weights of a partition term's families, added up.
fn partition_weight(families: &[Family]) -> u8 {
    let mut total: u8 = 0;
    for family in families {
        total = total.saturating_add(family.weight);
    }
    total
}

/// The weights of a joint term's families, added up.
fn joint_weight(families: &[JointFamily]) -> u8 {
    let mut total: u8 = 0;
    for family in families {
        total = total.saturating_add(family.weight);
    }
    total
}

/// The share of a cover in its weights, in sixtieths.
fn share(q: u8, total: u8) -> u32 {
    match (60 * u32::from(q)).checked_div(u32::from(total)) {
        Some(share) => share,
        None => 0,
    }
}

/// Which of two proposals is likely to be the stronger one: that of more loops, of the lesser exponent, of more parts, of families that
/// are counted together.
pub(crate) fn strength(proposed: &Proposed<StretchTerm>) -> (usize, u32, u8) {
    match &proposed.term {
        StretchTerm::Partition(term) => {
            let total = partition_weight(term.families.as_slice());
            let rank = if matches!(term.shape, Shape::Sum) {
                2
            } else {
                0
            };
            (term.nest.bounds().len(), share(term.q, total), rank)
        }
        StretchTerm::Joint(term) => {
            let total = joint_weight(term.families.as_slice());
            let depth = match term.parts.as_slice().first() {
                Some(part) => part.nest.bounds().len(),
                None => 0,
            };
            let rank = if term.parts.len() > 1 { 3 } else { 1 };
            (depth, share(term.q, total), rank)
        }
    }
}
