//! How much a scheme's parts gain.

use crate::apart::{Tried, codes, try_in_turn};
use crate::groups::{factor, groups_of};
use crate::making::{all_merged, labelings_factor};
use crate::schemes::Scheme;
use affine_facts::facts::Facts;
use affine_form::Memory;
use std::alloc::Global;

/// How many images are counted, to the power with which coordinates are covered, and the factor of what goes into a stretch.
#[derive(Clone, Copy)]
pub(crate) struct Gain {
    images: u128,
    factor: u128,
}

impl Gain {
    /// Whether it is more than another one.
    pub(crate) fn is_more(self, other: Gain) -> bool {
        self.images.saturating_mul(other.factor) > other.images.saturating_mul(self.factor)
    }
}

/// How many images a scheme has, to the power with which coordinates are covered.
fn images_of(scheme: &Scheme) -> u128 {
    u128::from(scheme.images).saturating_pow(u32::from(scheme.q))
}

/// What a scheme gains at most: what it would, were no words of two families one.
pub(crate) fn most_gained(
    alloc: Global,
    facts: &Facts,
    scheme: &Scheme,
) -> Result<Option<Gain>, Memory> {
    let Some(all) = all_merged(alloc, facts, scheme.plans.as_slice(), 0)? else {
        return Ok(None);
    };
    Ok(Some(Gain {
        images: images_of(scheme),
        factor: labelings_factor(all.as_slice(), scheme.weights.as_slice()),
    }))
}

/// The ways by which the groups of families have the least factor, by their code, the first of such, with that factor.
pub(crate) fn best_code(
    alloc: Global,
    scheme: &Scheme,
    tried: &Tried,
) -> Result<(u128, u32), Memory> {
    let mut best = (u128::MAX, 0);
    for code in 0..codes(tried.families()) {
        let apart = tried.by_code(alloc, code)?;
        let groups = groups_of(alloc, &apart)?;
        let own = factor(groups.as_slice(), scheme.weights.as_slice());
        if own < best.0 {
            best = (own, code);
        }
    }
    Ok(best)
}

/// What a scheme gains by what is known of its families, with the code of the ways by which it does.
pub(crate) fn gained_by(
    alloc: Global,
    facts: &Facts,
    scheme: &Scheme,
    tried: &Tried,
) -> Result<Option<(Gain, u32)>, Memory> {
    let (groups, code) = best_code(alloc, scheme, tried)?;
    if !tried.are_made(code) {
        return Ok(None);
    }
    let Some(all) = all_merged(alloc, facts, scheme.plans.as_slice(), code)? else {
        return Ok(None);
    };
    let labelings = labelings_factor(all.as_slice(), scheme.weights.as_slice());
    let gain = Gain {
        images: images_of(scheme),
        factor: labelings.saturating_mul(groups),
    };
    Ok(Some((gain, code)))
}

/// What a scheme gains, as far as it is found, with the code of the ways by which it does.
pub(crate) fn gained(
    alloc: Global,
    facts: &Facts,
    scheme: &Scheme,
) -> Result<Option<(Gain, u32)>, Memory> {
    let tried = try_in_turn(alloc, facts, scheme)?;
    gained_by(alloc, facts, scheme, &tried)
}
