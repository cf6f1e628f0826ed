//! Chains of halves, by which those with a value are found.

ghost use Rattle.std.specs.Prelude.{◌≡◌, ◌<◌, ◌≤◌, ◌≤ℤ◌, ℕ, suc, length, IfOk};
ghost use Rattle.int_sets.specs.Chains.{chain_of, link_at};

use crate::half::Half;
use affine_form::Memory;
use std::alloc::Global;

/// How many chains there are.
pub(crate) const CHAINS: usize = 1024;

/// A link of a chain: the number of the next, 0 at the end, and the least constant of the halves from here on.
#[derive(Clone, Copy)]
pub(crate) struct Link {
    pub(crate) next: usize,
    pub(crate) least: i128,
}

/// Chains of halves with like values: the number of each chain's first link, and a link for each half. Links are numbered
/// from 1 by their places; 0 is the end of a chain.
#[derive(Drop)]
pub(crate) struct Chains {
    pub(crate) starts: Vec<usize>,
    pub(crate) links: Vec<Link>,
}

impl Chains {
    ghost use Rattle.int_sets.specs.Chains.{AreChains};

    /// The chains of these halves.
    pub(crate) fn of(alloc: Global, halves: &[Half]) -> Result<Chains, Memory>
        ensures { IfOk result (λ chains. AreChains halves.now chains) }
    {
        let mut starts = Vec::new(alloc);
        starts.resize(CHAINS, 0)?;
        let mut links = Vec::with_capacity(alloc, halves.len())?;
        for (i, half) in halves.iter().enumerate() {
            let chain = chain_of(half.value);
            let next = starts[chain];
            let least = least_before(links.as_slice(), next, half.constant);
            links.push(Link { next, least })?;
            starts[chain] = i + 1;
        }
        Ok(Chains { starts, links })
    }
}

/// The lesser of a constant and the least behind a link with this number, if there is one.
fn least_before(links: &[Link], next: usize, constant: i128) -> i128
    requires { next ≤ length links.now }
    ensures constant { result ≤ℤ constant }
    ensures behind { (k : ℕ) → next ≡ suc k → result ≤ℤ (link_at links.now k).least }
{
    if next == 0 {
        return constant;
    }
    let behind = links[next - 1].least;
    if behind < constant { behind } else { constant }
}

/// The chain of a value.
pub(crate) fn chain_of(value: i128) -> usize
    ensures is { result ≡ chain_of value }
    ensures below { result < CHAINS }
{
    (value.cast_unsigned() / 1_048_576 % 1024) as usize
}
