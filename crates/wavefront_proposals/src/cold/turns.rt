//! Some turns of loops.

use affine_facts::affine::Affine;
use affine_form::Memory;
use std::alloc::Global;

/// Which turns of a loop a piece has.
#[derive(Clone, Copy)]
pub(crate) enum Turns {
    All,
    First,
    Last,
    AllButFirst,
    AllButLast,
}

/// Bounds of some turns of the loop that has these.
fn turned(
    alloc: Global,
    lower: &Affine,
    upper: &Affine,
    turns: Turns,
) -> Result<(Affine, Affine), Memory> {
    let (first, last) = match turns {
        Turns::First => (lower, lower),
        Turns::Last => (upper, upper),
        Turns::All | Turns::AllButFirst | Turns::AllButLast => (lower, upper),
    };
    let (mut first, mut last) = (first.copied(alloc)?, last.copied(alloc)?);
    match turns {
        Turns::AllButFirst => first.add_number(1),
        Turns::AllButLast => last.add_number(-1),
        Turns::All | Turns::First | Turns::Last => {}
    }
    Ok((first, last))
}

/// Bounds of some turns of each loop.
pub(crate) fn all_turned(
    alloc: Global,
    bounds: &[(Affine, Affine)],
    turns: &[Turns],
) -> Result<Vec<(Affine, Affine)>, Memory> {
    let mut all = Vec::new(alloc);
    for ((lower, upper), some) in bounds.iter().zip(turns.iter()) {
        all.push(turned(alloc, lower, upper, *some)?)?;
    }
    Ok(all)
}
