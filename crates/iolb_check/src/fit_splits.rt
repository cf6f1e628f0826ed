//! Whether splits fit.
#![tactic(auto, using(claims::proofs::Found::in_a_row))]

ghost use Rattle.claims.specs.Claims.{Decides};
ghost use Rattle.std.specs.Prelude.{◌≡◌, ◌+◌, ◌<◌, ◌^◌, ◌++◌, ◌∷◌, [], length, map, IfOk, OnOk, codes};
ghost use Rattle.affine_program.specs.Parts.{meaning};
ghost use Rattle.claims.specs.declared.place.Step.TheVariants.{Key};
ghost use Rattle.iolb_check.specs.JointFit.{distinct_fit, pair_variables as variables_of_pair, split_fit, splits_fit as splits_from, variables_of_pairs};
ghost use Rattle.joint_partition.specs.View.{joint_of, part_of, split_of};

use affine_form::Memory;
use affine_program::Program;
use certificate_fit::counts::loops_around;
use certificate_fit::lists::misfit;
use claims::{ObjectKey, Place, Refused, Step};
use joint_partition::{Joint, Part, Split};
use std::alloc::Global;

/// Whether what is said fits of a split over so many variables, at this place.
fn split_fits(alloc: Global, place: &Place, variables: u128, split: &Split) -> Result<(), Refused>
    ensures { Decides (split_fit variables place.now (split_of split.now)) result }
{
    let Split::Test { form, yes, no } = split else {
        return Ok(());
    };
    if form.coef().len() as u128 != variables {
        return Err(misfit(alloc, place, Step::Key(ObjectKey("form"))));
    }
    let side = place.within(alloc, Step::Key(ObjectKey("no")))?;
    split_fits(alloc, &side, variables, no)?;
    let side = place.within(alloc, Step::Key(ObjectKey("yes")))?;
    split_fits(alloc, &side, variables, yes)?;
    Ok(())
}

/// How many variables there are for two parts: the parameters, the loop values of the first and those of the second.
fn pair_variables(program: &Program, part: &Part, other: &Part) -> u128
    ensures { result ≡ variables_of_pair (meaning program.now) (part_of part.now) (part_of other.now) }
{
    let loops = loops_around(program, part.statement) as u128;
    program.params().len() as u128 + loops + loops_around(program, other.statement) as u128
}

/// How many there are for a part and each part of a list, appended.
fn push_variables(
    pairs: &mut Vec<u128>,
    program: &Program,
    part: &Part,
    others: &[Part],
) -> Result<(), Memory>
    ensures { OnOk result (pairs.new.items ≡ pairs.old.items ++ map (variables_of_pair (meaning program.now) (part_of part.now)) (map part_of others.now)) }
{
    for other in others {
        pairs.push(pair_variables(program, part, other))?;
    }
    Ok(())
}

/// How many there are for each part and each later one, appended.
fn push_pairs(pairs: &mut Vec<u128>, program: &Program, parts: &[Part]) -> Result<(), Memory>
    ensures { OnOk result (pairs.new.items ≡ pairs.old.items ++ variables_of_pairs (meaning program.now) (map part_of parts.now)) }
{
    let Some((part, others)) = parts.split_first() else {
        return Ok(());
    };
    push_variables(pairs, program, part, others)?;
    push_pairs(pairs, program, others)
}

/// Whether what is said fits of splits from an index on, each over so many variables, in a list at this place.
fn splits_fit(
    alloc: Global,
    list: &Place,
    index: usize,
    pairs: &[u128],
    splits: &[Split],
) -> Result<(), Refused>
    requires { index + length pairs.now < 2 ^ 64 }
    ensures { Decides (splits_from list.now index pairs.now (map split_of splits.now)) result }
{
    let Some((variables, pairs)) = pairs.split_first() else {
        return Ok(());
    };
    let Some((split, splits)) = splits.split_first() else {
        return Ok(());
    };
    let at = list.within(alloc, Step::Index(index as u64))?;
    split_fits(alloc, &at, *variables, split)?;
    splits_fit(alloc, list, index + 1, pairs, splits)
}

/// Whether what is said fits of what shows that the images of each two parts differ, the list with the key `distinct`.
pub(crate) fn all_distinct_fit(
    alloc: Global,
    program: &Program,
    place: &Place,
    term: &Joint,
) -> Result<(), Refused>
    ensures { Decides (distinct_fit (meaning program.now) (place.now ++ Key (codes "distinct") ∷ []) (joint_of term.now)) result }
{
    let mut pairs = Vec::new(alloc);
    push_pairs(&mut pairs, program, term.parts.as_slice())?;
    let splits = term.distinct.as_slice();
    let pairs = pairs.as_slice();
    if splits.len() != pairs.len() {
        return Err(misfit(alloc, place, Step::Key(ObjectKey("distinct"))));
    }
    let list = place.within(alloc, Step::Key(ObjectKey("distinct")))?;
    splits_fit(alloc, &list, 0, pairs, splits)?;
    Ok(())
}
