//! Whether credited nests fit.
#![tactic(auto, using(claims::proofs::Found::in_a_row))]

ghost use Rattle.claims.specs.Claims.{Decides};
ghost use Rattle.std.specs.Prelude.{◌≡◌, ◌∷◌, [], ◌++◌, length};
ghost use Rattle.affine_program.specs.Parts.{meaning};
ghost use Rattle.claims.specs.declared.place.Step.TheVariants.{Key};
ghost use Rattle.certificate_fit.specs.FamilyFit.{credit_fit, credit_nest_fit, credit_count_fit};
ghost use Rattle.certificate_fit.specs.FamilyViews.{credits_fit};
ghost use Rattle.certificate_fit.specs.FitClaims.{names};
ghost use Rattle.certificate_fit.specs.PartFit.{polynomials_fit};
ghost use Rattle.reuse_paths.specs.Families.{credit_of};

use crate::counts::loops_around;
use crate::lists::{all_bounds_fit, all_polynomials_fit, list_fits, misfit, name_fits};
use affine_program::Program;
use claims::{ObjectKey, Place, Refused, Step};
use reuse_paths::Credit;
use std::alloc::Global;

/// Whether what is said fits of a credit's nest, which has a variable for each loop around its statement.
fn nest_fits(
    alloc: Global,
    program: &Program,
    place: &Place,
    credit: &Credit,
) -> Result<(), Refused>
    ensures { Decides (credit_nest_fit (meaning program.now) place.now (credit_of credit.now)) result }
{
    let bounds = credit.nest.bounds();
    if bounds.len() != loops_around(program, credit.statement) {
        return Err(misfit(alloc, place, Step::Key(ObjectKey("nest"))));
    }
    all_bounds_fit(
        alloc,
        place,
        ObjectKey("nest"),
        program.params().len(),
        bounds,
    )?;
    Ok(())
}

/// Whether what is said fits of a credit's statement, and of what is claimed of how many instances are in its nest.
fn count_fits(
    alloc: Global,
    program: &Program,
    place: &Place,
    credit: &Credit,
) -> Result<(), Refused>
    ensures { Decides (credit_count_fit (meaning program.now) place.now (credit_of credit.now) credit.now.sums) result }
{
    let depth = credit.nest.bounds().len();
    if credit.sums.shown().len() != depth {
        return Err(misfit(alloc, place, Step::Key(ObjectKey("shown"))));
    }
    if usize::from(credit.statement) >= program.statements().len() {
        return Err(misfit(alloc, place, Step::Key(ObjectKey("statement"))));
    }
    let parameters = program.params().len();
    all_polynomials_fit(
        alloc,
        place,
        ObjectKey("sums"),
        parameters,
        credit.sums.sums(),
        depth,
    )?;
    Ok(())
}

/// Whether what is said fits of a credit, at this place.
fn credit_fits(
    alloc: Global,
    program: &Program,
    place: &Place,
    credit: &Credit,
) -> Result<(), Refused>
    ensures { Decides (credit_fit (meaning program.now) place.now (credit_of credit.now) credit.now.sums) result }
{
    nest_fits(alloc, program, place, credit)?;
    count_fits(alloc, program, place, credit)?;
    Ok(())
}

/// Whether what is said fits of credits, in a list at this place.
pub fn all_credits_fit(
    alloc: Global,
    program: &Program,
    list: &Place,
    credits: &[Credit],
) -> Result<(), Refused>
    ensures { Decides (credits_fit (meaning program.now) list.now credits.now) result }
{
    for (index, credit) in credits.iter().enumerate() {
        let at = list.within(alloc, Step::Index(index as u64))?;
        credit_fits(alloc, program, &at, credit)?;
    }
    Ok(())
}
