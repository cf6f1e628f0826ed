//! Places of lists and forms that don't fit.
#![tactic(auto, using(claims::proofs::Found::in_a_row))]

ghost use Rattle.std.specs.Prelude.{◌≡◌, ◌≤◌, ◌++◌, ◌∷◌, [], Some, IfOk};
ghost use Rattle.claims.specs.declared.place.Step.TheVariants.{Key, Index};
ghost use Rattle.claims.specs.Claims.{Decides, IsRefusalAt};
ghost use Rattle.certificate_fit.specs.FitClaims.{names, so_many};
ghost use Rattle.certificate_fit.specs.PartFit.{bounds_fit, forms_fit, polynomials_fit, sums_fit};
ghost use Rattle.iolb_model.specs.declared.limits.TheConstants.{PARAMETERS};

use affine_form::{Form, Memory};
use claims::{FailedCondition, ObjectKey, Place, Refused, Step, refusal};
use poly_tree::Poly;
use std::alloc::Global;

/// The refusal of what doesn't fit, one step further in.
pub fn misfit(alloc: Global, place: &Place, step: Step) -> Refused
    ensures { IsRefusalAt 1 (place.now ++ step ∷ []) result }
{
    match place.within(alloc, step) {
        Ok(place) => Refused::Failed(FailedCondition {
            condition: 1,
            place,
        }),
        Err(Memory) => Refused::Memory,
    }
}

/// Whether a list, one step further in, is as long as called for.
pub fn list_fits(
    alloc: Global,
    place: &Place,
    step: Step,
    found: usize,
    called: usize,
) -> Result<(), Refused>
    ensures { Decides (so_many (place.now ++ step ∷ []) found called ∷ []) result }
{
    if found == called {
        return Ok(());
    }
    Err(misfit(alloc, place, step))
}

/// Whether a number, one step further in, names one of so many things.
pub fn name_fits(
    alloc: Global,
    place: &Place,
    step: Step,
    number: usize,
    count: usize,
) -> Result<(), Refused>
    ensures { Decides (names (place.now ++ step ∷ []) number count ∷ []) result }
{
    if number < count {
        return Ok(());
    }
    Err(misfit(alloc, place, step))
}

/// The place of a member, in the list one step further in.
pub(crate) fn member_at(
    alloc: Global,
    place: &Place,
    step: Step,
    index: usize,
) -> Result<Place, Memory>
    ensures { IfOk result (λ member. member ≡ (place.now ++ step ∷ []) ++ Index index ∷ []) }
{
    let list = place.within(alloc, step)?;
    list.within(alloc, Step::Index(index as u64))
}

/// Whether the forms in the list one step further in are over so many variables.
pub(crate) fn all_forms_fit_in(
    alloc: Global,
    place: &Place,
    step: Step,
    variables: u128,
    forms: &[Form],
) -> Result<(), Refused>
    ensures { Decides (forms_fit variables (place.now ++ step ∷ []) forms.now) result }
{
    for (index, form) in forms.iter().enumerate() {
        if form.coef().len() as u128 != variables {
            let member = member_at(alloc, place, step, index)?;
            return Err(refusal(alloc, 1, &member));
        }
    }
    Ok(())
}

/// Whether the forms in the list with this key are over so many variables.
pub fn all_forms_fit(
    alloc: Global,
    place: &Place,
    key: ObjectKey,
    variables: u128,
    forms: &[Form],
) -> Result<(), Refused>
    ensures { Decides (forms_fit variables (place.now ++ Key key ∷ []) forms.now) result }
{
    all_forms_fit_in(alloc, place, Step::Key(key), variables, forms)
}

/// Whether the bounds of a nest's variables, in the list with this key, are over so many variables and one more for each
/// variable before their own.
pub fn all_bounds_fit(
    alloc: Global,
    place: &Place,
    key: ObjectKey,
    variables: usize,
    bounds: &[(Form, Form)],
) -> Result<(), Refused>
    requires { variables ≤ PARAMETERS }
    ensures { Decides (bounds_fit variables (place.now ++ Key key ∷ []) bounds.now) result }
{
    for (index, (lower, upper)) in bounds.iter().enumerate() {
        if lower.coef().len() != variables + index {
            let bound = bound_at(alloc, place, key, index, 0)?;
            return Err(refusal(alloc, 1, &bound));
        }
        if upper.coef().len() != variables + index {
            let bound = bound_at(alloc, place, key, index, 1)?;
            return Err(refusal(alloc, 1, &bound));
        }
    }
    Ok(())
}

/// The place of a variable's lower bound (0) or upper bound (1), in the list with this key.
fn bound_at(
    alloc: Global,
    place: &Place,
    key: ObjectKey,
    index: usize,
    side: u64,
) -> Result<Place, Memory>
    ensures { IfOk result (λ bound. bound ≡ (place.now ++ Key key ∷ []) ++ Index index ∷ Index side ∷ []) }
{
    let list = place.within(alloc, Step::Key(key))?;
    let pair = list.within(alloc, Step::Index(index as u64))?;
    pair.within(alloc, Step::Index(side))
}

/// Whether the polynomials in the list with this key use only so many variables and one more for each polynomial before.
pub fn all_sums_fit(
    alloc: Global,
    place: &Place,
    key: ObjectKey,
    variables: usize,
    sums: &[Poly],
) -> Result<(), Refused>
    requires { variables ≤ 7 }
    ensures { Decides (sums_fit variables (place.now ++ Key key ∷ []) sums.now) result }
{
    for (index, sum) in sums.iter().enumerate() {
        if !sum.uses_below(variables + index) {
            let member = member_at(alloc, place, Step::Key(key), index)?;
            return Err(refusal(alloc, 1, &member));
        }
    }
    Ok(())
}

/// Whether what is said fits of polynomials in the list with this key, of which so many are called for, over so
/// many parameters.
pub fn all_polynomials_fit(
    alloc: Global,
    place: &Place,
    key: ObjectKey,
    parameters: usize,
    sums: &[Poly],
    called: usize,
) -> Result<(), Refused>
    requires { parameters ≤ PARAMETERS }
    ensures { Decides (polynomials_fit parameters (place.now ++ Key key ∷ []) sums.now called) result }
{
    if sums.len() != called {
        return Err(misfit(alloc, place, Step::Key(key)));
    }
    all_sums_fit(alloc, place, key, parameters + 1, sums)?;
    Ok(())
}
