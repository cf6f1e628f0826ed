//! Which loops stand in references.

ghost use Rattle.std.specs.Prelude.{◌≡◌, ◌↔◌, ◌+◌, ◌<◌, ◌≤◌, pos, true, not, IsTrue, IfOk, ℕ, map, slice_index_or, Some};
ghost use Rattle.std.specs.List.{list_any};
ghost use Rattle.std.specs.Ordering.{int_eq};
ghost use Rattle.iolb_model.specs.Form.{AffineForm};
ghost use Rattle.iolb_model.specs.Program.{Access};
ghost use Rattle.iolb_model.specs.declared.limits.TheConstants.{VARIABLES};
ghost use Rattle.affine_program.specs.Parts.{access_of};
ghost use Rattle.projective.specs.Projective.{HoldsOfOne, coordinates, reference_to, stands_in};

use crate::references::first_to;
use affine_form::{Form, Memory};
use affine_program::Reference;
use cover_lp::CoordSet;
use std::alloc::Global;

/// Whether one of some forms has a coefficient for a variable.
fn is_in_any(place: usize, forms: &[Form]) -> bool
    ensures { result ≡ list_any (λ (form : AffineForm). not (int_eq (slice_index_or form.coefficients place (pos 0)) (pos 0))) forms.now }
{
    match forms.split_first() {
        Some((first, rest)) => first.coefficient(place) != 0 || is_in_any(place, rest),
        None => false,
    }
}

/// Whether a variable stands in a reference.
pub fn is_in(place: usize, reference: &Reference) -> bool
    ensures { result ≡ stands_in place (access_of reference.now) }
{
    is_in_any(place, reference.subs.as_slice())
}

/// Whether a variable stands in one of some references.
fn is_in_some(place: usize, others: &[Reference]) -> bool
    ensures { IsTrue result ↔ HoldsOfOne (λ (access : Access). stands_in place access ≡ true) (map access_of others.now) }
{
    match others.split_first() {
        Some((first, rest)) => is_in(place, first) || is_in_some(place, rest),
        None => false,
    }
}

/// Whether each loop stands in one of some references.
pub(crate) fn all_stand(params: usize, depth: usize, others: &[Reference]) -> bool
    requires { params + depth ≤ VARIABLES }
    ensures { IsTrue result ↔ ((place : ℕ) → place < depth → HoldsOfOne (λ (access : Access). stands_in (params + place) access ≡ true) (map access_of others.now)) }
{
    for place in 0..depth {
        if !is_in_some(params + place, others) {
            return false;
        }
    }
    true
}

/// The loops that stand in a reference, rising.
fn loops_in(
    alloc: Global,
    params: usize,
    depth: u8,
    reference: &Reference,
) -> Result<CoordSet, Memory>
    requires { params + depth ≤ VARIABLES }
    ensures { IfOk result (λ set. set ≡ coordinates params depth (Some (access_of reference.now))) }
{
    let mut loops = Vec::new(alloc);
    for place in 0..depth {
        if is_in(params + usize::from(place), reference) {
            loops.push(place)?;
        }
    }
    Ok(CoordSet::new(loops))
}

/// The loops that stand in the first of some references to an array, rising, and none where there is no such reference.
pub(crate) fn set_of(
    alloc: Global,
    params: usize,
    depth: u8,
    others: &[Reference],
    array: u16,
) -> Result<CoordSet, Memory>
    requires { params + depth ≤ VARIABLES }
    ensures { IfOk result (λ set. set ≡ coordinates params depth (reference_to (map access_of others.now) array)) }
{
    match first_to(others, array) {
        Some(found) => loops_in(alloc, params, depth, found),
        None => Ok(CoordSet::new(Vec::new(alloc))),
    }
}
