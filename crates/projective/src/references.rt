//! Whether references are projections of the loops.

ghost use Rattle.std.specs.Prelude.{◌≡◌, ◌≢◌, ◌↔◌, ◌+◌, ◌≤◌, IsTrue, IfOk, Some, map, option_map};
ghost use Rattle.std.specs.List.{AllByRecursion};
ghost use Rattle.iolb_model.specs.Program.{Access};
ghost use Rattle.iolb_model.specs.declared.limits.TheConstants.{VARIABLES};
ghost use Rattle.affine_program.specs.Parts.{access_of};
ghost use Rattle.projective.specs.Projective.{AreDifferent, HoldsOfOne, IsLoop, IsProjection, reference_to};

use affine_form::{Form, Memory, variable};
use affine_program::Reference;
use std::alloc::Global;

/// Whether forms are the same, one by one.
fn are_same(a: &[Form], b: &[Form]) -> bool
    ensures { IsTrue result ↔ (a.now ≡ b.now) }
{
    match (a.split_first(), b.split_first()) {
        (Some((first, others)), Some((second, rest))) => {
            first.is_same(second) && are_same(others, rest)
        }
        (None, None) => true,
        _ => false,
    }
}

/// Whether two references are the same.
fn is_same_reference(a: &Reference, b: &Reference) -> bool
    ensures { IsTrue result ↔ (access_of a.now ≡ access_of b.now) }
{
    a.array == b.array && are_same(a.subs.as_slice(), b.subs.as_slice())
}

/// Whether a reference is among others.
pub(crate) fn is_among(reference: &Reference, others: &[Reference]) -> bool
    ensures { IsTrue result ↔ HoldsOfOne (λ (access : Access). access ≡ access_of reference.now) (map access_of others.now) }
{
    match others.split_first() {
        Some((first, rest)) => is_same_reference(first, reference) || is_among(reference, rest),
        None => false,
    }
}

/// The first reference of some that is to an array.
pub(crate) fn first_to(others: &[Reference], array: u16) -> Option<&Reference>
    ensures { option_map (λ found. access_of found.now) result ≡ reference_to (map access_of others.now) array }
{
    match others.split_first() {
        Some((first, rest)) => {
            if first.array == array {
                return Some(first);
            }
            first_to(rest, array)
        }
        None => None,
    }
}

/// Whether a reference is the first of some that is to its array.
fn is_first(all: &[Reference], reference: &Reference) -> bool
    ensures { IsTrue result ↔ (reference_to (map access_of all.now) reference.now.array ≡ Some (access_of reference.now)) }
{
    match first_to(all, reference.array) {
        Some(first) => is_same_reference(first, reference),
        None => false,
    }
}

/// Whether each of some references is the first of all that is to its array.
pub(crate) fn are_first(all: &[Reference], others: &[Reference]) -> bool
    ensures { IsTrue result ↔ AllByRecursion (λ (access : Access). reference_to (map access_of all.now) access.array ≡ Some access) (map access_of others.now) }
{
    match others.split_first() {
        Some((first, rest)) => is_first(all, first) && are_first(all, rest),
        None => true,
    }
}

/// Whether a form is one of the loops.
fn is_loop(alloc: Global, params: usize, depth: usize, form: &Form) -> Result<bool, Memory>
    requires few { params + depth ≤ VARIABLES }
    ensures { IfOk result (λ yes. IsTrue yes ↔ IsLoop params depth form.now) }
{
    for place in 0..depth {
        let named = variable(alloc, params + depth, params + place)?;
        if form.is_same(&named) {
            return Ok(true);
        }
    }
    Ok(false)
}

/// Whether each form is one of the loops.
fn are_loops(alloc: Global, params: usize, depth: usize, forms: &[Form]) -> Result<bool, Memory>
    requires few { params + depth ≤ VARIABLES }
    ensures { IfOk result (λ yes. IsTrue yes ↔ AllByRecursion (IsLoop params depth) forms.now) }
{
    match forms.split_first() {
        Some((first, rest)) => {
            if !is_loop(alloc, params, depth, first)? {
                return Ok(false);
            }
            are_loops(alloc, params, depth, rest)
        }
        None => Ok(true),
    }
}

/// Whether none of some forms is this one.
fn is_no_other(form: &Form, others: &[Form]) -> bool
    ensures { IsTrue result ↔ AllByRecursion (λ other. other ≢ form.now) others.now }
{
    match others.split_first() {
        Some((first, rest)) => !first.is_same(form) && is_no_other(form, rest),
        None => true,
    }
}

/// Whether no form stands again behind itself.
fn are_different(forms: &[Form]) -> bool
    ensures { IsTrue result ↔ AreDifferent forms.now }
{
    match forms.split_first() {
        Some((first, rest)) => is_no_other(first, rest) && are_different(rest),
        None => true,
    }
}

/// Whether a reference is a projection: its subscripts are different loops.
fn is_projection(
    alloc: Global,
    params: usize,
    depth: usize,
    reference: &Reference,
) -> Result<bool, Memory>
    requires few { params + depth ≤ VARIABLES }
    ensures { IfOk result (λ yes. IsTrue yes ↔ IsProjection params depth (access_of reference.now)) }
{
    let loops = are_loops(alloc, params, depth, reference.subs.as_slice())?;
    Ok(loops && are_different(reference.subs.as_slice()))
}

/// Whether each of some references is a projection.
pub(crate) fn all_project(
    alloc: Global,
    params: usize,
    depth: usize,
    others: &[Reference],
) -> Result<bool, Memory>
    requires few { params + depth ≤ VARIABLES }
    ensures { IfOk result (λ yes. IsTrue yes ↔ AllByRecursion (IsProjection params depth) (map access_of others.now)) }
{
    match others.split_first() {
        Some((first, rest)) => {
            if !is_projection(alloc, params, depth, first)? {
                return Ok(false);
            }
            all_project(alloc, params, depth, rest)
        }
        None => Ok(true),
    }
}
