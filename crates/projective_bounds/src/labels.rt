//! Labels of instances and of cells.

ghost use Rattle.std.specs.Prelude.{◌≡◌, ◌≤◌, ◌<◌, ◌+◌, IfOk, length, map};
ghost use Rattle.std.specs.List.{AllByRecursion};
ghost use Rattle.affine_form.specs.Rows.{variable};
ghost use Rattle.projective_bounds.specs.Families.{place_among};
ghost use Rattle.iolb_model.specs.declared.limits.TheConstants.{VARIABLES};

use affine_form::{Form, Memory, variable};
use std::alloc::Global;

/// The values of these loops, over so many variables, of which the loops stand behind the parameters.
pub(crate) fn loops_label(
    alloc: Global,
    params: usize,
    vars: usize,
    loops: &[u8],
) -> Result<Vec<Form>, Memory>
    requires few { vars ≤ VARIABLES }
    requires there { AllByRecursion (λ level. params + level < vars) loops.now }
    ensures { IfOk result (λ label. label.items ≡ map (λ level. variable vars (params + level)) loops.now) }
{
    let mut label = Vec::new(alloc);
    for level in loops {
        label.push(variable(alloc, vars, params + usize::from(*level))?)?;
    }
    Ok(label)
}

/// The place of the first form in which a variable has a coefficient, and how many forms there are where it has none.
fn place_among(forms: &[Form], place: usize) -> usize
    ensures place { result ≡ place_among forms.now place }
    ensures within { result ≤ length forms.now }
{
    let Some((first, others)) = forms.split_first() else {
        return 0;
    };
    if first.coefficient(place) != 0 {
        return 0;
    }
    place_among(others, place) + 1
}

/// For each of these loops the subscript in which it stands, over the parameters and the subscripts.
pub(crate) fn cell_label(
    alloc: Global,
    params: usize,
    subs: &[Form],
    loops: &[u8],
) -> Result<Vec<Form>, Memory>
    requires few { params + length subs.now ≤ VARIABLES }
    requires there { AllByRecursion (λ level. place_among subs.now (params + level) < length subs.now) loops.now }
    ensures { IfOk result (λ label. label.items ≡ map (λ level. variable (params + length subs.now) (params + place_among subs.now (params + level))) loops.now) }
{
    let mut label = Vec::new(alloc);
    for level in loops {
        let place = place_among(subs, params + usize::from(*level));
        label.push(variable(alloc, params + subs.len(), params + place)?)?;
    }
    Ok(label)
}
