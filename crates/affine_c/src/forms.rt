//! Forms of rows.

ghost use Rattle.std.specs.Prelude.{◌≡◌, ◌≤◌, ◌+◌, ◌++◌, length, map, take, drop, IfOk, OnOk};
ghost use Rattle.std.specs.List.{AllByRecursion};
ghost use Rattle.c_grammar.specs.Well.{IsRowOver};
ghost use Rattle.c_grammar.specs.Program.{narrowed};
ghost use Rattle.iolb_model.specs.declared.limits.TheConstants.{LOOPS, PARAMETERS};

use affine_form::{Form, Memory};
use c_reading::Row;
use iolb_model::limits::PARAMETERS;
use std::alloc::Global;

/// Puts numbers at the end.
fn push_numbers(coef: &mut Vec<i128>, numbers: &[i32]) -> Result<(), Memory>
    ensures { OnOk result (coef.new.items ≡ coef.old.items ++ numbers.now) }
{
    for number in numbers {
        coef.push(i128::from(*number))?;
    }
    Ok(())
}

/// So many numbers, from this one on.
fn numbers_from(numbers: &[i32], from: usize, many: usize) -> &[i32]
    requires { from + many ≤ length numbers.now }
    ensures { result.now ≡ take many (drop from numbers.now) }
{
    &numbers[from..from + many]
}

/// The form over so many parameters and loops whose numbers are in this row.
pub(crate) fn form_of(
    alloc: Global,
    row: &Row,
    parameters: usize,
    depth: usize,
) -> Result<Form, Memory>
    requires few { parameters ≤ PARAMETERS }
    requires inner { depth ≤ LOOPS }
    requires over { IsRowOver parameters depth row.now }
    ensures { IfOk result (λ form. form ≡ narrowed parameters depth row.now) }
{
    let numbers = row.numbers();
    let mut coef = Vec::new(alloc);
    push_numbers(&mut coef, numbers_from(numbers, 1, parameters))?;
    push_numbers(&mut coef, numbers_from(numbers, 1 + PARAMETERS, depth))?;
    Ok(Form::new(coef, i128::from(numbers[0])))
}

/// The forms of these rows.
pub(crate) fn forms_of(
    alloc: Global,
    rows: &[Row],
    parameters: usize,
    depth: usize,
) -> Result<Vec<Form>, Memory>
    requires few { parameters ≤ PARAMETERS }
    requires inner { depth ≤ LOOPS }
    requires over { AllByRecursion (IsRowOver parameters depth) rows.now }
    ensures { IfOk result (λ forms. forms.items ≡ map (narrowed parameters depth) rows.now) }
{
    let mut forms = Vec::new(alloc);
    for row in rows {
        forms.push(form_of(alloc, row, parameters, depth)?)?;
    }
    Ok(forms)
}
