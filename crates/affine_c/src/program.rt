//! Programs, printed.

ghost use Rattle.std.specs.Prelude.{◌≡◌, ◌++◌, flat_map, length, codes, OnOk, IfOk};
ghost use Rattle.std.specs.List.{AllByRecursion};
ghost use Rattle.iolb_model.specs.Printed.{form_text};
ghost use Rattle.iolb_model.specs.Program.{IsOver};
ghost use Rattle.affine_program.specs.Parts.{meaning};
ghost use Rattle.c_grammar.specs.Program.{Means};
ghost use Rattle.affine_c.specs.Text.{assumption_pragma, parameters_text, program_text as text_of_program};

use crate::items::push_items;
use affine_form::{Form, Memory, Name};
use affine_program::Program;
use std::alloc::Global;

/// A program as C text, one item a line without indentation: its parameters, its assumptions, and its loops, guards and
/// statements between the line that opens the program and the line that closes it. A guard is printed with all its rows,
/// each said to be at least 0, and a statement as a function of its reads. Reading the text gives this program. Want of memory is its only error.
#[tactic(auto, using(crate::proofs::Readable::printed_means))]
pub fn program_text(alloc: Global, program: &Program) -> Result<Vec<u8>, Memory>
    ensures text { IfOk result (λ text. text.items ≡ text_of_program (meaning program.now)) }
    ensures read_back { IfOk result (λ text. Means text.items (meaning program.now)) }
{
    let _params = program.params();
    printed(alloc, program)
}

/// The text of a program.
fn printed(alloc: Global, program: &Program) -> Result<Vec<u8>, Memory>
    ensures { IfOk result (λ text. text.items ≡ text_of_program (meaning program.now)) }
{
    let names = program.params();
    let mut text = Vec::new(alloc);
    push_parameters(&mut text, names)?;
    push_assumptions(alloc, &mut text, names, program.assumed().rows())?;
    text.extend_from_slice(b"#pragma scop\n")?;
    push_items(alloc, &mut text, program, names, program.tree())?;
    text.extend_from_slice(b"#pragma endscop\n")?;
    Ok(text)
}

/// The parameters, written on a line at the end, if there are any.
fn push_parameters(text: &mut Vec<u8>, names: &[Name]) -> Result<(), Memory>
    ensures { OnOk result (text.new.items ≡ text.old.items ++ parameters_text names.now) }
{
    if names.is_empty() {
        return Ok(());
    }
    text.extend_from_slice(b"#pragma iolb param")?;
    push_names(text, names)?;
    text.push(b'\n')?;
    Ok(())
}

/// Names, each behind a space, written at the end.
fn push_names(text: &mut Vec<u8>, names: &[Name]) -> Result<(), Memory>
    ensures { OnOk result (text.new.items ≡ text.old.items ++ flat_map (λ name. codes " " ++ name) names.now) }
{
    for name in names {
        text.push(b' ')?;
        text.extend_from_slice(name.bytes())?;
    }
    Ok(())
}

/// The assumptions, each written on a line at the end.
fn push_assumptions(
    alloc: Global,
    text: &mut Vec<u8>,
    names: &[Name],
    rows: &[Form],
) -> Result<(), Memory>
    requires { AllByRecursion (IsOver (length names.now)) rows.now }
    ensures { OnOk result (text.new.items ≡ text.old.items ++ flat_map (assumption_pragma names.now) rows.now) }
{
    for row in rows {
        push_assumption(alloc, text, names, row)?;
    }
    Ok(())
}

/// An assumption, written on a line at the end.
fn push_assumption(
    alloc: Global,
    text: &mut Vec<u8>,
    names: &[Name],
    row: &Form,
) -> Result<(), Memory>
    requires { IsOver (length names.now) row.now }
    ensures { OnOk result (text.new.items ≡ text.old.items ++ assumption_pragma names.now row.now) }
{
    push_between(alloc, text, b"#pragma iolb assume ", names, row, b" >= 0\n")?;
    Ok(())
}

/// A form between two pieces, written at the end.
fn push_between(
    alloc: Global,
    text: &mut Vec<u8>,
    before: &[u8],
    names: &[Name],
    form: &Form,
    after: &[u8],
) -> Result<(), Memory>
    requires { IsOver (length names.now) form.now }
    ensures { OnOk result (text.new.items ≡ text.old.items ++ before.now ++ form_text names.now form.now ++ after.now) }
{
    text.extend_from_slice(before)?;
    text.extend_from_slice(form.text(alloc, names)?.as_slice())?;
    text.extend_from_slice(after)?;
    Ok(())
}
