//! References and statements, printed.

ghost use Rattle.std.specs.Prelude.{◌≡◌, ◌<◌, ◌++◌, flat_map, map, length, codes, OnOk};
ghost use Rattle.std.specs.List.{AllByRecursion};
ghost use Rattle.iolb_model.specs.Program.{AccessFits, IsOver, StatementFits, statement_at};
ghost use Rattle.affine_program.specs.Parts.{access_of, meaning};
ghost use Rattle.affine_c.specs.Text.{access_text, array_name, reads_text, statement_text, subscript_text};

use affine_form::{Form, Memory, Name};
use affine_program::{Program, Reference};
use std::alloc::Global;

/// A statement, written on a line at the end.
pub(crate) fn push_statement(
    alloc: Global,
    text: &mut Vec<u8>,
    program: &Program,
    names: &[Name],
    number: u16,
) -> Result<(), Memory>
    requires { StatementFits (meaning program.now) (length names.now) number }
    ensures { OnOk result (text.new.items ≡ text.old.items ++ statement_text (meaning program.now) names.now (statement_at (meaning program.now) number)) }
{
    let statement = &program.statements()[usize::from(number)];
    push_access(alloc, text, program, names, &statement.writes)?;
    text.extend_from_slice(b" = ")?;
    push_reads(alloc, text, program, names, statement.reads.as_slice())?;
    text.extend_from_slice(b";\n")?;
    Ok(())
}

/// What a statement reads, written at the end.
fn push_reads(
    alloc: Global,
    text: &mut Vec<u8>,
    program: &Program,
    names: &[Name],
    reads: &[Reference],
) -> Result<(), Memory>
    requires { AllByRecursion (AccessFits (meaning program.now) (length names.now)) (map access_of reads.now) }
    ensures { OnOk result (text.new.items ≡ text.old.items ++ reads_text (meaning program.now) names.now (map access_of reads.now)) }
{
    let Some((first, others)) = reads.split_first() else {
        text.push(b'0')?;
        return Ok(());
    };
    text.extend_from_slice(b"f(")?;
    push_access(alloc, text, program, names, first)?;
    push_others(alloc, text, program, names, others)?;
    text.push(b')')?;
    Ok(())
}

/// References, each behind a comma, written at the end.
fn push_others(
    alloc: Global,
    text: &mut Vec<u8>,
    program: &Program,
    names: &[Name],
    reads: &[Reference],
) -> Result<(), Memory>
    requires { AllByRecursion (AccessFits (meaning program.now) (length names.now)) (map access_of reads.now) }
    ensures { OnOk result (text.new.items ≡ text.old.items ++ flat_map (λ read. codes ", " ++ access_text (meaning program.now) names.now read) (map access_of reads.now)) }
{
    for read in reads {
        push_other(alloc, text, program, names, read)?;
    }
    Ok(())
}

/// A reference behind a comma, written at the end.
fn push_other(
    alloc: Global,
    text: &mut Vec<u8>,
    program: &Program,
    names: &[Name],
    read: &Reference,
) -> Result<(), Memory>
    requires { AccessFits (meaning program.now) (length names.now) (access_of read.now) }
    ensures { OnOk result (text.new.items ≡ text.old.items ++ (codes ", " ++ access_text (meaning program.now) names.now (access_of read.now))) }
{
    text.extend_from_slice(b", ")?;
    push_access(alloc, text, program, names, read)
}

/// A reference, written at the end.
fn push_access(
    alloc: Global,
    text: &mut Vec<u8>,
    program: &Program,
    names: &[Name],
    reference: &Reference,
) -> Result<(), Memory>
    requires { AccessFits (meaning program.now) (length names.now) (access_of reference.now) }
    ensures { OnOk result (text.new.items ≡ text.old.items ++ access_text (meaning program.now) names.now (access_of reference.now)) }
{
    text.extend_from_slice(name_of(program, reference.array).bytes())?;
    push_subscripts(alloc, text, names, reference.subs.as_slice())
}

/// The name of an array.
fn name_of(program: &Program, array: u16) -> &Name
    requires { array < length program.now.arrays }
    ensures { result.now ≡ array_name (meaning program.now) array }
{
    let (name, _rank) = &program.arrays()[usize::from(array)];
    name
}

/// Subscripts, each in brackets, written at the end.
fn push_subscripts(
    alloc: Global,
    text: &mut Vec<u8>,
    names: &[Name],
    forms: &[Form],
) -> Result<(), Memory>
    requires { AllByRecursion (IsOver (length names.now)) forms.now }
    ensures { OnOk result (text.new.items ≡ text.old.items ++ flat_map (subscript_text names.now) forms.now) }
{
    for form in forms {
        push_subscript(alloc, text, names, form)?;
    }
    Ok(())
}

/// A subscript in brackets, written at the end.
fn push_subscript(
    alloc: Global,
    text: &mut Vec<u8>,
    names: &[Name],
    form: &Form,
) -> Result<(), Memory>
    requires { IsOver (length names.now) form.now }
    ensures { OnOk result (text.new.items ≡ text.old.items ++ subscript_text names.now form.now) }
{
    text.push(b'[')?;
    text.extend_from_slice(form.text(alloc, names)?.as_slice())?;
    text.push(b']')?;
    Ok(())
}
