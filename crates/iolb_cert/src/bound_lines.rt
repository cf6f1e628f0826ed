//! The text of a bound.

ghost use Rattle.std.specs.Prelude.{◌≡◌, ◌∷◌, [], ◌++◌, ℕ, length, map, flat_map, codes, decimal, string_bytes, IfOk, OnOk};
ghost use Rattle.std.specs.List.{AllByRecursion};
ghost use Rattle.iolb_model.specs.Bound.{wavefront};
ghost use Rattle.iolb_model.specs.Program.{IsOver};
ghost use Rattle.poly_tree.specs.Printed.{polynomial_of};
ghost use Rattle.iolb_model.specs.Printed.{assumption_text, bound_term_text, counted_text, stretch_text, branches_text, bound_text as text_of_bound};
ghost use Rattle.iolb_check.specs.Bounds.{bound_of, term_of};
ghost use Rattle.k_partition.specs.Numbers.{numbers_of};

use affine_form::{Form, Memory, Name};
use affine_program::Program;
use iolb_check::{Bound, Value};
use k_partition::PartitionBound;
use poly_tree::Poly;
use std::alloc::Global;

/// An assumption, written on a line at the end.
fn push_assumption(
    alloc: Global,
    text: &mut Vec<u8>,
    names: &[Name],
    row: &Form,
) -> Result<(), Memory>
    requires { IsOver (length names.now) row.now }
    ensures { OnOk result (text.new.items ≡ text.old.items ++ assumption_text names.now row.now) }
{
    text.extend_from_slice(b"assume ")?;
    text.extend_from_slice(row.text(alloc, names)?.as_slice())?;
    text.extend_from_slice(b" >= 0\n")?;
    Ok(())
}

/// The assumptions, each on a line.
fn assumption_lines(alloc: Global, names: &[Name], rows: &[Form]) -> Result<Vec<u8>, Memory>
    requires { AllByRecursion (IsOver (length names.now)) rows.now }
    ensures { IfOk result (λ text. text.items ≡ flat_map (assumption_text names.now) rows.now) }
{
    let mut text = Vec::new(alloc);
    for row in rows {
        push_assumption(alloc, &mut text, names, row)?;
    }
    Ok(text)
}

/// The line of a wavefront term: how many words it names, less S for each of its vertices.
fn front_line(alloc: Global, names: &[Name], pairs: &Poly, outer: &Poly) -> Result<Vec<u8>, Memory>
    ensures { IfOk result (λ text. text.items ≡ bound_term_text names.now (wavefront (polynomial_of pairs.now) (polynomial_of outer.now))) }
{
    let mut text = Vec::new(alloc);
    text.extend_from_slice(b"  wavefront ")?;
    text.extend_from_slice(pairs.text(alloc, names)?.as_slice())?;
    text.extend_from_slice(b" - S*(")?;
    text.extend_from_slice(outer.text(alloc, names)?.as_slice())?;
    text.extend_from_slice(b")\n")?;
    Ok(text)
}

/// The numbers of stretches.
fn stretch(alloc: Global, bound: &PartitionBound) -> Result<String, Memory>
    ensures { IfOk result (λ text. string_bytes text ≡ stretch_text (numbers_of bound.now)) }
{
    let (a, b, q) = (bound.a, bound.b, bound.q);
    let (den, num, m) = (bound.den, bound.num, bound.m);
    Ok(format!(in alloc; " T {a}*S + {b} U^{q}*{den} <= {num}*(S + T)^{m}")?)
}

/// The counts and the numbers of a term over stretches, and the end of the line: how many points it has, how many are credited.
fn counted(alloc: Global, names: &[Name], bound: &PartitionBound) -> Result<Vec<u8>, Memory>
    ensures { IfOk result (λ text. text.items ≡ counted_text names.now (polynomial_of bound.now.count) (polynomial_of bound.now.credits) (numbers_of bound.now)) }
{
    let mut text = Vec::new(alloc);
    text.extend_from_slice(b" count ")?;
    text.extend_from_slice(bound.count.text(alloc, names)?.as_slice())?;
    text.extend_from_slice(b" credits ")?;
    text.extend_from_slice(bound.credits.text(alloc, names)?.as_slice())?;
    text.extend_from_slice(stretch(alloc, bound)?.as_bytes())?;
    text.push(b'\n')?;
    Ok(text)
}

/// A term, written on a line at the end.
fn push_term(alloc: Global, text: &mut Vec<u8>, names: &[Name], term: &Value) -> Result<(), Memory>
    ensures { OnOk result (text.new.items ≡ text.old.items ++ bound_term_text names.now (term_of term.now)) }
{
    match term {
        Value::Cold(count) => {
            text.extend_from_slice(b"  cold ")?;
            text.extend_from_slice(count.text(alloc, names)?.as_slice())?;
            text.push(b'\n')?;
        }
        Value::Partition(bound) => {
            text.extend_from_slice(b"  partition")?;
            text.extend_from_slice(counted(alloc, names, bound)?.as_slice())?;
        }
        Value::Wavefront { pairs, outer } => {
            text.extend_from_slice(front_line(alloc, names, pairs, outer)?.as_slice())?;
        }
        Value::Joint(bound) => {
            text.extend_from_slice(b"  joint")?;
            text.extend_from_slice(counted(alloc, names, bound)?.as_slice())?;
        }
    }
    Ok(())
}

/// The terms of a branch, each on a line.
fn term_lines(alloc: Global, names: &[Name], terms: &[Value]) -> Result<Vec<u8>, Memory>
    ensures { IfOk result (λ text. text.items ≡ flat_map (bound_term_text names.now) (map term_of terms.now)) }
{
    let mut text = Vec::new(alloc);
    for term in terms {
        push_term(alloc, &mut text, names, term)?;
    }
    Ok(text)
}

/// A word, a number and the end of the line, written at the end.
fn push_number_line(
    alloc: Global,
    text: &mut Vec<u8>,
    word: &[u8],
    number: usize,
) -> Result<(), Memory>
    ensures { OnOk result (text.new.items ≡ text.old.items ++ word.now ++ decimal number ++ codes "\n") }
{
    text.extend_from_slice(word)?;
    text.extend_from_slice(format!(in alloc; "{number}")?.as_bytes())?;
    text.push(b'\n')?;
    Ok(())
}

/// The branches, each a line with its number and then its terms.
fn branch_lines(alloc: Global, names: &[Name], bound: &Bound) -> Result<Vec<u8>, Memory>
    ensures { IfOk result (λ text. text.items ≡ branches_text names.now 0 (bound_of bound.now).branches) }
{
    let mut text = Vec::new(alloc);
    for i in 0..bound.branches() {
        push_number_line(alloc, &mut text, b"branch ", i)?;
        text.extend_from_slice(term_lines(alloc, names, bound.terms(i))?.as_slice())?;
    }
    Ok(text)
}

/// The text of a bound on a program's loads: its assumptions, its branches with their terms, and how many branches
/// there are.
pub fn bound_text(alloc: Global, program: &Program, bound: &Bound) -> Result<Vec<u8>, Memory>
    requires { bound.now.assumed.vars ≡ length program.now.params }
    ensures { IfOk result (λ text. text.items ≡ text_of_bound program.now.params (bound_of bound.now)) }
{
    let names = program.params();
    let assumed = bound.assumed();
    let mut text = assumption_lines(alloc, names, assumed.rows())?;
    text.extend_from_slice(branch_lines(alloc, names, bound)?.as_slice())?;
    push_number_line(alloc, &mut text, b"branches ", bound.branches())?;
    Ok(text)
}
