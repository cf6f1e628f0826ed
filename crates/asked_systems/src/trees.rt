//! Systems of source trees.

ghost use Rattle.affine_program.specs.Parts.{meaning};
ghost use Rattle.dep_quast.specs.Context.{variables_at};
ghost use Rattle.dep_quast.specs.Truth.{ReadFits};
ghost use Rattle.dep_quast.specs.Views.{read_of};
ghost use Rattle.affine_form.specs.System.{AllOver};

use crate::fits::{is_over, is_there};
use crate::leaves::{write_empty, write_input, write_source};
use crate::steps::{behind, index_at, key_at};
use affine_form::{Form, Memory};
use affine_program::Program;
use claims::Step;
use dep_quast::claimed::Claimed;
use dep_quast::context::{tests_of_no, tests_of_yes};
use dep_quast::reader::{Reader, variables};
use dep_quast::{Quast, Quasts};
use plain_pages::Page;

/// Writes the system of the multipliers at a place under a leaf, which these tests lead to.
fn write_leaf(
    page: &mut Page,
    program: &Program,
    reader: Reader,
    tests: &[Form],
    quast: &Quast,
    steps: &[Step],
) -> Result<(), Memory>
    requires read { ReadFits (meaning program.now) (read_of reader) }
    requires tests_over { AllOver (variables_at (meaning program.now) (read_of reader)) tests.now }
{
    match quast {
        Quast::Source {
            statement,
            level,
            point,
            domain,
            cell,
            before,
            between,
        } => {
            let claimed = Claimed {
                statement: *statement,
                level: *level,
                point: point.as_slice(),
                domain: domain.as_slice(),
                cell: cell.as_slice(),
                before: before.as_slice(),
                between: between.as_slice(),
            };
            write_source(page, program, reader, tests, &claimed, steps)
        }
        Quast::Input { earlier } => {
            write_input(page, program, reader, tests, earlier.as_slice(), steps)
        }
        Quast::Empty { shown } => write_empty(page, program, reader, tests, shown),
        Quast::Blank | Quast::Test { .. } => Ok(()),
    }
}

/// Writes the system of the multipliers at a place under a tree, which these tests lead to.
fn write_under(
    page: &mut Page,
    program: &Program,
    reader: Reader,
    tests: &[Form],
    quast: &Quast,
    steps: &[Step],
) -> Result<(), Memory>
    requires read { ReadFits (meaning program.now) (read_of reader) }
    requires tests_over { AllOver (variables_at (meaning program.now) (read_of reader)) tests.now }
{
    let alloc = page.alloc();
    match quast {
        Quast::Test { form, yes, no } => {
            if !is_over(variables(program, reader), form) {
                return Ok(());
            }
            let rest = behind(steps, 1);
            if key_at(steps, 0) == Some("yes") {
                let all = tests_of_yes(alloc, tests, form)?;
                write_under(page, program, reader, all.as_slice(), yes, rest)
            } else {
                let all = tests_of_no(alloc, program, reader, tests, form)?;
                write_under(page, program, reader, all.as_slice(), no, rest)
            }
        }
        _ => write_leaf(page, program, reader, tests, quast, steps),
    }
}

/// The statement and the read at a place behind `quasts`.
fn read_at(steps: &[Step]) -> Option<(u16, u16)> {
    let statement = u16::try_from(index_at(steps, 0)?).ok()?;
    let read = u16::try_from(index_at(steps, 1)?).ok()?;
    Some((statement, read))
}

/// Writes the system of the multipliers at a place of the source trees of a program's reads, behind `quasts`: a list's member at a
/// source or an input, or those of an empty leaf. Nothing at other places, and where a tree doesn't fit the program.
pub fn write_in_tree(
    page: &mut Page,
    program: &Program,
    quasts: &Quasts,
    steps: &[Step],
) -> Result<(), Memory> {
    let Some((statement, read)) = read_at(steps) else {
        return Ok(());
    };
    let Some(quast) = quasts.tree(statement, read) else {
        return Ok(());
    };
    if !is_there(program, statement, read) {
        return Ok(());
    }
    let reader = Reader { statement, read };
    write_under(page, program, reader, &[], quast, behind(steps, 2))
}
