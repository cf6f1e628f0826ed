//! Reads of a program, and what the program says of their statements.

ghost use Rattle.std.specs.Prelude.{◌≡◌, ◌<◌, ◌≤◌, length, IfOk, ◌+◌};
ghost use Rattle.iolb_model.specs.Program.{statement_at};
ghost use Rattle.affine_program.specs.Domain.{depth_of};
ghost use Rattle.affine_program.specs.Parts.{access_of, meaning};
ghost use Rattle.dep_quast.specs.Context.{reference_of, variables_at};
ghost use Rattle.dep_quast.specs.Truth.{ReadFits};
ghost use Rattle.dep_quast.specs.Views.{read_of};
ghost use Rattle.iolb_model.specs.declared.limits.TheConstants.{LOOPS, PARAMETERS};

use affine_program::{Program, Reference};

/// A read of a program: the statement's number, and the read's.
#[derive(Clone, Copy)]
pub struct Reader {
    pub statement: u16,
    pub read: u16,
}

/// How many loops are around a statement.
pub fn depth(program: &Program, statement: u16) -> usize
    requires { statement < length program.now.statements }
    ensures depth { result ≡ depth_of (meaning program.now) statement }
    ensures few { result ≤ LOOPS }
{
    program.statements()[usize::from(statement)]
        .bounds
        .as_slice()
        .len()
}

/// How many variables there are at the reader: the parameters and its loop values.
pub fn variables(program: &Program, reader: Reader) -> usize
    requires { reader.statement < length program.now.statements }
    ensures variables { result ≡ variables_at (meaning program.now) (read_of reader) }
    ensures few { result ≤ PARAMETERS + LOOPS }
{
    program.params().len() + depth(program, reader.statement)
}

/// The reference that is read.
pub fn reference(program: &Program, reader: Reader) -> &Reference
    requires { ReadFits (meaning program.now) (read_of reader) }
    ensures { access_of result.now ≡ reference_of (meaning program.now) (read_of reader) }
{
    &program.statements()[usize::from(reader.statement)].reads[usize::from(reader.read)]
}

/// The reference that a statement writes.
pub fn written(program: &Program, statement: u16) -> &Reference
    requires { statement < length program.now.statements }
    ensures { access_of result.now ≡ (statement_at (meaning program.now) statement).writes }
{
    &program.statements()[usize::from(statement)].writes
}
