//! The check of all source trees.

ghost use Rattle.std.specs.Prelude.{◌≡◌, map, IfOk, OnOk, IfErr};
ghost use Rattle.affine_program.specs.Parts.{meaning};
ghost use Rattle.claims.specs.Claims.{AllHold, IsRefusal};
ghost use Rattle.dep_quast.specs.Tree.{tree_of};
ghost use Rattle.dep_quast.specs.Quasts.{trees_of};
ghost use Rattle.dep_quast.specs.Trees.{RowFits, RowsFit, RowIsTrue, RowsAreTrue, row_claims, rows_claims, tree_place};

use crate::{Quast, Quasts, check_quast};
use affine_form::Memory;
use affine_program::Program;
use claims::{ObjectKey, Place, Refused, Step};
use std::alloc::Global;

/// Checks the source trees of a program, which fit it, by statement, read and leaf. After `Ok` all are true.
///
/// # Errors
///
/// The first claim that doesn't hold, as `check_quast` has it, at `/quasts/statement/read` and behind.
pub fn check_quasts(alloc: Global, program: &Program, quasts: &Quasts) -> Result<(), Refused>
    requires { RowsFit (meaning program.now) 0 (trees_of quasts.now) }
    ensures hold { OnOk result (AllHold (rows_claims (meaning program.now) 0 (trees_of quasts.now))) }
    ensures are_true { OnOk result (RowsAreTrue (meaning program.now) 0 (trees_of quasts.now)) }
    ensures refused { IfErr result (λ refused. IsRefusal (rows_claims (meaning program.now) 0 (trees_of quasts.now)) refused) }
{
    for (statement, row) in quasts.rows().iter().enumerate() {
        check_row(alloc, program, statement, row.as_slice())?;
    }
    Ok(())
}

/// Checks the source trees of a statement's reads.
fn check_row(
    alloc: Global,
    program: &Program,
    statement: usize,
    row: &[Quast],
) -> Result<(), Refused>
    requires { RowFits (meaning program.now) statement 0 (map tree_of row.now) }
    ensures hold { OnOk result (AllHold (row_claims (meaning program.now) statement 0 (map tree_of row.now))) }
    ensures are_true { OnOk result (RowIsTrue (meaning program.now) statement 0 (map tree_of row.now)) }
    ensures refused { IfErr result (λ refused. IsRefusal (row_claims (meaning program.now) statement 0 (map tree_of row.now)) refused) }
{
    let _params = program.params();
    for (read, quast) in row.iter().enumerate() {
        let Ok(place) = place_of(alloc, statement, read) else {
            return Err(Refused::Memory);
        };
        let (statement, read) = (statement as u16, read as u16);
        check_quast(alloc, program, statement, read, quast, &place)?;
    }
    Ok(())
}

/// The place of a source tree.
fn place_of(alloc: Global, statement: usize, read: usize) -> Result<Place, Memory>
    ensures { IfOk result (λ place. place ≡ tree_place statement read) }
{
    let steps = vec![in alloc;
        Step::Key(ObjectKey("quasts")),
        Step::Index(statement as u64),
        Step::Index(read as u64),
    ]?;
    Ok(Place::new(steps))
}
