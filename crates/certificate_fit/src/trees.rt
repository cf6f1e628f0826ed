//! Whether source trees fit.
#![tactic(auto, using(claims::proofs::Found::in_a_row))]

ghost use Rattle.std.specs.Prelude.{◌≡◌, ◌<◌, length, map};
ghost use Rattle.affine_program.specs.Parts.{meaning};
ghost use Rattle.claims.specs.Claims.{numbered, Decides};
ghost use Rattle.certificate_fit.specs.TreeFit.{trees_fit, leaf_fit, row_at, row_fit, tree_fit};
ghost use Rattle.dep_quast.specs.Tree.{input, tree_of};
ghost use Rattle.dep_quast.specs.Truth.{ReadFits};
ghost use Rattle.dep_quast.specs.Views.{read_of};
ghost use Rattle.iolb_model.specs.Program.{statement_at};
ghost use Rattle.dep_quast.specs.Quasts.{row_trees, trees_of};

use crate::counts::read_count;
use crate::lists::{list_fits, misfit};
use crate::sources::source_fits;
use affine_form::Multipliers;
use affine_program::Program;
use claims::{ObjectKey, Place, Refused, Step, refusal};
use dep_quast::Quast;
use dep_quast::claimed::Claimed;
use dep_quast::fitting::earlier_count;
use dep_quast::reader::{Reader, variables};
use reuse_paths::Quasts;
use std::alloc::Global;

/// Whether the list of an input is as long as called for.
fn input_fits(
    alloc: Global,
    program: &Program,
    reader: Reader,
    place: &Place,
    earlier: &[Multipliers],
) -> Result<(), Refused>
    requires { ReadFits (meaning program.now) (read_of reader) }
    ensures { Decides (leaf_fit (meaning program.now) (read_of reader) place.now (input earlier.now)) result }
{
    let called = earlier_count(program, reader);
    list_fits(
        alloc,
        place,
        Step::Key(ObjectKey("input")),
        earlier.len(),
        called,
    )
}

/// Whether what is said fits of a tree at this place.
fn tree_fits(
    alloc: Global,
    program: &Program,
    reader: Reader,
    place: &Place,
    quast: &Quast,
) -> Result<(), Refused>
    requires { ReadFits (meaning program.now) (read_of reader) }
    ensures { Decides (tree_fit (meaning program.now) (read_of reader) place.now (tree_of quast.now)) result }
{
    match quast {
        Quast::Test { form, yes, no } => {
            if form.coef().len() != variables(program, reader) {
                return Err(misfit(alloc, place, Step::Key(ObjectKey("form"))));
            }
            let side = place.within(alloc, Step::Key(ObjectKey("no")))?;
            tree_fits(alloc, program, reader, &side, no)?;
            let side = place.within(alloc, Step::Key(ObjectKey("yes")))?;
            tree_fits(alloc, program, reader, &side, yes)?;
            Ok(())
        }
        Quast::Source {
            statement,
            level,
            point,
            domain,
            cell,
            before,
            between,
        } => {
            let claimed = Claimed {
                statement: *statement,
                level: *level,
                point: point.as_slice(),
                domain: domain.as_slice(),
                cell: cell.as_slice(),
                before: before.as_slice(),
                between: between.as_slice(),
            };
            source_fits(alloc, program, reader, place, &claimed)
        }
        Quast::Input { earlier } => {
            input_fits(alloc, program, reader, place, earlier.as_slice())
        }
        Quast::Empty { .. } | Quast::Blank => Ok(()),
    }
}

/// Whether what is said fits of the trees of a statement's reads, which stand in a list at this place.
fn row_fits(
    alloc: Global,
    program: &Program,
    place: &Place,
    statement: u16,
    row: &[Quast],
) -> Result<(), Refused>
    requires there { statement < length program.now.statements }
    requires one_each { length row.now ≡ length (statement_at (meaning program.now) statement).reads }
    ensures { Decides (row_fit (meaning program.now) place.now statement (map tree_of row.now)) result }
{
    let _params = program.params();
    for (read, quast) in row.iter().enumerate() {
        let at = place.within(alloc, Step::Index(read as u64))?;
        let reader = Reader {
            statement,
            read: read as u16,
        };
        tree_fits(alloc, program, reader, &at, quast)?;
    }
    Ok(())
}

/// Whether what is said fits of a statement's row of trees, in a list of rows at this place.
fn row_at_fits(
    alloc: Global,
    program: &Program,
    place: &Place,
    statement: u16,
    row: &Vec<Quast>,
) -> Result<(), Refused>
    requires { statement < length program.now.statements }
    ensures { Decides (row_at (meaning program.now) place.now statement (row_trees row.now)) result }
{
    let step = Step::Index(u64::from(statement));
    let trees = row.as_slice();
    if trees.len() != read_count(program, statement) {
        return Err(misfit(alloc, place, step));
    }
    let list = place.within(alloc, step)?;
    row_fits(alloc, program, &list, statement, trees)?;
    Ok(())
}

/// Whether what is said fits of the rows of trees, one for each statement, which stand in a list at this place.
fn all_rows_fit(
    alloc: Global,
    program: &Program,
    place: &Place,
    rows: &[Vec<Quast>],
) -> Result<(), Refused>
    requires { length rows.now ≡ length program.now.statements }
    ensures { Decides (numbered (row_at (meaning program.now) place.now) 0 (map row_trees rows.now)) result }
{
    let _params = program.params();
    for (statement, row) in rows.iter().enumerate() {
        row_at_fits(alloc, program, place, statement as u16, row)?;
    }
    Ok(())
}

/// Whether what is said fits of the source trees.
pub fn all_quasts_fit(alloc: Global, program: &Program, quasts: &Quasts) -> Result<(), Refused>
    ensures { Decides (trees_fit (meaning program.now) (trees_of quasts.now)) result }
{
    let place = Place::new(Vec::new(alloc)).within(alloc, Step::Key(ObjectKey("quasts")))?;
    let rows = quasts.rows();
    if rows.len() != program.statements().len() {
        return Err(refusal(alloc, 1, &place));
    }
    all_rows_fit(alloc, program, &place, rows)?;
    Ok(())
}
