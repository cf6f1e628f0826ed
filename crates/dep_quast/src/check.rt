//! The check of a source tree.
#![tactic(auto, using(claims::proofs::Found::in_a_row))]

ghost use Rattle.std.specs.Prelude.{◌≡◌, [], OnOk, IfErr};
ghost use Rattle.affine_form.specs.System.{AllOver};
ghost use Rattle.affine_program.specs.Parts.{meaning};
ghost use Rattle.dep_quast.specs.Claims.{claims, IsValid};
ghost use Rattle.dep_quast.specs.Context.{variables_at};
ghost use Rattle.claims.specs.Claims.{Decides, IsRefusal};
ghost use Rattle.dep_quast.specs.Tree.{tree_of};
ghost use Rattle.dep_quast.specs.Truth.{ReadFits, FitsUnder, TreeFits, IsTrueTree};
ghost use Rattle.dep_quast.specs.Views.{read_of};

use crate::claimed::Claimed;
use crate::context::{tests_of_no, tests_of_yes};
use crate::leaves::{blank_shown, empty_shown, input_shown, source_shown};
use crate::quast::Quast;
use crate::reader::Reader;
use crate::truth::valid_trees_are_true;
use affine_form::Form;
use affine_program::Program;
use claims::{ObjectKey, Place, Refused, Step};
use std::alloc::Global;

/// Whether a tree is shown under these tests, leaf by leaf, `yes` before `no`.
fn tree_shown(
    alloc: Global,
    program: &Program,
    reader: Reader,
    tests: &[Form],
    place: &Place,
    quast: &Quast,
) -> Result<(), Refused>
    requires read { ReadFits (meaning program.now) (read_of reader) }
    requires tests_over { AllOver (variables_at (meaning program.now) (read_of reader)) tests.now }
    requires fits { FitsUnder (meaning program.now) (read_of reader) tests.now (tree_of quast.now) }
    ensures { Decides (claims (meaning program.now) (read_of reader) tests.now place.now (tree_of quast.now)) result }
{
    match quast {
        Quast::Test { form, yes, no } => {
            let above = tests_of_yes(alloc, tests, form)?;
            let side = place.within(alloc, Step::Key(ObjectKey("yes")))?;
            tree_shown(alloc, program, reader, above.as_slice(), &side, yes)?;
            let below = tests_of_no(alloc, program, reader, tests, form)?;
            let side = place.within(alloc, Step::Key(ObjectKey("no")))?;
            tree_shown(alloc, program, reader, below.as_slice(), &side, no)?;
            Ok(())
        }
        Quast::Source {
            statement,
            level,
            point,
            domain,
            cell,
            before,
            between,
        } => {
            let claimed = Claimed {
                statement: *statement,
                level: *level,
                point: point.as_slice(),
                domain: domain.as_slice(),
                cell: cell.as_slice(),
                before: before.as_slice(),
                between: between.as_slice(),
            };
            source_shown(alloc, program, reader, tests, place, &claimed)
        }
        Quast::Input { earlier } => {
            input_shown(alloc, program, reader, tests, place, earlier.as_slice())
        }
        Quast::Empty { shown } => empty_shown(alloc, program, reader, tests, place, shown),
        Quast::Blank => blank_shown(alloc, program, reader, tests, place),
    }
}

/// Checks a source tree of a read, which fits the program and stands at this place of a certificate.
///
/// `Ok` comes exactly where every claim of the tree holds. Then the tree is true: at all admitted parameter values, of any
/// size, and every instance of the reading statement, the leaf that the tests choose names the instance that last wrote the
/// cell, or says rightly that there is none, or is blank (Feautrier 1991). Else the answer is the first claim that doesn't
/// hold, leaf by leaf, `yes` before `no`: 2 a system of more than 128 rows, 3 a source outside its domain, 4 one that
/// doesn't write the cell, 5 one that doesn't come before the reader, 6 a write between or an earlier write that isn't shown
/// not to be, 7 an empty leaf to which points may come. Want of memory is the only other error.
pub fn check_quast(
    alloc: Global,
    program: &Program,
    statement: u16,
    read: u16,
    quast: &Quast,
    place: &Place,
) -> Result<(), Refused>
    requires read { ReadFits (meaning program.now) (record { statement = statement; read = read }) }
    requires fits { TreeFits (meaning program.now) (record { statement = statement; read = read }) (tree_of quast.now) }
    ensures valid { OnOk result (IsValid (meaning program.now) (record { statement = statement; read = read }) place.now (tree_of quast.now)) }
    ensures true_tree { OnOk result (IsTrueTree (meaning program.now) (record { statement = statement; read = read }) (tree_of quast.now)) }
    ensures refused { IfErr result (λ refused. IsRefusal (claims (meaning program.now) (record { statement = statement; read = read }) [] place.now (tree_of quast.now)) refused) }
{
    let _params = program.params();
    valid_trees_are_true();
    let reader = Reader { statement, read };
    tree_shown(alloc, program, reader, &[], place, quast)
}
