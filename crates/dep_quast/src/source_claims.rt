//! What a leaf claims of a source, but for the writes between.
#![tactic(auto, using(claims::proofs::Found::in_a_row))]

ghost use Rattle.std.specs.Prelude.{◌≡◌, ◌<◌, ◌*◌, ◌++◌, ◌∷◌, [], length, IfOk, IsTrue, ◌↔◌, codes};
ghost use Rattle.std.specs.List.{AllByRecursion};
ghost use Rattle.iolb_model.specs.Program.{statement_at};
ghost use Rattle.affine_form.specs.Rows.{IsSmallOver};
ghost use Rattle.affine_program.specs.Domain.{depth_of, domain_rows, domain_size};
ghost use Rattle.affine_program.specs.Parts.{meaning};
ghost use Rattle.claims.specs.declared.place.Step.TheVariants.{Key, Index};
ghost use Rattle.dep_quast.specs.Claims.{point_claims, first_shown, inside_goals, cell_goals, before_goals};
ghost use Rattle.claims.specs.Shown.{follow_claims};
ghost use Rattle.dep_quast.specs.Context.{reference_of, variables_at};
ghost use Rattle.claims.specs.Claims.{Decides};
ghost use Rattle.dep_quast.specs.Truth.{ReadFits, IsLevel};
ghost use Rattle.dep_quast.specs.Views.{read_of, claim_of};

use crate::claimed::Claimed;
use crate::point_rows::{domain_rows, precedence_rows, written_rows};
use crate::reader::{Reader, reference, variables, written};
use crate::writes::values_of_reader;
use affine_form::{Memory, Multipliers, System};
use affine_program::Program;
use claims::shown::goals_shown;
use claims::{ObjectKey, Place, Refused, Step, refusal};
use std::alloc::Global;

/// The first member of a list with this key.
fn first_member(alloc: Global, place: &Place, key: ObjectKey) -> Result<Place, Memory>
    ensures { IfOk result (λ first. first ≡ place.now ++ Key key ∷ Index 0 ∷ []) }
{
    let list = place.within(alloc, Step::Key(key))?;
    list.within(alloc, Step::Index(0))
}

/// The first member of the lists of a source, and the leaf itself if they have none.
pub(crate) fn place_of_first(
    alloc: Global,
    place: &Place,
    domain: &[Multipliers],
    cell: &[Multipliers],
    before: &[Multipliers],
) -> Result<Place, Memory>
    ensures { IfOk result (λ first. first ≡ first_shown place.now domain.now cell.now before.now) }
{
    if !domain.is_empty() {
        return first_member(alloc, place, ObjectKey("domain"));
    }
    if !cell.is_empty() {
        return first_member(alloc, place, ObjectKey("cell"));
    }
    if !before.is_empty() {
        return first_member(alloc, place, ObjectKey("before"));
    }
    place.try_clone(alloc)
}

/// Whether the source is shown to be in its statement's domain.
pub(crate) fn domain_shown(
    alloc: Global,
    program: &Program,
    reader: Reader,
    place: &Place,
    system: &System,
    claimed: &Claimed,
) -> Result<(), Refused>
    requires read { ReadFits (meaning program.now) (read_of reader) }
    requires there { claimed.now.statement < length program.now.statements }
    requires point { length claimed.now.point.now ≡ depth_of (meaning program.now) claimed.now.statement }
    requires forms { AllByRecursion (IsSmallOver (variables_at (meaning program.now) (read_of reader))) claimed.now.point.now }
    requires each { length claimed.now.domain.now ≡ domain_size (meaning program.now) claimed.now.statement }
    ensures { Decides (follow_claims 3 (place.now ++ Key (codes "domain") ∷ []) system.now 0 (inside_goals (meaning program.now) (read_of reader) (claim_of claimed.now)) claimed.now.domain.now) result }
{
    let vars = variables(program, reader);
    let goals = domain_rows(alloc, program, vars, claimed.statement, claimed.point)?;
    let list = place.within(alloc, Step::Key(ObjectKey("domain")))?;
    goals_shown(alloc, 3, &list, system, goals.as_slice(), claimed.domain)
}

/// Whether the source's statement writes the array that is read.
pub(crate) fn writes_array(program: &Program, reader: Reader, statement: u16) -> bool
    requires read { ReadFits (meaning program.now) (read_of reader) }
    requires there { statement < length program.now.statements }
    ensures { IsTrue result ↔ ((statement_at (meaning program.now) statement).writes.array ≡ (reference_of (meaning program.now) (read_of reader)).array) }
{
    written(program, statement).array == reference(program, reader).array
}

/// Whether the source is shown to write the cell that is read.
pub(crate) fn cell_shown(
    alloc: Global,
    program: &Program,
    reader: Reader,
    place: &Place,
    system: &System,
    claimed: &Claimed,
) -> Result<(), Refused>
    requires read { ReadFits (meaning program.now) (read_of reader) }
    requires there { claimed.now.statement < length program.now.statements }
    requires one_array { (statement_at (meaning program.now) claimed.now.statement).writes.array ≡ (reference_of (meaning program.now) (read_of reader)).array }
    requires point { length claimed.now.point.now ≡ depth_of (meaning program.now) claimed.now.statement }
    requires forms { AllByRecursion (IsSmallOver (variables_at (meaning program.now) (read_of reader))) claimed.now.point.now }
    requires each { length claimed.now.cell.now ≡ 2 * length (reference_of (meaning program.now) (read_of reader)).subscripts }
    ensures { Decides (follow_claims 4 (place.now ++ Key (codes "cell") ∷ []) system.now 0 (cell_goals (meaning program.now) (read_of reader) (claim_of claimed.now)) claimed.now.cell.now) result }
{
    let vars = variables(program, reader);
    let goals = written_rows(
        alloc,
        program,
        reader,
        vars,
        claimed.statement,
        claimed.point,
    )?;
    let list = place.within(alloc, Step::Key(ObjectKey("cell")))?;
    goals_shown(alloc, 4, &list, system, goals.as_slice(), claimed.cell)
}

/// Whether the source is shown to come before the reader at its level.
pub(crate) fn before_shown(
    alloc: Global,
    program: &Program,
    reader: Reader,
    place: &Place,
    system: &System,
    claimed: &Claimed,
) -> Result<(), Refused>
    requires read { ReadFits (meaning program.now) (read_of reader) }
    requires there { claimed.now.statement < length program.now.statements }
    requires level { IsLevel (meaning program.now) claimed.now.statement reader.statement claimed.now.level }
    requires point { length claimed.now.point.now ≡ depth_of (meaning program.now) claimed.now.statement }
    requires forms { AllByRecursion (IsSmallOver (variables_at (meaning program.now) (read_of reader))) claimed.now.point.now }
    requires each { length claimed.now.before.now ≡ length (before_goals (meaning program.now) (read_of reader) (claim_of claimed.now)) }
    ensures { Decides (follow_claims 5 (place.now ++ Key (codes "before") ∷ []) system.now 0 (before_goals (meaning program.now) (read_of reader) (claim_of claimed.now)) claimed.now.before.now) result }
{
    let vars = variables(program, reader);
    let xs = values_of_reader(alloc, program, reader, vars)?;
    let goals = precedence_rows(
        alloc,
        program,
        vars,
        usize::from(claimed.level),
        claimed.statement,
        claimed.point,
        reader.statement,
        xs.as_slice(),
    )?;
    let list = place.within(alloc, Step::Key(ObjectKey("before")))?;
    goals_shown(alloc, 5, &list, system, goals.as_slice(), claimed.before)
}

/// Whether a source is shown to be in its domain, to write the cell that is read, and to come before the reader.
pub(crate) fn point_shown(
    alloc: Global,
    program: &Program,
    reader: Reader,
    place: &Place,
    system: &System,
    claimed: &Claimed,
) -> Result<(), Refused>
    requires read { ReadFits (meaning program.now) (read_of reader) }
    requires there { claimed.now.statement < length program.now.statements }
    requires level { IsLevel (meaning program.now) claimed.now.statement reader.statement claimed.now.level }
    requires point { length claimed.now.point.now ≡ depth_of (meaning program.now) claimed.now.statement }
    requires forms { AllByRecursion (IsSmallOver (variables_at (meaning program.now) (read_of reader))) claimed.now.point.now }
    requires domain { length claimed.now.domain.now ≡ domain_size (meaning program.now) claimed.now.statement }
    requires cell { length claimed.now.cell.now ≡ 2 * length (reference_of (meaning program.now) (read_of reader)).subscripts }
    requires before { length claimed.now.before.now ≡ length (before_goals (meaning program.now) (read_of reader) (claim_of claimed.now)) }
    ensures { Decides (point_claims (meaning program.now) (read_of reader) system.now place.now (claim_of claimed.now)) result }
{
    domain_shown(alloc, program, reader, place, system, claimed)?;
    if !writes_array(program, reader, claimed.statement) {
        let key = place.within(alloc, Step::Key(ObjectKey("statement")))?;
        return Err(refusal(alloc, 4, &key));
    }
    cell_shown(alloc, program, reader, place, system, claimed)?;
    before_shown(alloc, program, reader, place, system, claimed)?;
    Ok(())
}
