//! Source trees.

ghost use Rattle.std.specs.Prelude.{◌≡◌, Ok, IfOk};
ghost use Rattle.certificate_fit.specs.Limits.{IsSmallSource, IsNestedTree, IsSmallTree};
ghost use Rattle.dep_quast.specs.Tree.{SelectionTree, tree_of};
ghost use Rattle.json_values.specs.View.{json_data};
ghost use Rattle.serde_json.specs.View.{view};
ghost use Rattle.json_parts.specs.Fields.{object_shape, reads_made};
ghost use Rattle.json_parts.specs.Outcome.{Gives};
ghost use Rattle.json_parts.specs.Related.{plain_link, same_link};
ghost use Rattle.json_parts.specs.Shape.{IsReadBack};
ghost use Rattle.certificate_parts.specs.Nested.{reads_nested};
ghost use Rattle.certificate_parts.specs.Trees.{source_fields, source_made, true_shape, trees_branch, tree_data, tree_shape};

use crate::forms::OfForm;
use crate::multipliers::OfMultipliers;
use crate::nested::{Branches, nested, write_test};
use affine_form::{Form, Memory, Multipliers};
use dep_quast::{Quast, leaf_count};
use iolb_model::limits;
use json_parts::{
    Any8, Any16, CertError, End, ListOf, Part, fault, has_keys, put_part, read_object, write_object,
};
use json_values::Json;
use serde_json::Value;
use std::alloc::Global;

/// The boolean that is true.
struct OfTrue {}

impl Part for OfTrue {
    type Value = ();

    ghost Said = { Unit {0} };

    ghost shape = { true_shape };

    ghost link = { same_link };

    ghost Fits = { λ _. Unit {0} };

    #[tactic(auto, unfolding(crate::specs::Trees::reads_true))]
    fn read(alloc: Global, value: &Json) -> Result<(), CertError> {
        match value.as_bool() {
            Some(true) => Ok(()),
            _ => Err(fault(alloc, 2)),
        }
    }

    #[tactic(auto, unfolding(crate::specs::Trees::reads_true))]
    fn write(_alloc: Global, _part: &()) -> Result<Value, Memory> {
        Ok(Value::Bool(true))
    }
}

type Shown = ListOf<OfMultipliers>;

type SourceMembers = (
    Shown,
    (
        Shown,
        (Shown, (Shown, (Any8, (ListOf<OfForm>, (Any16, End))))),
    ),
);

/// A leaf that names a source.
fn read_source(alloc: Global, value: &Json) -> Result<Quast, CertError>
    ensures { Gives tree_of result (reads_made source_fields source_made (json_data value.now)) }
{
    let names = [
        "before",
        "between",
        "cell",
        "domain",
        "level",
        "point",
        "statement",
    ];
    let (before, (between, (cell, (domain, (level, (point, (statement, ()))))))) = read_object::<
        SourceMembers,
    >(alloc, value, &names)?;
    Ok(Quast::Source {
        statement,
        level,
        point,
        domain,
        cell,
        before,
        between,
    })
}

/// A leaf that names a source, by what it claims.
fn write_source(
    alloc: Global,
    statement: &u16,
    level: &u8,
    point: &Vec<Form>,
    domain: &Vec<Multipliers>,
    cell: &Vec<Multipliers>,
    before: &Vec<Multipliers>,
    between: &Vec<Multipliers>,
) -> Result<Value, Memory>
    requires { IsSmallSource (record { statement = statement.now; level = level.now; point = point.now.items; inside = domain.now.items; cell = cell.now.items; before = before.now.items; between = between.now.items }) }
    ensures value { IfOk result (λ value. view value ≡ (object_shape source_fields).data_of (before.now.items, (between.now.items, (cell.now.items, (domain.now.items, (level.now, (point.now.items, (statement.now, tt)))))))) }
    ensures read { IfOk result (λ _. IsReadBack (object_shape source_fields) (before.now.items, (between.now.items, (cell.now.items, (domain.now.items, (level.now, (point.now.items, (statement.now, tt)))))))) }
{
    let names = [
        "before",
        "between",
        "cell",
        "domain",
        "level",
        "point",
        "statement",
    ];
    let rest = put_part::<Any16, _>(statement, End {});
    let rest = put_part::<ListOf<OfForm>, _>(point, rest);
    let rest = put_part::<Any8, _>(level, rest);
    let rest = put_part::<Shown, _>(domain, rest);
    let rest = put_part::<Shown, _>(cell, rest);
    let rest = put_part::<Shown, _>(between, rest);
    let all = put_part::<Shown, _>(before, rest);
    let value = write_object(alloc, &names, &all)?;
    Ok(value)
}

impl Branches for Quast {
    ghost Tree = { SelectionTree };

    ghost branching = { trees_branch };

    ghost tree = { tree_of };

    #[tactic(auto, unfolding(crate::specs::Trees::reads_tree_leaf))]
    fn read_end(alloc: Global, value: &Json) -> Result<Quast, CertError> {
        let names = [
            "before",
            "between",
            "cell",
            "domain",
            "level",
            "point",
            "statement",
        ];
        if has_keys(value, &names) {
            let found = read_source(alloc, value)?;
            return Ok(found);
        }
        if has_keys(value, &["input"]) {
            let (earlier, ()) = read_object::<(Shown, End)>(alloc, value, &["input"])?;
            return Ok(Quast::Input { earlier });
        }
        if has_keys(value, &["empty"]) {
            let (shown, ()) = read_object::<(OfMultipliers, End)>(alloc, value, &["empty"])?;
            return Ok(Quast::Empty { shown });
        }
        let ((), ()) = read_object::<(OfTrue, End)>(alloc, value, &["blank"])?;
        Ok(Quast::Blank)
    }

    fn test(alloc: Global, form: Form, yes: Quast, no: Quast) -> Result<Quast, Memory> {
        Ok(Quast::Test {
            form,
            yes: Box::new(alloc, yes)?,
            no: Box::new(alloc, no)?,
        })
    }
}

/// A tree in which so many tests are nested at most.
fn write_nested(alloc: Global, quast: &Quast, left: u8) -> Result<Value, Memory>
    requires { IsNestedTree left (tree_of quast.now) }
    ensures value { IfOk result (λ value. view value ≡ tree_data (tree_of quast.now)) }
    ensures read { IfOk result (λ _. reads_nested trees_branch left (tree_data (tree_of quast.now)) ≡ Ok (tree_of quast.now)) }
{
    match quast {
        Quast::Test { form, yes, no } => {
            let below = write_nested(alloc, no, left - 1)?;
            let above = write_nested(alloc, yes, left - 1)?;
            let value = write_test(alloc, form, below, above)?;
            Ok(value)
        }
        Quast::Source {
            statement,
            level,
            point,
            domain,
            cell,
            before,
            between,
        } => {
            let value = write_source(
                alloc, statement, level, point, domain, cell, before, between,
            )?;
            Ok(value)
        }
        Quast::Input { earlier } => {
            let all = put_part::<Shown, _>(earlier, End {});
            let value = write_object(alloc, &["input"], &all)?;
            Ok(value)
        }
        Quast::Empty { shown } => {
            let all = put_part::<OfMultipliers, _>(shown, End {});
            let value = write_object(alloc, &["empty"], &all)?;
            Ok(value)
        }
        Quast::Blank => {
            let all = put_part::<OfTrue, _>(&(), End {});
            let value = write_object(alloc, &["blank"], &all)?;
            Ok(value)
        }
    }
}

/// A source tree of at most 16 nested tests, and at most 64 leaves.
pub struct OfTree {}

impl Part for OfTree {
    type Value = Quast;

    ghost Said = { SelectionTree };

    ghost shape = { tree_shape };

    ghost link = { plain_link tree_of };

    ghost Fits = { λ quast. IsSmallTree (tree_of quast) };

    #[tactic(auto, unfolding(crate::specs::Trees::reads_tree))]
    fn read(alloc: Global, value: &Json) -> Result<Quast, CertError> {
        let tree = nested::<Quast>(alloc, value, limits::TREE_TESTS)?;
        if leaf_count(&tree) <= limits::TREE_LEAVES {
            Ok(tree)
        } else {
            Err(fault(alloc, 3))
        }
    }

    #[tactic(auto, using(crate::proofs::ReadTrees::tree_read), unfolding(crate::specs::Trees::reads_tree))]
    fn write(alloc: Global, part: &Quast) -> Result<Value, Memory> {
        let value = write_nested(alloc, part, limits::TREE_TESTS)?;
        Ok(value)
    }
}
