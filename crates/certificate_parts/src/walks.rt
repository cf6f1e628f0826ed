//! Walks.

ghost use Rattle.std.specs.Prelude.{◌≡◌, Ok, IfOk};
ghost use Rattle.certificate_fit.specs.Limits.{IsNestedWalk, IsSmallWalk};
ghost use Rattle.reuse_paths.specs.Walks.{WalkTree, tree_of_walk};
ghost use Rattle.serde_json.specs.View.{view};
ghost use Rattle.json_parts.specs.Related.{plain_link};
ghost use Rattle.certificate_parts.specs.Nested.{reads_nested};
ghost use Rattle.certificate_parts.specs.Walks.{walks_branch, walk_data, walk_shape};

use crate::leaves::OfLeaf;
use crate::nested::{Branches, nested, write_test};
use affine_form::{Form, Memory};
use iolb_model::limits;
use json_parts::{Any16, CertError, End, ListOf, Part, fault, put_part, read_object, write_object};
use json_values::Json;
use reuse_paths::{Walk, entry_count};
use serde_json::Value;
use std::alloc::Global;

type Leaves = ListOf<OfLeaf>;

impl Branches for Walk {
    ghost Tree = { WalkTree };

    ghost branching = { walks_branch };

    ghost tree = { tree_of_walk };

    #[tactic(auto, unfolding(crate::specs::Walks::reads_take))]
    fn read_end(alloc: Global, value: &Json) -> Result<Walk, CertError> {
        let (leaves, (read, ())) = read_object::<(Leaves, (Any16, End))>(
            alloc,
            value,
            &["leaves", "read"],
        )?;
        Ok(Walk::Take { read, leaves })
    }

    fn test(alloc: Global, form: Form, yes: Walk, no: Walk) -> Result<Walk, Memory> {
        Ok(Walk::Test {
            form,
            yes: Box::new(alloc, yes)?,
            no: Box::new(alloc, no)?,
        })
    }
}

/// A walk in which so many tests are nested at most.
fn write_nested(alloc: Global, walk: &Walk, left: u8) -> Result<Value, Memory>
    requires { IsNestedWalk left (tree_of_walk walk.now) }
    ensures value { IfOk result (λ value. view value ≡ walk_data (tree_of_walk walk.now)) }
    ensures read { IfOk result (λ _. reads_nested walks_branch left (walk_data (tree_of_walk walk.now)) ≡ Ok (tree_of_walk walk.now)) }
{
    match walk {
        Walk::Test { form, yes, no } => {
            let below = write_nested(alloc, no, left - 1)?;
            let above = write_nested(alloc, yes, left - 1)?;
            let value = write_test(alloc, form, below, above)?;
            Ok(value)
        }
        Walk::Take { read, leaves } => {
            let rest = put_part::<Any16, _>(read, End {});
            let all = put_part::<Leaves, _>(leaves, rest);
            let value = write_object(alloc, &["leaves", "read"], &all)?;
            Ok(value)
        }
    }
}

/// A walk of at most 16 nested tests, and at most 64 claims at leaves.
pub struct OfWalk {}

impl Part for OfWalk {
    type Value = Walk;

    ghost Said = { WalkTree };

    ghost shape = { walk_shape };

    ghost link = { plain_link tree_of_walk };

    ghost Fits = { λ walk. IsSmallWalk (tree_of_walk walk) };

    #[tactic(auto, unfolding(crate::specs::Walks::reads_walk))]
    fn read(alloc: Global, value: &Json) -> Result<Walk, CertError> {
        let walk = nested::<Walk>(alloc, value, limits::TREE_TESTS)?;
        if entry_count(&walk) <= usize::from(limits::TREE_LEAVES) {
            Ok(walk)
        } else {
            Err(fault(alloc, 3))
        }
    }

    #[tactic(auto, using(crate::proofs::ReadTrees::walk_read), unfolding(crate::specs::Walks::reads_walk))]
    fn write(alloc: Global, part: &Walk) -> Result<Value, Memory> {
        let value = write_nested(alloc, part, limits::TREE_TESTS)?;
        Ok(value)
    }
}
