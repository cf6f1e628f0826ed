//! Claims at the leaves of source trees.

ghost use Rattle.certificate_fit.specs.Limits.{IsSmallEntry};
ghost use Rattle.reuse_paths.specs.LeafClaims.{LeafClaim, claim_of};
ghost use Rattle.json_parts.specs.Related.{plain_link};
ghost use Rattle.certificate_parts.specs.Leaves.{leaf_shape};

use crate::multipliers::OfMultipliers;
use affine_form::Memory;
use json_parts::{
    Any8, CertError, End, ListOf, Part, has_keys, put_part, read_object, write_object,
};
use json_values::Json;
use reuse_paths::Leaf;
use serde_json::Value;
use std::alloc::Global;

/// A claim at a leaf, told by its keys.
pub struct OfLeaf {}

type Shown = ListOf<OfMultipliers>;

impl Part for OfLeaf {
    type Value = Leaf;

    ghost Said = { LeafClaim };

    ghost shape = { leaf_shape };

    ghost link = { plain_link claim_of };

    ghost Fits = { λ leaf. IsSmallEntry (claim_of leaf) };

    #[tactic(auto, unfolding(crate::specs::Leaves::reads_leaf))]
    fn read(alloc: Global, value: &Json) -> Result<Leaf, CertError> {
        if has_keys(value, &["empty"]) {
            let (shown, ()) = read_object::<(OfMultipliers, End)>(alloc, value, &["empty"])?;
            return Ok(Leaf::Empty(shown));
        }
        if has_keys(value, &["stop"]) {
            let (label, ()) = read_object::<(Shown, End)>(alloc, value, &["stop"])?;
            return Ok(Leaf::Stop { label });
        }
        let names = ["credit", "label", "rows"];
        if has_keys(value, &names) {
            let (credit, (label, (rows, ()))) = read_object::<(Any8, (Shown, (Shown, End)))>(
                alloc, value, &names,
            )?;
            return Ok(Leaf::Credit {
                credit,
                rows,
                label,
            });
        }
        let names = ["label", "rows"];
        if has_keys(value, &names) {
            let (label, (rows, ())) = read_object::<(Shown, (Shown, End))>(alloc, value, &names)?;
            return Ok(Leaf::Go { rows, label });
        }
        let (equal, ()) = read_object::<(Shown, End)>(alloc, value, &["arrive"])?;
        Ok(Leaf::Arrive { equal })
    }

    #[tactic(auto, unfolding(crate::specs::Leaves::reads_leaf, json_parts::specs::Json::has_keys))]
    fn write(alloc: Global, part: &Leaf) -> Result<Value, Memory> {
        match part {
            Leaf::Empty(shown) => {
                let all = put_part::<OfMultipliers, _>(shown, End {});
                let value = write_object(alloc, &["empty"], &all)?;
                Ok(value)
            }
            Leaf::Stop { label } => {
                let all = put_part::<Shown, _>(label, End {});
                let value = write_object(alloc, &["stop"], &all)?;
                Ok(value)
            }
            Leaf::Credit {
                credit,
                rows,
                label,
            } => {
                let rest = put_part::<Shown, _>(rows, End {});
                let rest = put_part::<Shown, _>(label, rest);
                let all = put_part::<Any8, _>(credit, rest);
                let value = write_object(alloc, &["credit", "label", "rows"], &all)?;
                Ok(value)
            }
            Leaf::Go { rows, label } => {
                let rest = put_part::<Shown, _>(rows, End {});
                let all = put_part::<Shown, _>(label, rest);
                let value = write_object(alloc, &["label", "rows"], &all)?;
                Ok(value)
            }
            Leaf::Arrive { equal } => {
                let all = put_part::<Shown, _>(equal, End {});
                let value = write_object(alloc, &["arrive"], &all)?;
                Ok(value)
            }
        }
    }
}
