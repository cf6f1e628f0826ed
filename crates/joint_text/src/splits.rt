//! Splits.

ghost use Rattle.std.specs.Prelude.{◌≡◌, Ok, IfOk};
ghost use Rattle.certificate_parts.specs.Nested.{reads_nested};
ghost use Rattle.joint_partition.specs.Limits.{IsNestedSplit, IsSmallSplit};
ghost use Rattle.joint_partition.specs.Splits.{SplitTree};
ghost use Rattle.joint_partition.specs.View.{split_of};
ghost use Rattle.joint_text.specs.Splits.{split_data, split_shape, splits_branch};
ghost use Rattle.json_parts.specs.Related.{plain_link};
ghost use Rattle.serde_json.specs.View.{view};

use affine_form::{Form, Memory};
use certificate_parts::OfMultipliers;
use certificate_parts::nested::{Branches, nested, write_test};
use iolb_model::limits;
use joint_partition::Split;
use joint_partition::small::end_count;
use json_parts::{CertError, End, Part, fault, put_part, read_object, write_object};
use json_values::Json;
use serde_json::Value;
use std::alloc::Global;

/// A split that was read.
#[derive(Drop)]
struct ReadSplit {
    split: Split,
}

impl Branches for ReadSplit {
    ghost Tree = { SplitTree };

    ghost branching = { splits_branch };

    ghost tree = { λ read. split_of read.split };

    #[tactic(auto, unfolding(crate::specs::Splits::reads_end))]
    fn read_end(alloc: Global, value: &Json) -> Result<ReadSplit, CertError> {
        let (shown, ()) = read_object::<(OfMultipliers, End)>(alloc, value, &["empty"])?;
        let split = Split::Empty { shown };
        Ok(ReadSplit { split })
    }

    fn test(alloc: Global, form: Form, yes: ReadSplit, no: ReadSplit) -> Result<ReadSplit, Memory> {
        let split = Split::Test {
            form,
            yes: Box::new(alloc, yes.split)?,
            no: Box::new(alloc, no.split)?,
        };
        Ok(ReadSplit { split })
    }
}

/// A split in which so many tests are nested at most.
fn write_nested(alloc: Global, split: &Split, left: u8) -> Result<Value, Memory>
    requires { IsNestedSplit left (split_of split.now) }
    ensures value { IfOk result (λ value. view value ≡ split_data (split_of split.now)) }
    ensures read { IfOk result (λ _. reads_nested splits_branch left (split_data (split_of split.now)) ≡ Ok (split_of split.now)) }
{
    match split {
        Split::Test { form, yes, no } => {
            let below = write_nested(alloc, no, left - 1)?;
            let above = write_nested(alloc, yes, left - 1)?;
            let value = write_test(alloc, form, below, above)?;
            Ok(value)
        }
        Split::Empty { shown } => {
            let all = put_part::<OfMultipliers, _>(shown, End {});
            let value = write_object(alloc, &["empty"], &all)?;
            Ok(value)
        }
    }
}

/// A split of at most 16 nested tests and at most 64 ends.
pub(crate) struct OfSplit {}

impl Part for OfSplit {
    type Value = Split;

    ghost Said = { SplitTree };

    ghost shape = { split_shape };

    ghost link = { plain_link split_of };

    ghost Fits = { λ split. IsSmallSplit (split_of split) };

    #[tactic(auto, unfolding(crate::specs::Splits::reads_split))]
    fn read(alloc: Global, value: &Json) -> Result<Split, CertError> {
        let split = nested::<ReadSplit>(alloc, value, limits::TREE_TESTS)?.split;
        if end_count(&split) <= usize::from(limits::TREE_LEAVES) {
            Ok(split)
        } else {
            Err(fault(alloc, 3))
        }
    }

    #[tactic(auto, using(crate::proofs::ReadBack::split_read), unfolding(crate::specs::Splits::reads_split))]
    fn write(alloc: Global, part: &Split) -> Result<Value, Memory> {
        let value = write_nested(alloc, part, limits::TREE_TESTS)?;
        Ok(value)
    }
}
