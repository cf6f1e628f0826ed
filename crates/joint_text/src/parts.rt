//! Parts.

ghost use Rattle.joint_partition.specs.Limits.{IsSmallPart};
ghost use Rattle.joint_partition.specs.View.{part_of};
ghost use Rattle.joint_text.specs.Parts.{part_shape, written_part, IsPart, WrittenPart};
ghost use Rattle.json_parts.specs.Related.{other_link};

use affine_form::Memory;
use certificate_parts::{OfForm, OfInverse, OfMultipliers, OfNest, OfPolynomial};
use domain_count::Sums;
use joint_partition::Part as JointPart;
use json_parts::{
    Any16, CertError, End, ListOf, OneToMost, Part, put, put_list, read_object, write_object,
};
use json_values::Json;
use serde_json::Value;
use std::alloc::Global;

/// A part of a joint term.
pub(crate) struct OfPart {}

type Shown = ListOf<OfMultipliers>;

type Image = OneToMost<OfForm, 6>;

type Behind = (OfNest, (Shown, (Any16, (ListOf<OfPolynomial>, End))));

type Members = (Shown, (OfInverse, (Image, Behind)));

const NAMES: [&str; 7] = [
    "inside",
    "inverse",
    "map",
    "nest",
    "shown",
    "statement",
    "sums",
];

impl Part for OfPart {
    type Value = JointPart;

    ghost Said = { WrittenPart };

    ghost shape = { part_shape };

    ghost link = { other_link written_part (λ said part. IsPart said (part_of part)) };

    ghost Fits = { IsSmallPart };

    #[tactic(auto, unfolding(crate::specs::Parts::part_shape))]
    fn read(alloc: Global, value: &Json) -> Result<JointPart, CertError> {
        let (inside, (inverse, (image, (nest, rest)))) = read_object::<Members>(
            alloc, value, &NAMES,
        )?;
        let (shown, (statement, (sums, ()))) = rest;
        Ok(JointPart {
            statement,
            nest,
            sums: Sums::new(shown, sums),
            inside,
            image,
            inverse,
        })
    }

    #[tactic(auto, unfolding(crate::specs::Parts::part_shape))]
    fn write(alloc: Global, part: &JointPart) -> Result<Value, Memory> {
        let rest = put_list!(OfPolynomial, part.sums.sums(), End {});
        let rest = put!(Any16, &part.statement, rest);
        let rest = put_list!(OfMultipliers, part.sums.shown(), rest);
        let rest = put!(OfNest, &part.nest, rest);
        let rest = put!(Image, &part.image, rest);
        let rest = put!(OfInverse, &part.inverse, rest);
        let all = put!(Shown, &part.inside, rest);
        let value = write_object(alloc, &NAMES, &all)?;
        Ok(value)
    }
}
