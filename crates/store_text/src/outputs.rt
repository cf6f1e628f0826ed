//! Outputs.

ghost use Rattle.json_parts.specs.Related.{other_link};
ghost use Rattle.store_terms.specs.Claims.{claim_of_output};
ghost use Rattle.store_terms.specs.Limits.{IsSmallOutput};
ghost use Rattle.store_text.specs.Outputs.{WrittenOutput, output_shape};
ghost use Rattle.store_text.specs.Read.{IsOutput, written_output};

use affine_form::Memory;
use certificate_parts::{OfForm, OfInverse, OfMultipliers, OfNest, OfPolynomial};
use domain_count::Sums;
use json_parts::{Any16, CertError, End, ListOf, Part, put, put_list, read_object, write_object};
use json_values::Json;
use serde_json::Value;
use std::alloc::Global;
use store_terms::Output;

/// An output.
pub(crate) struct OfOutput {}

type Shown = ListOf<OfMultipliers>;

type Behind = (
    ListOf<OfForm>,
    (Shown, (Any16, (ListOf<OfPolynomial>, End))),
);

type Members = (Shown, (OfInverse, (Shown, (OfNest, Behind))));

const NAMES: [&str; 8] = [
    "inside",
    "inverse",
    "later",
    "nest",
    "point",
    "shown",
    "statement",
    "sums",
];

impl Part for OfOutput {
    type Value = Output;

    ghost Said = { WrittenOutput };

    ghost shape = { output_shape };

    ghost link = { other_link written_output (λ said output. IsOutput said (claim_of_output output)) };

    ghost Fits = { IsSmallOutput };

    #[tactic(auto, unfolding(crate::specs::Outputs::output_shape))]
    fn read(alloc: Global, value: &Json) -> Result<Output, CertError> {
        let (inside, (inverse, (later, (nest, rest)))) = read_object::<Members>(
            alloc, value, &NAMES,
        )?;
        let (point, (shown, (statement, (sums, ())))) = rest;
        Ok(Output {
            statement,
            nest,
            sums: Sums::new(shown, sums),
            point,
            inside,
            inverse,
            later,
        })
    }

    #[tactic(auto, unfolding(crate::specs::Outputs::output_shape))]
    fn write(alloc: Global, part: &Output) -> Result<Value, Memory> {
        let rest = put_list!(OfPolynomial, part.sums.sums(), End {});
        let rest = put!(Any16, &part.statement, rest);
        let rest = put_list!(OfMultipliers, part.sums.shown(), rest);
        let rest = put!(ListOf<OfForm>, &part.point, rest);
        let rest = put!(OfNest, &part.nest, rest);
        let rest = put!(Shown, &part.later, rest);
        let rest = put!(OfInverse, &part.inverse, rest);
        let all = put!(Shown, &part.inside, rest);
        let value = write_object(alloc, &NAMES, &all)?;
        Ok(value)
    }
}
