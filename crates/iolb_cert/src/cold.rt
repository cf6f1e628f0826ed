//! Cold terms.

ghost use Rattle.iolb_check.specs.Limits.{IsSmallCold};
ghost use Rattle.iolb_cert.specs.ColdTexts.{cold_shape};
ghost use Rattle.iolb_cert.specs.Read.{WrittenCold};
ghost use Rattle.iolb_cert.specs.Written.{cold_link};

use affine_form::Memory;
use certificate_parts::{OfForm, OfInverse, OfLeaf, OfMultipliers, OfNest, OfPolynomial};
use domain_count::Sums;
use json_parts::{Any16, CertError, End, ListOf, Part, put, put_list, read_object, write_object};
use json_values::Json;
use serde_json::Value;
use std::alloc::Global;
use wavefront::Cold;

/// A cold term.
pub(crate) struct OfCold {}

type Shown = ListOf<OfMultipliers>;

type Members = (
    Shown,
    (
        OfInverse,
        (
            ListOf<OfLeaf>,
            (
                OfNest,
                (
                    ListOf<OfForm>,
                    (Any16, (Shown, (Any16, (ListOf<OfPolynomial>, End)))),
                ),
            ),
        ),
    ),
);

const NAMES: [&str; 9] = [
    "inside",
    "inverse",
    "leaves",
    "nest",
    "point",
    "read",
    "shown",
    "statement",
    "sums",
];

impl Part for OfCold {
    type Value = Cold;

    ghost Said = { WrittenCold };

    ghost shape = { cold_shape };

    ghost link = { cold_link };

    ghost Fits = { IsSmallCold };

    #[tactic(auto, unfolding(crate::specs::ColdTexts::cold_shape))]
    fn read(alloc: Global, value: &Json) -> Result<Cold, CertError> {
        let (inside, (inverse, (leaves, (nest, (point, rest))))) = read_object::<Members>(
            alloc, value, &NAMES,
        )?;
        let (read, (shown, (statement, (sums, ())))) = rest;
        Ok(Cold {
            statement,
            read,
            nest,
            sums: Sums::new(shown, sums),
            point,
            inside,
            inverse,
            leaves,
        })
    }

    #[tactic(auto, unfolding(crate::specs::ColdTexts::cold_shape))]
    fn write(alloc: Global, part: &Cold) -> Result<Value, Memory> {
        let rest = put_list!(OfPolynomial, part.sums.sums(), End {});
        let rest = put!(Any16, &part.statement, rest);
        let rest = put_list!(OfMultipliers, part.sums.shown(), rest);
        let rest = put!(Any16, &part.read, rest);
        let rest = put!(ListOf<OfForm>, &part.point, rest);
        let rest = put!(OfNest, &part.nest, rest);
        let rest = put!(ListOf<OfLeaf>, &part.leaves, rest);
        let rest = put!(OfInverse, &part.inverse, rest);
        let all = put!(Shown, &part.inside, rest);
        let value = write_object(alloc, &NAMES, &all)?;
        Ok(value)
    }
}
