//! Credited nests.

ghost use Rattle.std.specs.List.{AllByRecursion};
ghost use Rattle.certificate_fit.specs.Limits.{NameRows, IsSmallPolynomial};
ghost use Rattle.json_parts.specs.Related.{other_link};
ghost use Rattle.certificate_parts.specs.Credits.{WrittenCredit, credit_shape, IsCredit, written_credit};
ghost use Rattle.certificate_parts.specs.Nests.{IsSmallNest};

use crate::multipliers::OfMultipliers;
use crate::nests::OfNest;
use crate::polynomials::OfPolynomial;
use affine_form::Memory;
use domain_count::Sums;
use json_parts::{
    Any16, CertError, End, ListOf, Part, put_list, put_part, read_object, write_object,
};
use json_values::Json;
use reuse_paths::Credit;
use serde_json::Value;
use std::alloc::Global;

/// A credited nest, and what is claimed of how many points it has.
pub struct OfCredit {}

type Members = (
    OfNest,
    (ListOf<OfMultipliers>, (Any16, (ListOf<OfPolynomial>, End))),
);

impl Part for OfCredit {
    type Value = Credit;

    ghost Said = { WrittenCredit };

    ghost shape = { credit_shape };

    ghost link = { other_link written_credit IsCredit };

    ghost Fits = { λ credit. IsSmallNest credit.nest × NameRows credit.sums.shown × AllByRecursion IsSmallPolynomial credit.sums.sums };

    #[tactic(auto, unfolding(crate::specs::Credits::credit_shape))]
    fn read(alloc: Global, value: &Json) -> Result<Credit, CertError> {
        let names = ["nest", "shown", "statement", "sums"];
        let (nest, (shown, (statement, (sums, ())))) = read_object::<Members>(
            alloc, value, &names,
        )?;
        Ok(Credit {
            statement,
            nest,
            sums: Sums::new(shown, sums),
        })
    }

    #[tactic(auto, using(crate::proofs::ReadRecords::credit_read), unfolding(crate::specs::Credits::credit_shape))]
    fn write(alloc: Global, part: &Credit) -> Result<Value, Memory> {
        let names = ["nest", "shown", "statement", "sums"];
        let rest = put_list::<OfPolynomial, _>(part.sums.sums(), End {});
        let rest = put_part::<Any16, _>(&part.statement, rest);
        let rest = put_list::<OfMultipliers, _>(part.sums.shown(), rest);
        let all = put_part::<OfNest, _>(&part.nest, rest);
        let value = write_object(alloc, &names, &all)?;
        Ok(value)
    }
}
