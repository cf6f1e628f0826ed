//! Wavefront terms.

ghost use Rattle.iolb_check.specs.Limits.{IsSmallFront};
ghost use Rattle.iolb_cert.specs.FrontTexts.{front_shape};
ghost use Rattle.iolb_cert.specs.Read.{WrittenFront};
ghost use Rattle.iolb_cert.specs.Written.{front_link};

use affine_form::Memory;
use certificate_parts::{OfInverse, OfLeaf, OfMultipliers, OfNest, OfPolynomial, OfReach, OfSpot};
use domain_count::Sums;
use json_parts::{
    Any8, Any16, CertError, End, ListOf, OrNull, Part, put, put_list, read_object, write_object,
};
use json_values::Json;
use serde_json::Value;
use std::alloc::Global;
use wavefront::Wavefront;

/// A wavefront term.
pub(crate) struct OfFront {}

type Shown = ListOf<OfMultipliers>;

type Polynomials = ListOf<OfPolynomial>;

type Way = OrNull<OfReach>;

type Source = OrNull<OfSpot>;

type Last = (Source, (Polynomials, (OfSpot, (OfSpot, End))));

type Behind = (Polynomials, (Way, (Any16, (Shown, Last))));

type Members = (
    OfReach,
    (
        ListOf<OfLeaf>,
        (Shown, (OfInverse, (OfNest, (Any8, Behind)))),
    ),
);

const NAMES: [&str; 14] = [
    "back",
    "edge",
    "inside",
    "inverse",
    "nest",
    "outer",
    "outer_sums",
    "reach",
    "read",
    "shown",
    "source",
    "sums",
    "user",
    "vertex",
];

impl Part for OfFront {
    type Value = Wavefront;

    ghost Said = { WrittenFront };

    ghost shape = { front_shape };

    ghost link = { front_link };

    ghost Fits = { IsSmallFront };

    #[tactic(auto, unfolding(crate::specs::FrontTexts::front_shape))]
    fn read(alloc: Global, value: &Json) -> Result<Wavefront, CertError> {
        let (back, (edge, (inside, (inverse, (nest, (outer, rest)))))) = read_object::<Members>(
            alloc, value, &NAMES,
        )?;
        let (outer_sums, (reach, (read, (shown, (source, rest))))) = rest;
        let (sums, (user, (vertex, ()))) = rest;
        Ok(Wavefront {
            nest,
            outer,
            sums: Sums::new(shown, sums),
            outer_sums,
            vertex,
            user,
            read,
            source,
            inside,
            inverse,
            edge,
            reach,
            back,
        })
    }

    #[tactic(auto, unfolding(crate::specs::FrontTexts::front_shape))]
    fn write(alloc: Global, part: &Wavefront) -> Result<Value, Memory> {
        let rest = put!(OfSpot, &part.vertex, End {});
        let rest = put!(OfSpot, &part.user, rest);
        let rest = put_list!(OfPolynomial, part.sums.sums(), rest);
        let rest = put!(Source, &part.source, rest);
        let rest = put_list!(OfMultipliers, part.sums.shown(), rest);
        let rest = put!(Any16, &part.read, rest);
        let rest = put!(Way, &part.reach, rest);
        let rest = put!(Polynomials, &part.outer_sums, rest);
        let rest = put!(Any8, &part.outer, rest);
        let rest = put!(OfNest, &part.nest, rest);
        let rest = put!(OfInverse, &part.inverse, rest);
        let rest = put!(Shown, &part.inside, rest);
        let rest = put!(ListOf<OfLeaf>, &part.edge, rest);
        let all = put!(OfReach, &part.back, rest);
        let value = write_object(alloc, &NAMES, &all)?;
        Ok(value)
    }
}
