//! Partition terms.

ghost use Rattle.iolb_check.specs.Limits.{IsSmallPartition};
ghost use Rattle.json_parts.specs.Related.{same_link};
ghost use Rattle.k_partition.specs.declared.term.Shape.{Shape as TermShape};
ghost use Rattle.iolb_cert.specs.PartitionTexts.{name_shape, members_shape, partition_shape};
ghost use Rattle.iolb_cert.specs.Read.{WrittenPartition};
ghost use Rattle.iolb_cert.specs.Written.{partition_link};

use affine_form::Memory;
use certificate_parts::{OfCredit, OfFamilies, OfMatrix, OfMultipliers, OfNest, OfPolynomial};
use claims::{ObjectKey, Step};
use domain_count::Sums;
use json_parts::{
    Any16, CertError, End, Few, ListOf, Number8, Number32, Part, fault, put, put_list, read_object,
    under, write_object,
};
use json_values::Json;
use k_partition::{Partition, Shape};
use serde_json::Value;
use std::alloc::Global;

/// A shape, by its name.
struct OfShape {}

impl Part for OfShape {
    type Value = Shape;

    ghost Said = { TermShape };

    ghost shape = { name_shape };

    ghost link = { same_link };

    ghost Fits = { λ _. Unit {0} };

    #[tactic(auto, unfolding(crate::specs::PartitionTexts::reads_shape))]
    fn read(alloc: Global, value: &Json) -> Result<Shape, CertError> {
        let Some(name) = value.as_str() else {
            return Err(fault(alloc, 2));
        };
        if name == "each" {
            return Ok(Shape::Each);
        }
        if name == "sum" {
            return Ok(Shape::Sum);
        }
        Err(fault(alloc, 2))
    }

    #[tactic(auto, using(crate::proofs::ReadTerms::shape_read))]
    fn write(alloc: Global, part: &Shape) -> Result<Value, Memory> {
        match part {
            Shape::Each => Ok(Value::try_from_str(alloc, "each")?),
            Shape::Sum => Ok(Value::try_from_str(alloc, "sum")?),
        }
    }
}

/// The members of a partition term.
struct OfMembers {}

type Shown = ListOf<OfMultipliers>;

type Credits = Few<OfCredit, 4>;

type Stretch = Number8<0, 64>;

type StretchMore = Number32<0, 1048576>;

type Times = Number8<1, 12>;

type Cover = (
    Times,
    (OfShape, (Shown, (Any16, (ListOf<OfPolynomial>, End)))),
);

type Behind = (OfMatrix, (OfMatrix, (OfNest, Cover)));

type Members = (
    Stretch,
    (
        Shown,
        (StretchMore, (Credits, (OfFamilies, (Shown, Behind)))),
    ),
);

const NAMES: [&str; 14] = [
    "a",
    "apart",
    "b",
    "credits",
    "families",
    "inside",
    "inverse",
    "matrix",
    "nest",
    "q",
    "shape",
    "shown",
    "statement",
    "sums",
];

impl Part for OfMembers {
    type Value = Partition;

    ghost Said = { WrittenPartition };

    ghost shape = { members_shape };

    ghost link = { partition_link };

    ghost Fits = { IsSmallPartition };

    #[tactic(auto, unfolding(crate::specs::PartitionTexts::members_shape))]
    fn read(alloc: Global, value: &Json) -> Result<Partition, CertError> {
        let (a, (apart, (b, (credits, (families, (inside, rest)))))) = read_object::<Members>(
            alloc, value, &NAMES,
        )?;
        let (inverse, (matrix, (nest, (q, (shape, rest))))) = rest;
        let (shown, (statement, (sums, ()))) = rest;
        Ok(Partition {
            statement,
            nest,
            sums: Sums::new(shown, sums),
            inside,
            matrix,
            inverse,
            q,
            shape,
            a,
            b,
            credits,
            families,
            apart,
        })
    }

    #[tactic(auto, unfolding(crate::specs::PartitionTexts::members_shape))]
    fn write(alloc: Global, part: &Partition) -> Result<Value, Memory> {
        let rest = put_list!(OfPolynomial, part.sums.sums(), End {});
        let rest = put!(Any16, &part.statement, rest);
        let rest = put_list!(OfMultipliers, part.sums.shown(), rest);
        let rest = put!(OfShape, &part.shape, rest);
        let rest = put!(Times, &part.q, rest);
        let rest = put!(OfNest, &part.nest, rest);
        let rest = put!(OfMatrix, &part.matrix, rest);
        let rest = put!(OfMatrix, &part.inverse, rest);
        let rest = put!(Shown, &part.inside, rest);
        let rest = put!(OfFamilies, &part.families, rest);
        let rest = put!(Credits, &part.credits, rest);
        let rest = put!(StretchMore, &part.b, rest);
        let rest = put!(Shown, &part.apart, rest);
        let all = put!(Stretch, &part.a, rest);
        let value = write_object(alloc, &NAMES, &all)?;
        Ok(value)
    }
}

/// A partition term, whose stretches have events.
pub(crate) struct OfPartition {}

impl Part for OfPartition {
    type Value = Partition;

    ghost Said = { WrittenPartition };

    ghost shape = { partition_shape };

    ghost link = { partition_link };

    ghost Fits = { IsSmallPartition };

    #[tactic(auto, unfolding(crate::specs::PartitionTexts::partition_shape))]
    fn read(alloc: Global, value: &Json) -> Result<Partition, CertError> {
        let found = OfMembers::read(alloc, value)?;
        if u64::from(found.a) + u64::from(found.b) >= 1 {
            Ok(found)
        } else {
            Err(under(alloc, Step::Key(ObjectKey("a")), fault(alloc, 3)))
        }
    }

    #[tactic(auto, using(crate::proofs::ReadTerms::partition_read), unfolding(crate::specs::PartitionTexts::partition_shape))]
    fn write(alloc: Global, part: &Partition) -> Result<Value, Memory> {
        let value = OfMembers::write(alloc, part)?;
        Ok(value)
    }
}
