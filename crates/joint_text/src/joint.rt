//! Joint terms.

ghost use Rattle.joint_partition.specs.Limits.{IsSmallJoint};
ghost use Rattle.joint_text.specs.Joint.{joint_link, joint_shape, members_shape, WrittenJoint};

use crate::families::OfFamilies;
use crate::parts::OfPart;
use crate::splits::OfSplit;
use affine_form::Memory;
use certificate_parts::{OfCredit, OfMultipliers};
use claims::{ObjectKey, Step};
use joint_partition::Joint;
use json_parts::{
    CertError, End, Few, ListOf, Number8, Number32, OneToMost, Part, fault, put, read_object,
    under, write_object,
};
use json_values::Json;
use serde_json::Value;
use std::alloc::Global;

/// The members of a joint term.
struct OfMembers {}

type Stretch = Number8<0, 64>;

type StretchMore = Number32<0, 1048576>;

type Shown = ListOf<OfMultipliers>;

type Credits = Few<OfCredit, 8>;

type Parts = OneToMost<OfPart, 4>;

type Times = Number8<1, 12>;

type Behind = (ListOf<OfSplit>, (OfFamilies, (Parts, (Times, End))));

type Members = (Stretch, (Shown, (StretchMore, (Credits, Behind))));

const NAMES: [&str; 8] = [
    "a", "apart", "b", "credits", "distinct", "families", "parts", "q",
];

impl Part for OfMembers {
    type Value = Joint;

    ghost Said = { WrittenJoint };

    ghost shape = { members_shape };

    ghost link = { joint_link };

    ghost Fits = { IsSmallJoint };

    #[tactic(auto, unfolding(crate::specs::Joint::members_shape))]
    fn read(alloc: Global, value: &Json) -> Result<Joint, CertError> {
        let (a, (apart, (b, (credits, rest)))) = read_object::<Members>(alloc, value, &NAMES)?;
        let (distinct, (families, (parts, (q, ())))) = rest;
        Ok(Joint {
            parts,
            distinct,
            q,
            a,
            b,
            credits,
            families,
            apart,
        })
    }

    #[tactic(auto, unfolding(crate::specs::Joint::members_shape))]
    fn write(alloc: Global, part: &Joint) -> Result<Value, Memory> {
        let rest = put!(Times, &part.q, End {});
        let rest = put!(Parts, &part.parts, rest);
        let rest = put!(OfFamilies, &part.families, rest);
        let rest = put!(ListOf<OfSplit>, &part.distinct, rest);
        let rest = put!(Credits, &part.credits, rest);
        let rest = put!(StretchMore, &part.b, rest);
        let rest = put!(Shown, &part.apart, rest);
        let all = put!(Stretch, &part.a, rest);
        let value = write_object(alloc, &NAMES, &all)?;
        Ok(value)
    }
}

/// A joint term, whose stretches have events.
pub struct OfJoint {}

impl Part for OfJoint {
    type Value = Joint;

    ghost Said = { WrittenJoint };

    ghost shape = { joint_shape };

    ghost link = { joint_link };

    ghost Fits = { IsSmallJoint };

    #[tactic(auto, unfolding(crate::specs::Joint::joint_shape))]
    fn read(alloc: Global, value: &Json) -> Result<Joint, CertError> {
        let found = OfMembers::read(alloc, value)?;
        if u64::from(found.a) + u64::from(found.b) >= 1 {
            Ok(found)
        } else {
            Err(under(alloc, Step::Key(ObjectKey("a")), fault(alloc, 3)))
        }
    }

    #[tactic(auto, using(crate::proofs::ReadBack::joint_read), unfolding(crate::specs::Joint::joint_shape))]
    fn write(alloc: Global, part: &Joint) -> Result<Value, Memory> {
        let value = OfMembers::write(alloc, part)?;
        Ok(value)
    }
}
