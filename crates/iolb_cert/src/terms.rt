//! Terms and branches.

ghost use Rattle.iolb_check.specs.Limits.{IsSmallTerm, IsSmallBranch};
ghost use Rattle.iolb_cert.specs.Read.{WrittenTerm, WrittenBranch};
ghost use Rattle.iolb_cert.specs.Terms.{term_shape, branch_shape};
ghost use Rattle.iolb_cert.specs.Written.{term_link, branch_link};

use crate::cold::OfCold;
use crate::front::OfFront;
use crate::partition::OfPartition;
use affine_form::Memory;
use certificate_parts::OfMultipliers;
use iolb_check::{Branch, Term};
use joint_text::OfJoint;
use json_parts::{
    CertError, End, Few, ListOf, Part, fault, has_keys, put, read_object, write_object,
};
use json_values::Json;
use serde_json::Value;
use std::alloc::Global;

/// A term, told by its key.
pub(crate) struct OfTerm {}

impl Part for OfTerm {
    type Value = Term;

    ghost Said = { WrittenTerm };

    ghost shape = { term_shape };

    ghost link = { term_link };

    ghost Fits = { IsSmallTerm };

    #[tactic(auto, unfolding(crate::specs::Terms::reads_term))]
    fn read(alloc: Global, value: &Json) -> Result<Term, CertError> {
        if has_keys(value, &["cold"]) {
            let (cold, ()) = read_object::<(OfCold, End)>(alloc, value, &["cold"])?;
            return Ok(Term::Cold(cold));
        }
        if has_keys(value, &["partition"]) {
            let (partition, ()) = read_object::<(OfPartition, End)>(alloc, value, &["partition"])?;
            return Ok(Term::Partition(partition));
        }
        if has_keys(value, &["wavefront"]) {
            let (front, ()) = read_object::<(OfFront, End)>(alloc, value, &["wavefront"])?;
            return Ok(Term::Wavefront(front));
        }
        if has_keys(value, &["joint"]) {
            let (joint, ()) = read_object::<(OfJoint, End)>(alloc, value, &["joint"])?;
            return Ok(Term::Joint(joint));
        }
        Err(fault(alloc, 2))
    }

    #[tactic(auto, unfolding(crate::specs::Terms::reads_term))]
    fn write(alloc: Global, part: &Term) -> Result<Value, Memory> {
        match part {
            Term::Cold(cold) => {
                let all = put!(OfCold, cold, End {});
                let value = write_object(alloc, &["cold"], &all)?;
                Ok(value)
            }
            Term::Partition(partition) => {
                let all = put!(OfPartition, partition, End {});
                let value = write_object(alloc, &["partition"], &all)?;
                Ok(value)
            }
            Term::Wavefront(front) => {
                let all = put!(OfFront, front, End {});
                let value = write_object(alloc, &["wavefront"], &all)?;
                Ok(value)
            }
            Term::Joint(joint) => {
                let all = put!(OfJoint, joint, End {});
                let value = write_object(alloc, &["joint"], &all)?;
                Ok(value)
            }
        }
    }
}

/// A branch: at most 32 terms.
pub(crate) struct OfBranch {}

type Shown = ListOf<OfMultipliers>;

type Terms = Few<OfTerm, 32>;

impl Part for OfBranch {
    type Value = Branch;

    ghost Said = { WrittenBranch };

    ghost shape = { branch_shape };

    ghost link = { branch_link };

    ghost Fits = { IsSmallBranch };

    #[tactic(auto, unfolding(crate::specs::Terms::branch_shape))]
    fn read(alloc: Global, value: &Json) -> Result<Branch, CertError> {
        let (disjoint, (terms, ())) = read_object::<(Shown, (Terms, End))>(
            alloc,
            value,
            &["disjoint", "terms"],
        )?;
        Ok(Branch { terms, disjoint })
    }

    #[tactic(auto, using(json_parts::proofs::Back::made_read), unfolding(crate::specs::Terms::branch_shape))]
    fn write(alloc: Global, part: &Branch) -> Result<Value, Memory> {
        let rest = put!(Terms, &part.terms, End {});
        let all = put!(Shown, &part.disjoint, rest);
        let value = write_object(alloc, &["disjoint", "terms"], &all)?;
        Ok(value)
    }
}
