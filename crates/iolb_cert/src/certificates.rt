//! Source trees and certificates.

ghost use Rattle.std.specs.Prelude.{List, map};
ghost use Rattle.std.specs.List.{AllByRecursion};
ghost use Rattle.certificate_fit.specs.Limits.{IsSmallTree};
ghost use Rattle.dep_quast.specs.Tree.{SelectionTree, tree_of};
ghost use Rattle.dep_quast.specs.Quasts.{trees_of};
ghost use Rattle.json_parts.specs.Related.{plain_link};
ghost use Rattle.iolb_cert.specs.Certificates.{certificate_shape};
ghost use Rattle.iolb_cert.specs.Read.{WrittenCertificate};
ghost use Rattle.certificate_parts.specs.Trees.{all_trees_shape};
ghost use Rattle.iolb_cert.specs.Written.{certificate_link};

use crate::terms::OfBranch;
use affine_form::Memory;
use certificate_parts::OfTree;
use iolb_check::Certificate;
use json_parts::{
    CertError, End, Exactly, Few, ListOf, Part, PutFew, put, read_object, write_list, write_object,
};
use json_values::Json;
use reuse_paths::Quasts;
use serde_json::Value;
use std::alloc::Global;
use std::marker::PhantomData;

/// The source trees of all statements' reads.
struct OfTrees {}

impl Part for OfTrees {
    type Value = Quasts;

    ghost Said = { List (List SelectionTree) };

    ghost shape = { all_trees_shape };

    ghost link = { plain_link trees_of };

    ghost Fits = { λ quasts. AllByRecursion (λ row. AllByRecursion (λ quast. IsSmallTree (tree_of quast)) row.items) quasts.rows.items };

    fn read(alloc: Global, value: &Json) -> Result<Quasts, CertError> {
        let rows = ListOf::<ListOf<OfTree>>::read(alloc, value)?;
        Ok(Quasts::new(rows))
    }

    fn write(alloc: Global, part: &Quasts) -> Result<Value, Memory> {
        let value = write_list::<ListOf<OfTree>>(alloc, part.rows())?;
        Ok(value)
    }
}

/// A certificate: at most 8 branches, the source trees, and the version.
pub(crate) struct OfCertificate {}

type Version = Exactly<1>;

type Members = (Few<OfBranch, 8>, (OfTrees, (Version, End)));

impl Part for OfCertificate {
    type Value = Certificate;

    ghost Said = { WrittenCertificate };

    ghost shape = { certificate_shape };

    ghost link = { certificate_link };

    ghost Fits = { λ _. Unit {0} };

    #[tactic(auto, unfolding(crate::specs::Certificates::certificate_shape))]
    fn read(alloc: Global, value: &Json) -> Result<Certificate, CertError> {
        let names = ["branches", "quasts", "version"];
        let (branches, (quasts, ((), ()))) = read_object::<Members>(alloc, value, &names)?;
        // Each limit was looked at where the text was read.
        Ok(Certificate::within(quasts, branches))
    }

    #[tactic(auto, using(json_parts::proofs::Back::made_read), unfolding(crate::specs::Certificates::certificate_shape))]
    fn write(alloc: Global, part: &Certificate) -> Result<Value, Memory> {
        let names = ["branches", "quasts", "version"];
        let rest = put!(Version, &(), End {});
        let rest = put!(OfTrees, part.quasts(), rest);
        let branches = part.branches();
        let all = PutFew::<'_, OfBranch, _, _, 8> {
            values: branches,
            rest,
            of: PhantomData,
        };
        let value = write_object(alloc, &names, &all)?;
        Ok(value)
    }
}
