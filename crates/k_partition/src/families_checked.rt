//! The check of a partition term's families.

ghost use Rattle.std.specs.Prelude.{map, IfErr, OnOk};
ghost use Rattle.std.specs.List.{AllByRecursion};
ghost use Rattle.affine_program.specs.Parts.{meaning};
ghost use Rattle.claims.specs.Claims.{AllHold, IsRefusal, numbered};
ghost use Rattle.k_partition.specs.PartitionClaims.{family_claims_at};
ghost use Rattle.k_partition.specs.Term.{credited_nests};
ghost use Rattle.k_partition.specs.View.{partition_of};
ghost use Rattle.reuse_paths.specs.FamilyFits.{FamilyFits};
ghost use Rattle.dep_quast.specs.Quasts.{trees_of};
ghost use Rattle.dep_quast.specs.Trees.{RowsAreTrue, RowsFit};

use crate::term::Partition;
use affine_program::Program;
use claims::{ObjectKey, Place, Refused, Step};
use reuse_paths::{Quasts, check_family};
use std::alloc::Global;

/// Whether what the families claim is shown, family by family.
pub(crate) fn families_checked(
    alloc: Global,
    program: &Program,
    quasts: &Quasts,
    term: &Partition,
    place: &Place,
) -> Result<(), Refused>
    requires trees_fit { RowsFit (meaning program.now) 0 (trees_of quasts.now) }
    requires trees_true { RowsAreTrue (meaning program.now) 0 (trees_of quasts.now) }
    requires fits { AllByRecursion (FamilyFits (meaning program.now) (trees_of quasts.now) term.now.statement term.now.nest term.now.matrix (credited_nests (partition_of term.now))) (partition_of term.now).families }
    ensures holds { OnOk result (AllHold (numbered (family_claims_at (meaning program.now) (trees_of quasts.now) place.now (partition_of term.now)) 0 (partition_of term.now).families)) }
    ensures refused { IfErr result (λ refused. IsRefusal (numbered (family_claims_at (meaning program.now) (trees_of quasts.now) place.now (partition_of term.now)) 0 (partition_of term.now).families) refused) }
{
    let (nest, matrix) = (&term.nest, &term.matrix);
    let credits = term.credits.as_slice();
    let families = term.families.as_slice();
    let list = place.within(alloc, Step::Key(ObjectKey("families")))?;
    for i in 0..families.len() {
        let inner = list.within(alloc, Step::Index(i as u64))?;
        check_family(
            alloc,
            program,
            quasts,
            term.statement,
            nest,
            matrix,
            credits,
            &families[i],
            &inner,
        )?;
    }
    Ok(())
}
