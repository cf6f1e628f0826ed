//! The check of what makes a partition term sound.
#![tactic(auto, using(claims::proofs::Found::in_a_row))]

ghost use Rattle.std.specs.Prelude.{◌≤◌, ◌++◌, length, IfErr, IfOk, OnOk};
ghost use Rattle.affine_program.specs.Parts.{meaning};
ghost use Rattle.claims.specs.Claims.{AllHold, Decides, IsRefusal};
ghost use Rattle.domain_count.specs.Count.{CountsPoints, IsCount};
ghost use Rattle.k_partition.specs.Numbers.{HasNumbers};
ghost use Rattle.k_partition.specs.PartitionClaims.{cover_claims, no_points, sound_claims, unit_claims, IsCreditsTotal};
ghost use Rattle.k_partition.specs.ReusedWords.{IsSoundTerm};
ghost use Rattle.k_partition.specs.View.{partition_of, FitsMatrices, FitsPartition};
ghost use Rattle.k_partition.specs.TermLoads.{weight_of};
ghost use Rattle.poly_tree.specs.Expansion.{IsCanonical};
ghost use Rattle.dep_quast.specs.Quasts.{trees_of};
ghost use Rattle.iolb_model.specs.declared.limits.TheConstants.{NEST_VARIABLES, WEIGHTS};

use crate::bound::bound_of;
use crate::cover_shown::cover_shown;
use crate::credits_counted::credits_counted;
use crate::families_checked::families_checked;
use crate::inside_shown::inside_shown;
use crate::partitions::partitions_are_sound;
use crate::term::{Partition, PartitionBound};
use crate::unit_shown::unit_shown;
use affine_program::Program;
use claims::{Place, Refused};
use domain_count::check_count;
use reuse_paths::Quasts;
use std::alloc::Global;

/// Whether the matrix is shown to have the inverse that stands beside it, and the families' sets to cover each coordinate.
fn coordinates_shown(alloc: Global, term: &Partition, place: &Place) -> Result<(), Refused>
    requires matrices { FitsMatrices term.now }
    requires few { length term.now.nest ≤ NEST_VARIABLES }
    requires light { weight_of (partition_of term.now) ≤ WEIGHTS }
    ensures { Decides (unit_claims place.now (partition_of term.now) ++ cover_claims place.now (partition_of term.now)) result }
{
    unit_shown(alloc, term, place)?;
    cover_shown(alloc, term, place)?;
    Ok(())
}

/// Checks what makes a partition term sound, which stands at this place of a certificate: all that it claims but that its
/// families' footprints are apart, which the second shape asks for. The source trees are true. The answer has the count of its
/// nest's points, the sum of those of its credited nests, and the numbers of its bound.
///
/// After `Ok` the term is sound: its points are instances, its families are sound and their start labels fix coordinates, the
/// matrix of coordinates has an inverse, and the families' sets cover each coordinate `q` times. So it costs what partition
/// terms cost (`sound_terms_are_loaded`), where no two families have a word in common if its shape asks for it.
///
/// # Errors
///
/// The first condition that fails, with its place: 8 at `shown/k`, 9 and 2 at `sums/k` as `check_count` has them; 10 at
/// `inside/i`; then for each credit 8, 9 and 2 at `credits/i`, and 2 at `credits/i/sums` where the sum of its count and those
/// before passes the limit; 16 at `inverse/row/col` for the first entry of the product with the matrix that isn't that of the
/// identity; 17 at `matrix/i` for the first coordinate that lies in sets of less weight; then family by family at `families/i`
/// 13, 15, 14 and 2 as `check_family` has them.
pub fn check_sound(
    alloc: Global,
    program: &Program,
    quasts: &Quasts,
    term: &Partition,
    place: &Place,
) -> Result<PartitionBound, Refused>
    requires { FitsPartition program.now (trees_of quasts.now) term.now }
    ensures right { IfOk result (λ bound. IsCount (meaning program.now) term.now.nest term.now.sums bound.count) }
    ensures counts { IfOk result (λ bound. CountsPoints (meaning program.now) term.now.nest bound.count) }
    ensures parameters { IfOk result (λ bound. IsCanonical (length program.now.params) bound.count.tree) }
    ensures total { IfOk result (λ bound. IsCreditsTotal (length program.now.params) no_points (partition_of term.now).credits bound.credits) }
    ensures numbers { IfOk result (λ bound. HasNumbers (partition_of term.now) bound) }
    ensures holds { OnOk result (AllHold (sound_claims (meaning program.now) (trees_of quasts.now) place.now (partition_of term.now))) }
    ensures sound { OnOk result (IsSoundTerm (meaning program.now) (partition_of term.now)) }
    ensures refused { IfErr result (λ refused. IsRefusal (sound_claims (meaning program.now) (trees_of quasts.now) place.now (partition_of term.now)) refused) }
{
    let count = check_count(alloc, program, &term.nest, &term.sums, place)?;
    inside_shown(alloc, program, term, place)?;
    let credits = credits_counted(alloc, program, term.credits.as_slice(), place)?;
    coordinates_shown(alloc, term, place)?;
    families_checked(alloc, program, quasts, term, place)?;
    let _params = program.params();
    partitions_are_sound();
    Ok(bound_of(term, count, credits))
}
