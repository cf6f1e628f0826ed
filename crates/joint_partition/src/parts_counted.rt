//! How many points the parts have, and whether what else they claim is shown.
#![tactic(auto, using(claims::proofs::Found::in_a_row))]

ghost use Rattle.std.specs.Prelude.{ℕ, ◌++◌, length, map, IfOk, IfErr, OnOk};
ghost use Rattle.std.specs.List.{AllByRecursion};
ghost use Rattle.affine_program.specs.Parts.{meaning};
ghost use Rattle.claims.specs.Claims.{AllHold, IsRefusal, numbered};
ghost use Rattle.joint_partition.specs.Claims.{count_of, inside_claims, part_claims, unit_claims};
ghost use Rattle.joint_partition.specs.View.{FitsPart, part_of};
ghost use Rattle.k_partition.specs.CreditSums.{next_claims, IsWithCredit};
ghost use Rattle.k_partition.specs.PartitionClaims.{no_points, IsCreditsTotal};

use crate::part_shown::{inside_shown, inverse_shown};
use crate::places::member_at;
use crate::term::Part;
use affine_program::Program;
use claims::{ObjectKey, Place, Refused};
use domain_count::check_count;
use k_partition::credits_counted::{added, zero};
use poly_tree::Poly;
use std::alloc::Global;

/// The sum of the counts of the parts' points, where what they claim is shown, part by part.
pub(crate) fn parts_counted(
    alloc: Global,
    program: &Program,
    parts: &[Part],
    place: &Place,
) -> Result<Poly, Refused>
    requires { (dimensions : ℕ) × AllByRecursion (FitsPart program.now dimensions) parts.now }
    ensures total { IfOk result (λ total. IsCreditsTotal (length program.now.params) no_points (map count_of (map part_of parts.now)) total) }
    ensures holds { OnOk result (AllHold (numbered (part_claims (meaning program.now) place.now (map part_of parts.now)) 0 (map part_of parts.now))) }
    ensures refused { IfErr result (λ refused. IsRefusal (numbered (part_claims (meaning program.now) place.now (map part_of parts.now)) 0 (map part_of parts.now)) refused) }
{
    let mut total = zero(alloc)?;
    for i in 0..parts.len() {
        let here = member_at(alloc, place, ObjectKey("parts"), i)?;
        total = part_counted(alloc, program, &total, &parts[i], &here)?;
    }
    Ok(total)
}

/// A sum and the count of a part's points, where what else the part claims is shown too.
fn part_counted(
    alloc: Global,
    program: &Program,
    before: &Poly,
    part: &Part,
    place: &Place,
) -> Result<Poly, Refused>
    requires { FitsPart program.now (length part.now.image.items) part.now }
    ensures sum { IfOk result (λ sum. IsWithCredit (length program.now.params) before.now (count_of (part_of part.now)) sum) }
    ensures holds { OnOk result (AllHold (next_claims (meaning program.now) place.now before.now (count_of (part_of part.now))
        ++ inside_claims (meaning program.now) place.now (part_of part.now) ++ unit_claims (meaning program.now) place.now (part_of part.now))) }
    ensures refused { IfErr result (λ refused. IsRefusal (next_claims (meaning program.now) place.now before.now (count_of (part_of part.now))
        ++ inside_claims (meaning program.now) place.now (part_of part.now) ++ unit_claims (meaning program.now) place.now (part_of part.now)) refused) }
{
    let sum = with_part(alloc, program, before, part, place)?;
    inside_shown(alloc, program, part, place)?;
    inverse_shown(alloc, program, part, place)?;
    Ok(sum)
}

/// A sum and the count of a part's points.
fn with_part(
    alloc: Global,
    program: &Program,
    before: &Poly,
    part: &Part,
    place: &Place,
) -> Result<Poly, Refused>
    requires { FitsPart program.now (length part.now.image.items) part.now }
    ensures sum { IfOk result (λ sum. IsWithCredit (length program.now.params) before.now (count_of (part_of part.now)) sum) }
    ensures holds { OnOk result (AllHold (next_claims (meaning program.now) place.now before.now (count_of (part_of part.now)))) }
    ensures refused { IfErr result (λ refused. IsRefusal (next_claims (meaning program.now) place.now before.now (count_of (part_of part.now))) refused) }
{
    let count = check_count(alloc, program, &part.nest, &part.sums, place)?;
    let sum = added(alloc, before, &count, place)?;
    Ok(sum)
}
