//! The check of outputs.
#![tactic(auto, using(claims::proofs::Found::in_a_row))]

ghost use Rattle.std.specs.Prelude.{◌∷◌, [], length, IfOk, OnOk, IfErr};
ghost use Rattle.affine_program.specs.Parts.{meaning};
ghost use Rattle.claims.specs.Claims.{AllHold, Decides, IsRefusal};
ghost use Rattle.domain_count.specs.Count.{CountsPoints, IsCount};
ghost use Rattle.footprint_pieces.specs.Pieces.{AreCovered};
ghost use Rattle.last_writers.specs.OutputClaims.{instance_claims, output_claims};
ghost use Rattle.last_writers.specs.Fitting.{FitsOutput, OutputFits};
ghost use Rattle.last_writers.specs.Outputs.{IsSoundOutput, output_footprint, output_piece};
ghost use Rattle.poly_tree.specs.Expansion.{IsCanonical};
ghost use Rattle.poly_tree.specs.Poly.{IsLegal};
ghost use Rattle.store_terms.specs.Claims.{claim_of_output};

use crate::later_shown::later_shown;
use crate::law::valid_outputs_are_sound;
use crate::output_shown::{inside_shown, instances_told};
use crate::piece::output_pieces_cover;
use affine_program::Program;
use claims::{Place, Refused};
use domain_count::check_count;
use poly_tree::Poly;
use std::alloc::Global;
use store_terms::Output;

/// Checks an output, which stands at this place of stores. The answer is the count of its nest's points.
///
/// After `Ok` the output is sound: at all admitted parameter values, of any size, the instance of each point of the nest is
/// executed and no later instance writes its cell, and different points have different instances. So every complete pebbling
/// (Hong and Kung 1981) makes at least as many stores of these instances as the count. The output's piece covers them.
///
/// # Errors
///
/// The first condition that fails, with its place: 8 at `shown/k`, 9 and 2 at `sums/k` as `check_count` has them; 10 at
/// `inside/i`, for the first row of the statement's domain that isn't shown at the instance; 12 at `inverse/matrix/row/col`, for
/// the first entry, by rows, in which the matrix times the coefficients of the nest's variables in the instance's loop values
/// isn't the scale times the identity; at `later/i`, for the first writer of the array and level at which a later write isn't
/// shown not to be, 2 where its system has more than 128 rows and else 24.
pub fn check_output(
    alloc: Global,
    program: &Program,
    output: &Output,
    place: &Place,
) -> Result<Poly, Refused>
    requires { FitsOutput program.now output.now }
    ensures right { IfOk result (λ poly. IsCount (meaning program.now) output.now.nest output.now.sums poly) }
    ensures counts { IfOk result (λ poly. CountsPoints (meaning program.now) output.now.nest poly) }
    ensures parameters { IfOk result (λ poly. IsCanonical (length program.now.params) poly.tree) }
    ensures legal { IfOk result (λ poly. IsLegal poly) }
    ensures holds { OnOk result (AllHold (output_claims (meaning program.now) place.now (claim_of_output output.now))) }
    ensures sound { OnOk result (IsSoundOutput (meaning program.now) (claim_of_output output.now)) }
    ensures covered { OnOk result (AreCovered (meaning program.now) (output_footprint (meaning program.now) (claim_of_output output.now)) (output_piece (meaning program.now) (claim_of_output output.now) ∷ [])) }
    ensures refused { IfErr result (IsRefusal (output_claims (meaning program.now) place.now (claim_of_output output.now))) }
{
    let count = check_count(alloc, program, &output.nest, &output.sums, place)?;
    let _params = program.params();
    // Its reader says that it is in lowest terms.
    let _den = count.den();
    valid_outputs_are_sound();
    output_pieces_cover();
    claims_shown(alloc, program, output, place)?;
    Ok(count)
}

/// Whether what an output claims past its count is shown.
fn claims_shown(
    alloc: Global,
    program: &Program,
    output: &Output,
    place: &Place,
) -> Result<(), Refused>
    requires { OutputFits (meaning program.now) (claim_of_output output.now) }
    ensures { Decides (instance_claims (meaning program.now) place.now (claim_of_output output.now)) result }
{
    inside_shown(alloc, program, output, place)?;
    instances_told(alloc, program, output, place)?;
    later_shown(alloc, program, output, place)?;
    Ok(())
}
