//! The check of cold terms.
#![tactic(auto, using(claims::proofs::Found::in_a_row))]

ghost use Rattle.std.specs.Prelude.{length, IfOk, OnOk, IfErr};
ghost use Rattle.iolb_model.specs.Bound.{cold};
ghost use Rattle.iolb_model.specs.Footprint.{CostsItsValue};
ghost use Rattle.affine_program.specs.Parts.{meaning};
ghost use Rattle.claims.specs.Claims.{AllHold, Decides, IsRefusal};
ghost use Rattle.dep_quast.specs.Tree.{tree_of};
ghost use Rattle.domain_count.specs.Count.{IsCount, CountsPoints};
ghost use Rattle.poly_tree.specs.Expansion.{IsCanonical};
ghost use Rattle.poly_tree.specs.Printed.{polynomial_of};
ghost use Rattle.dep_quast.specs.Quasts.{tree_for, trees_of};
ghost use Rattle.footprint_pieces.specs.Pieces.{AreCovered};
ghost use Rattle.wavefront.specs.ColdPieces.{LeavesAreFew, cold_pieces};
ghost use Rattle.wavefront.specs.ColdClaims.{cold_claims, instance_claims};
ghost use Rattle.wavefront.specs.Loads.{ColdFits, IsSoundCold, footprint_of};
ghost use Rattle.wavefront.specs.View.{FitsCold, term_of};

use crate::cold::Cold;
use crate::cold_shown::{cells_undone, inside_shown, tree_shown};
use crate::law::cold_terms_are_loaded;
use crate::pieces::cold_pieces_cover;
use affine_program::Program;
use claims::{Place, Refused};
use dep_quast::Quast;
use domain_count::check_count;
use poly_tree::Poly;
use poly_tree::printed_law::terms_have_the_value;
use reuse_paths::Quasts;
use std::alloc::Global;

/// Checks a cold term, which stands at this place of a certificate; the source tree of its read is true. The answer is
/// the count of its nest's points.
///
/// After `Ok` the term is sound: at all admitted parameter values, of any size, each point of the nest has an instance
/// whose read has an input cell as its source, and different points have different cells. These cells are its footprint:
/// every complete pebbling (Hong and Kung 1981) makes at least as many loads of them as the count. The term's pieces
/// cover it.
///
/// # Errors
///
/// The first condition that fails, with its place: 8 at `shown/k`, 9 and 2 at `sums/k` as `check_count` has them; 10 at
/// `inside/i`, for the first row of the statement's domain that isn't shown at the instance; at `leaves/i`, for the first
/// leaf of the source tree that isn't empty, 2 where the leaf's system has more than 128 rows and 11 where the leaf is
/// neither shown to have no point nor an input at which a walk stops; 12 at `inverse/matrix/row/col`, for the first entry,
/// by rows, in which the matrix times the coefficients of the nest's variables in the cell isn't the scale times the
/// identity.
pub fn check_cold(
    alloc: Global,
    program: &Program,
    quasts: &Quasts,
    term: &Cold,
    place: &Place,
) -> Result<Poly, Refused>
    requires { FitsCold program.now (trees_of quasts.now) term.now }
    ensures right { IfOk result (λ poly. IsCount (meaning program.now) term.now.nest term.now.sums poly) }
    ensures counts { IfOk result (λ poly. CountsPoints (meaning program.now) term.now.nest poly) }
    ensures parameters { IfOk result (λ poly. IsCanonical (length program.now.params) poly.tree) }
    ensures holds { OnOk result (AllHold (cold_claims (meaning program.now) place.now (tree_for (trees_of quasts.now) (term_of term.now).reader) (term_of term.now))) }
    ensures sound { OnOk result (IsSoundCold (meaning program.now) (term_of term.now)) }
    ensures footprint { IfOk result (λ poly. CostsItsValue (meaning program.now) (cold (polynomial_of poly)) (footprint_of (meaning program.now) (term_of term.now))) }
    ensures few { OnOk result (LeavesAreFew (meaning program.now) (tree_for (trees_of quasts.now) (term_of term.now).reader) (term_of term.now)) }
    ensures covered { OnOk result (AreCovered (meaning program.now) (footprint_of (meaning program.now) (term_of term.now)) (cold_pieces (meaning program.now) (tree_for (trees_of quasts.now) (term_of term.now).reader) (term_of term.now))) }
    ensures refused { IfErr result (λ refused. IsRefusal (cold_claims (meaning program.now) place.now (tree_for (trees_of quasts.now) (term_of term.now).reader) (term_of term.now)) refused) }
{
    let Some(quast) = quasts.tree(term.statement, term.read) else {
        unreachable!();
    };
    let count = check_count(alloc, program, &term.nest, &term.sums, place)?;
    let _params = program.params();
    let _den = count.den();
    cold_terms_are_loaded();
    cold_pieces_cover();
    terms_have_the_value();
    claims_shown(alloc, program, quast, term, place)?;
    Ok(count)
}

/// Whether what a cold term claims past its count is shown.
fn claims_shown(
    alloc: Global,
    program: &Program,
    quast: &Quast,
    term: &Cold,
    place: &Place,
) -> Result<(), Refused>
    requires { ColdFits (meaning program.now) (tree_of quast.now) (term_of term.now) }
    ensures { Decides (instance_claims (meaning program.now) place.now (tree_of quast.now) (term_of term.now)) result }
{
    inside_shown(alloc, program, term, place)?;
    tree_shown(alloc, program, quast, term, place)?;
    cells_undone(alloc, program, term, place)?;
    Ok(())
}
