//! The check of wavefront terms.
#![tactic(auto, using(claims::proofs::Found::in_a_row))]

ghost use Rattle.std.specs.Prelude.{◌≡◌, length, take, IfOk, OnOk, IfErr};
ghost use Rattle.iolb_model.specs.Bound.{wavefront};
ghost use Rattle.iolb_model.specs.Footprint.{CostsItsValue};
ghost use Rattle.affine_program.specs.Parts.{meaning};
ghost use Rattle.claims.specs.Claims.{AllHold, Decides, IsRefusal};
ghost use Rattle.dep_quast.specs.Tree.{tree_of};
ghost use Rattle.domain_count.specs.Count.{CountsPoints, IsCount, IsSumFrom};
ghost use Rattle.poly_tree.specs.Expansion.{IsCanonical};
ghost use Rattle.poly_tree.specs.Poly.{IsLegal};
ghost use Rattle.poly_tree.specs.Printed.{polynomial_of};
ghost use Rattle.dep_quast.specs.Quasts.{trees_of};
ghost use Rattle.wavefront.specs.FrontClaims.{front_back, front_claims, front_counts, front_reach, point_claims};
ghost use Rattle.wavefront.specs.FrontFits.{EdgesFit, PartsFit};
ghost use Rattle.wavefront.specs.FrontTerm.{outer_nest};
ghost use Rattle.wavefront.specs.Fronts.{front_footprint, IsSoundFront};
ghost use Rattle.wavefront.specs.View.{front_of, FitsFront};

use crate::edge_leaves::edges_shown;
use crate::front::Wavefront;
use crate::front_shown::{front_inside_shown, outer_shown, words_shown};
use affine_program::Program;
use claims::{ObjectKey, Place, Refused, Step};
use dep_quast::Quast;
use domain_count::law::first_variables_are_counted;
use domain_count::{check_count, check_sums};
use poly_tree::Poly;
use poly_tree::printed_law::terms_have_the_value;
use reuse_paths::{Quasts, check_reach};
use std::alloc::Global;

/// Checks a wavefront term, which stands at this place of a certificate; the source trees are true. The answer is the count of
/// its nest's points, and that of the points of its outer variables.
///
/// After `Ok` the term is sound: at all admitted parameter values, of any size, there are for each point of the nest a vertex,
/// which depends on the outer variables alone, a user, which is the vertex or from which the vertex is reached, and the source
/// of the user's read, its word, which is an input, the vertex, or reached from the vertex; and different points have different
/// words. These are its footprint: every complete pebbling with s red pebbles makes at least as many loads of them as the first
/// count, less s times the second (Elango et al. 2014, by loads alone).
///
/// # Errors
///
/// The first condition that fails, with its place: 8 at `shown/k`, 9 and 2 at `sums/k` as `check_count` has them, and 9 and 2 at
/// `outer_sums/k`; 10 at `inside/i`, for the first row of the domains of the user, the vertex and the word's instance that isn't
/// shown; 22 at `vertex/point/i`, for the first form with another coefficient than 0 past the outer variables; 12 at
/// `inverse/matrix/row/col`; at `edge/i`, for the first leaf of the source tree that isn't empty, 2 where the leaf's system has
/// more than 128 rows and 19 where the leaf is neither shown to have no point, nor an input as the term says, nor shown to name
/// the instance that the term says; then as `check_reach` has them 20 and 2 in `reach`, from the vertex to the word's instance,
/// and 21 and 2 in `back`, from the user to the vertex.
pub fn check_wavefront(
    alloc: Global,
    program: &Program,
    quasts: &Quasts,
    term: &Wavefront,
    place: &Place,
) -> Result<(Poly, Poly), Refused>
    requires { FitsFront program.now (trees_of quasts.now) term.now }
    ensures right { IfOk result (λ counts. IsCount (meaning program.now) term.now.nest term.now.sums counts.0) }
    ensures outer { IfOk result (λ counts. IsSumFrom (length program.now.params) (outer_nest (front_of term.now)) term.now.outer_sums.items counts.1) }
    ensures counts { IfOk result (λ counts. CountsPoints (meaning program.now) term.now.nest counts.0) }
    ensures outer_counts { IfOk result (λ counts. CountsPoints (meaning program.now) (outer_nest (front_of term.now)) counts.1) }
    ensures parameters { IfOk result (λ counts. IsCanonical (length program.now.params) counts.0.tree) }
    ensures outer_parameters { IfOk result (λ counts. IsCanonical (length program.now.params) counts.1.tree) }
    ensures holds { OnOk result (AllHold (front_claims (meaning program.now) place.now (trees_of quasts.now) (front_of term.now))) }
    ensures sound { OnOk result (IsSoundFront (meaning program.now) (front_of term.now)) }
    ensures footprint { IfOk result (λ counts. CostsItsValue (meaning program.now) (wavefront (polynomial_of counts.0) (polynomial_of counts.1)) (front_footprint (meaning program.now) (front_of term.now))) }
    ensures refused { IfErr result (λ refused. IsRefusal (front_claims (meaning program.now) place.now (trees_of quasts.now) (front_of term.now)) refused) }
{
    let Some(quast) = quasts.tree(term.user.statement, term.read) else {
        unreachable!();
    };
    let counts = counted(alloc, program, quasts, term, place)?;
    let _params = program.params();
    terms_have_the_value();
    points_shown(alloc, program, quast, term, place)?;
    source_reached(alloc, program, quasts, term, place)?;
    vertex_reached(alloc, program, quasts, term, place)?;
    Ok(counts)
}

/// The counts of the nest's points and of those of its outer variables.
fn counted(
    alloc: Global,
    program: &Program,
    quasts: &Quasts,
    term: &Wavefront,
    place: &Place,
) -> Result<(Poly, Poly), Refused>
    requires { FitsFront program.now (trees_of quasts.now) term.now }
    ensures right { IfOk result (λ counts. IsCount (meaning program.now) term.now.nest term.now.sums counts.0) }
    ensures outer { IfOk result (λ counts. IsSumFrom (length program.now.params) (outer_nest (front_of term.now)) term.now.outer_sums.items counts.1) }
    ensures counts { IfOk result (λ counts. CountsPoints (meaning program.now) term.now.nest counts.0) }
    ensures outer_counts { IfOk result (λ counts. CountsPoints (meaning program.now) (outer_nest (front_of term.now)) counts.1) }
    ensures parameters { IfOk result (λ counts. IsCanonical (length program.now.params) counts.0.tree) }
    ensures outer_parameters { IfOk result (λ counts. IsCanonical (length program.now.params) counts.1.tree) }
    ensures legal { IfOk result (λ counts. IsLegal counts.0) }
    ensures outer_legal { IfOk result (λ counts. IsLegal counts.1) }
    ensures holds { OnOk result (AllHold (front_counts (meaning program.now) place.now (front_of term.now))) }
    ensures refused { IfErr result (λ refused. IsRefusal (front_counts (meaning program.now) place.now (front_of term.now)) refused) }
{
    let pairs = check_count(alloc, program, &term.nest, &term.sums, place)?;
    let _params = program.params();
    first_variables_are_counted();
    let bounds = &term.nest.bounds()[..usize::from(term.outer)];
    let sums = term.outer_sums.as_slice();
    let outer = check_sums(alloc, program, bounds, sums, place, ObjectKey("outer_sums"))?;
    // Their readers say that the polynomials are in lowest terms.
    let (_den, _outer_den) = (pairs.den(), outer.den());
    Ok((pairs, outer))
}

/// Whether what a wavefront term claims of its instances is shown.
fn points_shown(
    alloc: Global,
    program: &Program,
    quast: &Quast,
    term: &Wavefront,
    place: &Place,
) -> Result<(), Refused>
    requires parts { PartsFit (meaning program.now) (front_of term.now) }
    requires fits { EdgesFit (meaning program.now) (tree_of quast.now) (front_of term.now) }
    ensures { Decides (point_claims (meaning program.now) place.now (tree_of quast.now) (front_of term.now)) result }
{
    front_inside_shown(alloc, program, term, place)?;
    outer_shown(alloc, program, term, place)?;
    words_shown(alloc, program, term, place)?;
    edges_shown(alloc, program, quast, term, place)?;
    Ok(())
}

/// Whether a walk back from the vertex is shown to arrive at the word's instance, where the word isn't an input.
fn source_reached(
    alloc: Global,
    program: &Program,
    quasts: &Quasts,
    term: &Wavefront,
    place: &Place,
) -> Result<(), Refused>
    requires { FitsFront program.now (trees_of quasts.now) term.now }
    ensures holds { OnOk result (AllHold (front_reach (meaning program.now) place.now (trees_of quasts.now) (front_of term.now))) }
    ensures refused { IfErr result (λ refused. IsRefusal (front_reach (meaning program.now) place.now (trees_of quasts.now) (front_of term.now)) refused) }
{
    let Some(source) = &term.source else {
        return Ok(());
    };
    let Some(reach) = &term.reach else {
        return Ok(());
    };
    let (nest, vertex) = (&term.nest, &term.vertex);
    let inner = place.within(alloc, Step::Key(ObjectKey("reach")))?;
    check_reach(
        alloc, program, quasts, nest, vertex, source, reach, 20, &inner,
    )
}

/// Whether a walk back from the user is shown to arrive at the vertex.
fn vertex_reached(
    alloc: Global,
    program: &Program,
    quasts: &Quasts,
    term: &Wavefront,
    place: &Place,
) -> Result<(), Refused>
    requires { FitsFront program.now (trees_of quasts.now) term.now }
    ensures holds { OnOk result (AllHold (front_back (meaning program.now) place.now (trees_of quasts.now) (front_of term.now))) }
    ensures refused { IfErr result (λ refused. IsRefusal (front_back (meaning program.now) place.now (trees_of quasts.now) (front_of term.now)) refused) }
{
    let (nest, user, vertex) = (&term.nest, &term.user, &term.vertex);
    let inner = place.within(alloc, Step::Key(ObjectKey("back")))?;
    check_reach(
        alloc, program, quasts, nest, user, vertex, &term.back, 21, &inner,
    )
}
