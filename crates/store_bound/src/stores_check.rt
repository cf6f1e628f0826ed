//! The check of stores.
#![tactic(auto, using(claims::proofs::Found::in_a_row))]

ghost use Rattle.std.specs.Prelude.{IfOk, IfErr};
ghost use Rattle.affine_program.specs.Parts.{meaning};
ghost use Rattle.claims.specs.Claims.{AllHold, IsRefusal};
ghost use Rattle.iolb_check.specs.Claims.{claim_of_certificate};
ghost use Rattle.iolb_check.specs.Conditions.{conditions};
ghost use Rattle.iolb_check.specs.Sound.{IsSoundBranch};
ghost use Rattle.std.specs.List.{AllByRecursion};
ghost use Rattle.store_bound.specs.Conditions.{MeetStores, stores_conditions};
ghost use Rattle.store_bound.specs.Sound.{AreSoundStores};
ghost use Rattle.store_terms.specs.Claims.{claim_of_stores};

use crate::counted::named_terms;
use crate::fit_stores::stores_fit;
use crate::output_checks::check_outputs;
use crate::pairs::check_apart;
use affine_program::Program;
use claims::Refused;
use iolb_check::Certificate;
use poly_tree::Poly;
use std::alloc::Global;
use store_terms::Stores;

/// Checks stores beside a program and a certificate that is accepted. The answer is the counts of the outputs.
///
/// After `Ok` the stores are sound (`AreSoundStores`): at all admitted parameter values, of any size, the instances of each output
/// write their cells last and differ, and no instance is counted twice, neither for two outputs nor for an output and a wavefront
/// term of the named branch whose words were computed.
///
/// # Errors
///
/// The first condition that fails, with its place: whether the stores fit the program and the certificate (1), in the order of a
/// walk through their text; then those of each output (2, 8 to 10, 12 and 24) as `check_output` has them, at `outputs/i`; then at
/// `apart/i`, for the first pair of outputs with one statement, or of an output and a term whose words its statement computed, 2
/// where their system has more than 128 rows, and 23 where they aren't shown to have no instance in common.
pub fn check_stores(
    alloc: Global,
    program: &Program,
    certificate: &Certificate,
    stores: &Stores,
) -> Result<Vec<Poly>, Refused>
    requires accepted { AllHold (conditions (meaning program.now) (claim_of_certificate certificate.now)) }
    requires sound { AllByRecursion (IsSoundBranch program.now) certificate.now.branches }
    ensures meets { IfOk result (λ counts. MeetStores (meaning program.now) (claim_of_certificate certificate.now) (claim_of_stores stores.now) counts.items) }
    ensures sound { IfOk result (λ counts. AreSoundStores program.now certificate.now stores.now counts.items) }
    ensures refused { IfErr result (IsRefusal (stores_conditions (meaning program.now) (claim_of_certificate certificate.now) (claim_of_stores stores.now))) }
{
    let _params = program.params();
    // Its reader says that it is within its limits.
    let _branches = certificate.branches();
    let (outputs, shown) = (stores.outputs(), stores.apart());
    let terms = named_terms(certificate, stores.branch());
    stores_fit(alloc, program, certificate, stores)?;
    let counts = check_outputs(alloc, program, outputs)?;
    check_apart(alloc, program, outputs, terms, shown)?;
    Ok(counts)
}
