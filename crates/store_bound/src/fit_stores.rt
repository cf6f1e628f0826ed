//! Whether stores fit a program and a certificate.
#![tactic(auto, using(claims::proofs::Found::in_a_row))]

ghost use Rattle.std.specs.Prelude.{◌≡◌, ◌∷◌, [], codes, length, map, IfOk, OnOk};
ghost use Rattle.std.specs.List.{AllByRecursion};
ghost use Rattle.affine_program.specs.Parts.{meaning};
ghost use Rattle.certificate_fit.specs.PartFit.{shown_fit};
ghost use Rattle.claims.specs.Claims.{Decides, numbered};
ghost use Rattle.claims.specs.declared.place.Step.TheVariants.{Key};
ghost use Rattle.iolb_check.specs.Claims.{claim_of_certificate};
ghost use Rattle.iolb_model.specs.Program.{AffineProgram};
ghost use Rattle.last_writers.specs.Fitting.{FitsOutput};
ghost use Rattle.store_bound.specs.StoresFit.{apart_systems, branch_fit, output_fit_at, output_place as place_of_output, stores_fit};
ghost use Rattle.store_terms.specs.Claims.{claim_of_output, claim_of_stores};
ghost use Rattle.store_terms.specs.Limits.{IsSmallOutput};

use crate::counted::named_terms;
use crate::pair_counts::{output_pairs, word_pairs};
use affine_form::Memory;
use affine_program::Program;
use certificate_fit::lists::{list_fits, name_fits};
use claims::{ObjectKey, Place, Refused, Step};
use iolb_check::Certificate;
use last_writers::output_fits;
use std::alloc::Global;
use store_terms::{Output, Stores};

/// The place of the output of this number.
pub(crate) fn output_place(alloc: Global, index: usize) -> Result<Place, Memory>
    ensures { IfOk result (λ place. place ≡ place_of_output index) }
{
    let steps = vec![in alloc; Step::Key(ObjectKey("outputs")), Step::Index(index as u64)]?;
    Ok(Place::new(steps))
}

/// How many pairs have to be shown to have no instance in common.
fn pairs(certificate: &Certificate, stores: &Stores) -> usize
    ensures { (program : AffineProgram) → result ≡ length (apart_systems program (claim_of_certificate certificate.now) (claim_of_stores stores.now)) }
{
    // Its reader says that its branches have few terms.
    let _branches = certificate.branches();
    let outputs = stores.outputs();
    let terms = named_terms(certificate, stores.branch());
    output_pairs(outputs) + word_pairs(outputs, terms)
}

/// Whether there are multipliers for each of these pairs.
fn apart_fits(
    alloc: Global,
    program: &Program,
    certificate: &Certificate,
    stores: &Stores,
    place: &Place,
) -> Result<(), Refused>
    requires { place.now ≡ [] }
    ensures { Decides (shown_fit (length (apart_systems (meaning program.now) (claim_of_certificate certificate.now) (claim_of_stores stores.now))) (Key (codes "apart") ∷ []) stores.now.apart ∷ []) result }
{
    let _program = program;
    let called = pairs(certificate, stores);
    let found = stores.apart().len();
    let key = Step::Key(ObjectKey("apart"));
    list_fits(alloc, place, key, found, called)
}

/// Whether the branch that is named is there.
fn branch_fits(
    alloc: Global,
    certificate: &Certificate,
    branch: Option<u8>,
    place: &Place,
) -> Result<(), Refused>
    requires { place.now ≡ [] }
    ensures { Decides (branch_fit (claim_of_certificate certificate.now) branch) result }
{
    let Some(number) = branch else {
        return Ok(());
    };
    let count = certificate.branches().len();
    let key = Step::Key(ObjectKey("branch"));
    name_fits(alloc, place, key, usize::from(number), count)
}

/// Whether the outputs fit.
fn all_outputs_fit(alloc: Global, program: &Program, outputs: &[Output]) -> Result<(), Refused>
    requires { AllByRecursion IsSmallOutput outputs.now }
    ensures fit { Decides (numbered (output_fit_at (meaning program.now)) 0 (map claim_of_output outputs.now)) result }
    ensures fits { OnOk result (AllByRecursion (FitsOutput program.now) outputs.now) }
{
    for (index, output) in outputs.iter().enumerate() {
        let place = output_place(alloc, index)?;
        output_fits(alloc, program, &place, output)?;
    }
    Ok(())
}

/// Whether stores fit a program and a certificate (condition 1), in the order of a walk through their text.
pub(crate) fn stores_fit(
    alloc: Global,
    program: &Program,
    certificate: &Certificate,
    stores: &Stores,
) -> Result<(), Refused>
    ensures fit { Decides (stores_fit (meaning program.now) (claim_of_certificate certificate.now) (claim_of_stores stores.now)) result }
    ensures fits { OnOk result (AllByRecursion (FitsOutput program.now) stores.now.outputs) }
{
    let root = Place::new(Vec::new(alloc));
    apart_fits(alloc, program, certificate, stores, &root)?;
    branch_fits(alloc, certificate, stores.branch(), &root)?;
    all_outputs_fit(alloc, program, stores.outputs())?;
    Ok(())
}
