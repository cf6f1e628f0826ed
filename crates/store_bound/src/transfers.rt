//! Bounds on loads and stores together.

ghost use Rattle.std.specs.Prelude.{◌≡◌, ◌≤◌, ◌<◌, ◌^◌, length, IfOk};
ghost use Rattle.std.specs.List.{AllByRecursion};
ghost use Rattle.affine_form.specs.Form.{IsSmall};
ghost use Rattle.affine_program.specs.Parts.{meaning};
ghost use Rattle.iolb_model.specs.declared.limits.TheConstants.{VALUE_SIZE};
ghost use Rattle.store_bound.specs.Faults.{AnswersTraffic, MakesTraffic};

use crate::counted::named_terms;
use crate::evaluation::both_at;
use crate::fault::{Traffic, TrafficFault};
use crate::law::sound_stores_are_made;
use crate::stores_check::check_stores;
use affine_program::Program;
use claims::Refused;
use iolb_check::{Certificate, ValueFault, check};
use std::alloc::Global;
use store_terms::Stores;

/// How many loads and how many stores every complete pebbling of the program's computation graph makes at least, with `s` red
/// pebbles and at sizes for the parameters: the value of the certificate's bound, and that of the stores, which is how many
/// instances the outputs have and, for each wavefront term of the named branch whose words were computed, how many words it has
/// less `s` for each of its vertices. So both together are at least their sum.
///
/// # Errors
///
/// `Refused` is the certificate's first condition that fails. Where all are met, `StoresRefused` is the first of the stores:
/// whether they fit the program and the certificate (1), in the order of a walk through their text; then of each output 8 at
/// `shown/k`, 9 and 2 at `sums/k`, 10 at `inside/i`, 12 at `inverse/matrix/row/col`, 24 and 2 at `later/i`; then 23 and 2 at
/// `apart/i`. Where all are met, `OutsideAssumption` names the first assumption that is false at the sizes, and `Wide` comes
/// where all are true, exactly where the bound's value is wide, or a count of an output has terms that reach 2^126 in sum, or
/// both values together reach 2^126. `Memory` says that there was no memory for a check.
pub fn traffic(
    alloc: Global,
    program: &Program,
    certificate: &Certificate,
    stores: &Stores,
    sizes: &[i64],
    s: u64,
) -> Result<Traffic, TrafficFault>
    requires each { length sizes.now ≡ length program.now.params }
    requires small { AllByRecursion (IsSmall VALUE_SIZE) sizes.now }
    requires some { 1 ≤ s }
    requires few { s < 2 ^ 63 }
    ensures answer { AnswersTraffic program.now certificate.now stores.now sizes.now s result }
    ensures transferred { IfOk result (λ traffic. MakesTraffic (meaning program.now) sizes.now s traffic.loads traffic.stores) }
{
    let _params = program.params();
    sound_stores_are_made();
    let bound = match check(alloc, program, certificate) {
        Ok(bound) => bound,
        Err(Refused::Failed(failed)) => return Err(TrafficFault::Refused(failed)),
        Err(Refused::Memory) => return Err(TrafficFault::Memory),
    };
    let counts = match check_stores(alloc, program, certificate, stores) {
        Ok(counts) => counts,
        Err(Refused::Failed(failed)) => return Err(TrafficFault::StoresRefused(failed)),
        Err(Refused::Memory) => return Err(TrafficFault::Memory),
    };
    let (branch, counts) = (stores.branch(), counts.as_slice());
    let terms = named_terms(certificate, branch);
    match both_at(&bound, counts, terms, branch, sizes, s) {
        Ok(traffic) => Ok(traffic),
        Err(ValueFault::OutsideAssumption(number)) => Err(TrafficFault::OutsideAssumption(number)),
        Err(ValueFault::Wide) => Err(TrafficFault::Wide),
    }
}
