//! How many points the credited nests have.

ghost use Rattle.std.specs.Prelude.{◌≡◌, ◌<◌, ◌*◌, ◌++◌, ◌∷◌, [], length, map, IfOk, IfErr, OnOk, codes};
ghost use Rattle.std.specs.List.{AllByRecursion};
ghost use Rattle.affine_program.specs.Parts.{meaning};
ghost use Rattle.claims.specs.Claims.{AllHold, IsRefusal, numbered};
ghost use Rattle.claims.specs.declared.place.Step.TheVariants.{Key};
ghost use Rattle.k_partition.specs.CreditSums.{next_claims, IsWithCredit};
ghost use Rattle.k_partition.specs.PartitionClaims.{credit_claims, no_points, IsAdded, IsCreditsTotal};
ghost use Rattle.k_partition.specs.View.{credit_term_of, FitsCredit};
ghost use Rattle.poly_tree.specs.Poly.{size};
ghost use Rattle.iolb_model.specs.declared.limits.TheConstants.{SUM_MEASURE};

use affine_form::{Form, Memory};
use affine_program::Program;
use claims::{FailedCondition, ObjectKey, Place, Refused, Step};
use domain_count::check_count;
use poly_tree::{Poly, PolyFault};
use reuse_paths::Credit;
use std::alloc::Global;

/// The sum of the counts of the credits' points.
pub fn credits_counted(
    alloc: Global,
    program: &Program,
    credits: &[Credit],
    place: &Place,
) -> Result<Poly, Refused>
    requires { AllByRecursion (FitsCredit program.now) credits.now }
    ensures total { IfOk result (λ total. IsCreditsTotal (length program.now.params) no_points (map credit_term_of credits.now) total) }
    ensures holds { OnOk result (AllHold (numbered (credit_claims (meaning program.now) place.now (map credit_term_of credits.now)) 0 (map credit_term_of credits.now))) }
    ensures refused { IfErr result (λ refused. IsRefusal (numbered (credit_claims (meaning program.now) place.now (map credit_term_of credits.now)) 0 (map credit_term_of credits.now)) refused) }
{
    let list = place.within(alloc, Step::Key(ObjectKey("credits")))?;
    let mut total = zero(alloc)?;
    for i in 0..credits.len() {
        let inner = list.within(alloc, Step::Index(i as u64))?;
        total = with_credit(alloc, program, &total, &credits[i], &inner)?;
    }
    Ok(total)
}

/// A sum and the count of a credit's points.
fn with_credit(
    alloc: Global,
    program: &Program,
    before: &Poly,
    credit: &Credit,
    place: &Place,
) -> Result<Poly, Refused>
    requires { FitsCredit program.now credit.now }
    ensures sum { IfOk result (λ sum. IsWithCredit (length program.now.params) before.now (credit_term_of credit.now) sum) }
    ensures holds { OnOk result (AllHold (next_claims (meaning program.now) place.now before.now (credit_term_of credit.now))) }
    ensures refused { IfErr result (λ refused. IsRefusal (next_claims (meaning program.now) place.now before.now (credit_term_of credit.now)) refused) }
{
    let count = check_count(alloc, program, &credit.nest, &credit.sums, place)?;
    let sum = added(alloc, before, &count, place)?;
    Ok(sum)
}

/// The sum of two polynomials, at `sums` behind this place.
pub fn added(alloc: Global, before: &Poly, count: &Poly, place: &Place) -> Result<Poly, Refused>
    ensures sum { IfOk result (λ sum. IsAdded before.now count.now sum) }
    ensures refused { IfErr result (λ refused. IsRefusal (record { condition = 2; place = place.now ++ Key (codes "sums") ∷ []; statement = size before.now * size count.now < SUM_MEASURE } ∷ []) refused) }
{
    match before.add(alloc, count) {
        Ok(sum) => {
            // Its reader says that the polynomial is in lowest terms.
            let _den = sum.den();
            Ok(sum)
        }
        Err(PolyFault::Wide) => {
            let place = place.within(alloc, Step::Key(ObjectKey("sums")))?;
            Err(Refused::Failed(FailedCondition {
                condition: 2,
                place,
            }))
        }
        Err(PolyFault::Memory) => Err(Refused::Memory),
    }
}

/// The polynomial 0.
pub fn zero(alloc: Global) -> Result<Poly, Memory>
    ensures { IfOk result (λ poly. poly ≡ no_points) }
{
    let form = Form::new(Vec::new(alloc), 0);
    let poly = Poly::from_form(alloc, &form)?;
    let _den = poly.den();
    Ok(poly)
}
