//! Multipliers which show that parameters are at least 1.

ghost use Rattle.std.specs.Prelude.{◌≡◌, ◌≤◌, ◌<◌, ◌≤ℤ◌, negsuc, IfOk, length};
ghost use Rattle.std.specs.List.{AllByRecursion};
ghost use Rattle.iolb_model.specs.Form.{AffineForm};
ghost use Rattle.affine_form.specs.Form.{IsSmallForm};
ghost use Rattle.affine_program.specs.Parts.{meaning};
ghost use Rattle.projective.specs.Projective.{Assumes, HoldsOfOne};
ghost use Rattle.projective.specs.Products.{AreAssumed, AreTaken, TakesRow};
ghost use Rattle.iolb_model.specs.declared.limits.TheConstants.{ASSUMPTIONS, NUMBER_SIZE};

use affine_form::{Form, Memory, Multipliers, variable};
use affine_program::Program;
use std::alloc::Global;

/// Multipliers that take the first of some rows which has these coefficients and a constant below 0.
fn taken(alloc: Global, rows: &[Form], coef: &[i128]) -> Result<Multipliers, Memory>
    requires few { length rows.now ≤ ASSUMPTIONS }
    requires small { AllByRecursion (IsSmallForm NUMBER_SIZE) rows.now }
    requires some { HoldsOfOne (λ (form : AffineForm). (form.coefficients ≡ coef.now) × (form.constant ≤ℤ negsuc 0)) rows.now }
    ensures { IfOk result (λ shown. TakesRow rows.now coef.now shown) }
{
    for (number, row) in rows.iter().enumerate() {
        if row.coef() == coef && row.constant() < 0 {
            let weights = vec![in alloc; (number as u8, 1)]?;
            let rest = row.constant().unsigned_abs() as u64;
            return Ok(Multipliers::new(1, rest, weights));
        }
    }
    unreachable!()
}

/// For each of some parameters multipliers that take the first assumption which says that it is at least 1.
pub(crate) fn all_taken(
    alloc: Global,
    program: &Program,
    parameters: &[usize],
) -> Result<Vec<Multipliers>, Memory>
    requires { AreAssumed (meaning program.now) parameters.now }
    ensures { IfOk result (λ all. AreTaken program.now.assumed.rows (length program.now.params) parameters.now all.items) }
{
    let Some((first, others)) = parameters.split_first() else {
        return Ok(Vec::new(alloc));
    };
    let mut all = all_taken(alloc, program, others)?;
    let form = variable(alloc, program.params().len(), *first)?;
    let shown = taken(alloc, program.assumed().rows(), form.coef())?;
    all.insert(0, shown)?;
    Ok(all)
}
