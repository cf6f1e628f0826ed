//! Counts that are made.

ghost use Rattle.std.specs.Prelude.{◌≡◌, ◌+◌, ◌<◌, ◌≤◌, ℕ, [], length, take, ◌++◌, ◌∷◌, IfOk, OnOk, IfSome, IfNone};
ghost use Rattle.affine_form.specs.Rows.{BoundsFit, IsSmallOver};
ghost use Rattle.affine_program.specs.Parts.{meaning};
ghost use Rattle.domain_count.specs.Claims.{FitsCount};
ghost use Rattle.domain_count.specs.Count.{AreShownBelow, ShowsRange, range_goal, rows_before};
ghost use Rattle.int_sets.specs.ShortList.{HasShortList};
ghost use Rattle.domain_count.specs.Ranges.{AreAllShown, AreRight, IsFirstNotShown, IsShownSomehow};
ghost use Rattle.domain_count.specs.Summing.{AreSummed, SummationPasses};
ghost use Rattle.domain_count.specs.Made.{AreMade, CheckPasses};
ghost use Rattle.iolb_model.specs.declared.limits.TheConstants.{NEST_VARIABLES};

use crate::count::check_count;
use crate::nest::Nest;
use crate::nest_summation::summed;
use crate::ranges::rows_before;
use crate::sums::Sums;
use affine_form::{Form, Memory, Multipliers, difference};
use affine_program::Program;
use claims::{Place, Refused};
use int_sets::prove;
use poly_tree::PolyFault;
use std::alloc::Global;

/// Why no count was made.
#[derive(Debug, Drop, PartialEq, Eq)]
pub enum CountFault {
    /// No short list of multipliers shows that the range of the variable with this number is whole.
    NotProved(u8),
    /// An operation on polynomials passes its limit.
    Wide,
    /// There was no memory.
    Memory,
}

impl From<Memory> for CountFault {
    ghost use Rattle.domain_count.specs.declared.making.CountFault.{CountFault};
    ghost use Rattle.std.specs.Prelude.{◌≡◌};

    ghost from_gives = { λ _ e. e ≡ CountFault.Memory };

    fn from(_error: Memory) -> CountFault {
        CountFault::Memory
    }
}

/// Claims of a nest's number of points, found: multipliers that show that its ranges are whole, and the polynomials of its
/// variables. They are right, so `check_count` accepts them.
///
/// # Errors
///
/// - `NotProved` with the first variable for whose range `upper - lower + 1 >= 0` no multipliers were found from the
///   assumptions and the rows of the variables before; then no short list shows it.
/// - `Wide` where all ranges are shown, and an operation of the summation passes its limit, or one that `check_count` makes
///   on its polynomials.
/// - `Memory` where there is none.
pub fn make_count(alloc: Global, program: &Program, nest: &Nest) -> Result<Sums, CountFault>
    requires few { length nest.now ≤ NEST_VARIABLES }
    requires fit { BoundsFit (length program.now.params) nest.now }
    ensures fits { IfOk result (λ sums. FitsCount program.now nest.now sums) }
    ensures right { IfOk result (λ sums. AreRight (meaning program.now) nest.now sums) }
    ensures made { IfOk result (λ sums. AreMade (length program.now.params) nest.now sums.sums) }
    ensures not_proved { (k : ℕ) → result ≡ Err (CountFault.NotProved k) → IsFirstNotShown (meaning program.now) nest.now k }
    ensures shown { result ≡ Err CountFault.Wide → AreAllShown (meaning program.now) nest.now }
    ensures wide { result ≡ Err CountFault.Wide → CheckPasses (meaning program.now) nest.now }
{
    let shown = ranges(alloc, program, nest.bounds())?;
    let params = program.params().len();
    let summed = match summed(alloc, params as u16, nest.bounds()) {
        Ok(summed) => summed,
        Err(PolyFault::Wide) => return Err(CountFault::Wide),
        Err(PolyFault::Memory) => return Err(CountFault::Memory),
    };
    let sums = Sums::new(shown, summed.sums);
    match check_count(alloc, program, nest, &sums, &Place::new(Vec::new(alloc))) {
        Ok(_) => Ok(sums),
        Err(Refused::Failed(_)) => Err(CountFault::Wide),
        Err(Refused::Memory) => Err(CountFault::Memory),
    }
}

/// Multipliers that show that the range of each variable is whole.
fn ranges(
    alloc: Global,
    program: &Program,
    bounds: &[(Form, Form)],
) -> Result<Vec<Multipliers>, CountFault>
    requires few { length bounds.now ≤ NEST_VARIABLES }
    requires fit { BoundsFit (length program.now.params) bounds.now }
    ensures each { IfOk result (λ shown. length shown.items ≡ length bounds.now) }
    ensures shown { IfOk result (λ shown. AreShownBelow (meaning program.now) bounds.now shown.items (length bounds.now)) }
    ensures not_proved { (k : ℕ) → result ≡ Err (CountFault.NotProved k) → IsFirstNotShown (meaning program.now) bounds.now k }
    ensures never_wide { result ≡ Err CountFault.Wide → ⊥ }
{
    let mut shown = Vec::new(alloc);
    for k in 0..bounds.len() {
        let Some(multipliers) = range(alloc, program, &bounds[..k], &bounds[k])? else {
            return Err(CountFault::NotProved(k as u8));
        };
        put_last(&mut shown, multipliers)?;
    }
    Ok(shown)
}

/// Puts multipliers at the end.
fn put_last(all: &mut Vec<Multipliers>, last: Multipliers) -> Result<(), Memory>
    ensures { OnOk result (all.new.items ≡ all.old.items ++ last ∷ []) }
{
    all.push(last)?;
    Ok(())
}

/// Multipliers that show that the range of a variable behind others is whole.
fn range(
    alloc: Global,
    program: &Program,
    before: &[(Form, Form)],
    bounds: &(Form, Form),
) -> Result<Option<Multipliers>, Memory>
    requires few { length before.now < NEST_VARIABLES }
    requires fit { BoundsFit (length program.now.params) before.now }
    requires lower { IsSmallOver (length program.now.params + length before.now) bounds.now.0 }
    requires upper { IsSmallOver (length program.now.params + length before.now) bounds.now.1 }
    ensures some { IfOk result (λ found. IfSome found (λ shown. ShowsRange (meaning program.now) before.now bounds.now shown)) }
    ensures none { IfOk result (λ found. IfNone found (¬ HasShortList (rows_before (meaning program.now) before.now) (range_goal (length program.now.params + length before.now) bounds.now))) }
{
    let vars = program.params().len() + before.len();
    let system = rows_before(alloc, program, before)?;
    let goal = difference(alloc, vars, &bounds.1, &bounds.0, 1)?;
    prove(alloc, &system, &goal)
}
