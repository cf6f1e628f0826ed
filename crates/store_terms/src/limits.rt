//! Whether outputs and stores are within their limits.

ghost use Rattle.std.specs.Prelude.{◌≤◌, ◌↔◌, IsTrue, length};
ghost use Rattle.std.specs.List.{AllByRecursion};
ghost use Rattle.certificate_fit.specs.Limits.{AreSmall, NameRows};
ghost use Rattle.iolb_model.specs.declared.limits.TheConstants.{SCALE};
ghost use Rattle.store_terms.specs.Limits.{IsSmallOutput, IsWithinLimits};

use crate::output::Output;
use affine_form::Multipliers;
use certificate_fit::part_limits::{are_small, name_rows, nest_is_small};
use iolb_model::limits;

/// Outputs of stores, at most.
pub const OUTPUTS: usize = 16;

/// Whether an output's instances are within their limits, and what is claimed of them.
fn instances_are_small(output: &Output) -> bool
    ensures { IsTrue result ↔ (AreSmall output.now.point.items × NameRows output.now.inside.items × (1 ≤ output.now.inverse.scale)
        × (output.now.inverse.scale ≤ SCALE) × NameRows output.now.later.items) }
{
    are_small(output.point.as_slice())
        && name_rows(output.inside.as_slice())
        && output.inverse.scale >= 1
        && output.inverse.scale <= limits::SCALE
        && name_rows(output.later.as_slice())
}

/// Whether an output is within its limits.
fn is_small_output(output: &Output) -> bool
    ensures { IsTrue result ↔ IsSmallOutput output.now }
{
    nest_is_small(&output.nest, &output.sums) && instances_are_small(output)
}

/// Whether outputs are within their limits.
fn are_small_outputs(outputs: &[Output]) -> bool
    ensures { IsTrue result ↔ AllByRecursion IsSmallOutput outputs.now }
{
    for output in outputs {
        if !is_small_output(output) {
            return false;
        }
    }
    true
}

/// Whether outputs, a branch's number and multipliers are within the limits of stores.
pub(crate) fn is_within_limits(
    outputs: &[Output],
    branch: Option<u8>,
    apart: &[Multipliers],
) -> bool
    ensures { IsTrue result ↔ IsWithinLimits (record { outputs = outputs.now; branch = branch; apart = apart.now }) }
{
    let _branch = branch;
    outputs.len() <= OUTPUTS && are_small_outputs(outputs) && name_rows(apart)
}
