//! Whether labelings fit.
#![tactic(auto, using(claims::proofs::Found::in_a_row))]

ghost use Rattle.claims.specs.Claims.{Decides, numbered};
ghost use Rattle.std.specs.Prelude.{map};
ghost use Rattle.affine_program.specs.Parts.{meaning};
ghost use Rattle.iolb_check.specs.JointFit.{labeling_at};
ghost use Rattle.joint_partition.specs.View.{labeling_of};

use affine_program::Program;
use certificate_fit::labels::{all_inputs_fit, all_instances_fit};
use claims::{Place, Refused, Step};
use joint_partition::Labeling;
use std::alloc::Global;

/// Whether what is said fits of a labeling, in a list at this place.
fn labeling_fits(
    alloc: Global,
    program: &Program,
    list: &Place,
    size: usize,
    index: usize,
    labels: &Labeling,
) -> Result<(), Refused>
    ensures { Decides (labeling_at (meaning program.now) size list.now index (labeling_of labels.now)) result }
{
    let at = list.within(alloc, Step::Index(index as u64))?;
    all_inputs_fit(alloc, program, &at, size, labels.inputs.as_slice())?;
    all_instances_fit(alloc, program, &at, size, labels.nodes.as_slice())?;
    Ok(())
}

/// Whether what is said fits of labelings, in a list at this place.
pub(crate) fn all_labelings_fit(
    alloc: Global,
    program: &Program,
    list: &Place,
    size: usize,
    labelings: &[Labeling],
) -> Result<(), Refused>
    ensures { Decides (numbered (labeling_at (meaning program.now) size list.now) 0 (map labeling_of labelings.now)) result }
{
    for (index, labels) in labelings.iter().enumerate() {
        labeling_fits(alloc, program, list, size, index, labels)?;
    }
    Ok(())
}
