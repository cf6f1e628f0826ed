//! Whether the credits of partition terms and of joint terms fit.
#![tactic(auto, using(claims::proofs::Found::in_a_row))]

ghost use Rattle.claims.specs.Claims.{Decides, numbered};
ghost use Rattle.std.specs.Prelude.{◌++◌, ◌∷◌, [], map, codes};
ghost use Rattle.affine_program.specs.Parts.{meaning};
ghost use Rattle.claims.specs.declared.place.Step.TheVariants.{Key};
ghost use Rattle.iolb_check.specs.PartitionFit.{credit_at};
ghost use Rattle.k_partition.specs.View.{credit_term_of};

use affine_program::Program;
use certificate_fit::credits::all_credits_fit;
use claims::{ObjectKey, Place, Refused, Step};
use reuse_paths::Credit;
use std::alloc::Global;

/// Whether what is said fits of a term's credits, the list with the key `credits`.
pub(crate) fn credited_fits(
    alloc: Global,
    program: &Program,
    place: &Place,
    credits: &[Credit],
) -> Result<(), Refused>
    ensures { Decides (numbered (credit_at (meaning program.now) (place.now ++ Key (codes "credits") ∷ [])) 0 (map credit_term_of credits.now)) result }
{
    let list = place.within(alloc, Step::Key(ObjectKey("credits")))?;
    all_credits_fit(alloc, program, &list, credits)
}
