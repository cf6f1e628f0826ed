//! What sound partition terms cost in red runs.

ghost use Rattle.k_partition.specs.TermRuns.{SoundTermsAreLoadedInRuns, SoundTermsSplit, StretchesOfTermsAreSmall};

use crate::runs::runs_are_loaded;
use crate::stretches::stretches_are_small;
use stretch_laws::runs::different_computations_are_few;

/// A law: at all admitted parameter values, of any size, a stretch of a red run of the program's computation graph that has
/// at most a sound term's events has at most as many different start labels as it has events and s words, in each family or,
/// by the second shape, in all together; and it computes at most as many of the term's points as the value of its bound says.
pub fn stretches_of_terms_are_small()
    ensures { StretchesOfTermsAreSmall }
{
    stretches_are_small();
}

/// A law: in every red run a sound term takes at least as many loads of its footprint, or computations of credited vertices,
/// as a stretch has events, once for each u of the points that are computed but the last. So by the numbers of its bound's
/// value its cost splits among runs, where none of them computes a vertex again.
pub fn terms_are_loaded_in_runs()
    ensures loaded { SoundTermsAreLoadedInRuns }
    ensures split { SoundTermsSplit }
{
    runs_are_loaded();
    different_computations_are_few();
}
