//! What sound partition terms cost.

ghost use Rattle.k_partition.specs.ReusedWords.{SoundTermsAreSound};
ghost use Rattle.k_partition.specs.TermLoads.{SoundTermsAreLoaded};

use crate::term_runs::terms_are_loaded_in_runs;
use stretch_laws::runs::{complete_pebblings_are_runs, different_computations_are_few};

/// A law: at all admitted parameter values, of any size, a sound partition term is a sound partition of the computation graph;
/// and in every complete pebbling it takes at least as many loads of its footprint as a stretch has events, once for each u of
/// its points but the last, less the points of its credited nests, where u is the greatest number of points that go into a
/// stretch by the cover inequality.
pub fn sound_terms_are_loaded()
    ensures sound { SoundTermsAreSound }
    ensures loaded { SoundTermsAreLoaded }
{
    terms_are_loaded_in_runs();
    different_computations_are_few();
    complete_pebblings_are_runs();
}
