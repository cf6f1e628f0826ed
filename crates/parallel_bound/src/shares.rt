//! What each of several processors does.

ghost use Rattle.parallel_bound.specs.Shares.{InstancesAreComputed, ProcessorsMakeRuns, SomeComputesItsShare};

use stretch_laws::runs::complete_pebblings_are_runs;

/// A law: in every complete parallel pebbling of any graph the moves of each processor are a red run, which computes no vertex
/// again; each instance is computed by some processor; and so of any list of instances some processor computes its share,
/// rounded up.
pub fn processors_share()
    ensures runs { ProcessorsMakeRuns }
    ensures computed { InstancesAreComputed }
    ensures share { SomeComputesItsShare }
{
    complete_pebblings_are_runs();
}
