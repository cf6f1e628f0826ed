//! What partitions cost in complete pebblings.

ghost use Rattle.k_partition.specs.Laws.{PartitionsAreLoadedEach, PartitionsAreLoadedSum};

use stretch_laws::pebblings::joints_are_loaded;

/// A law: every complete pebbling makes at least t times the quotient of the number of points less 1 by u loads of the
/// families' words, less the number of credited vertices.
pub fn partitions_are_loaded()
    ensures each { PartitionsAreLoadedEach }
    ensures sum { PartitionsAreLoadedSum }
{
    joints_are_loaded();
}
