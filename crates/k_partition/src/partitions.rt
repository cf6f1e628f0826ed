//! What partition terms claim, and what follows.

ghost use Rattle.k_partition.specs.PartitionFits.{PartitionsAreSound, PartitionsAreApart};

use reuse_paths::disjoint_pieces_are_apart;
use reuse_paths::law::{families_are_sound, family_pieces_cover};

/// A law: a partition term whose claims hold, over true source trees, is sound; and where its second shape asks for it, no two
/// of its families have a word in common, at all admitted parameter values of any size.
pub fn partitions_are_sound()
    ensures sound { PartitionsAreSound }
    ensures apart { PartitionsAreApart }
{
    families_are_sound();
    family_pieces_cover();
    disjoint_pieces_are_apart();
}
