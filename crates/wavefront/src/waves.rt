//! What wavefronts cost.

ghost use Rattle.wavefront.specs.Waves.{WavesAreLoaded, WavesAreReloaded, WavesLeaveFew};

/// A law: when a wave's vertex is computed each of its words is there and its reader isn't computed yet, or is the vertex;
/// at most s of the words are red then, and each other one is loaded later. So in every complete pebbling of any graph at most
/// s of the words of a wave are never loaded, and so many different ones of the words of waves are loaded as there are, less s
/// for each wave; so many loads of them are made. (Elango et al. 2014.)
pub fn waves_are_loaded()
    ensures loaded { WavesAreLoaded }
    ensures few { WavesLeaveFew }
    ensures different { WavesAreReloaded }
{}
