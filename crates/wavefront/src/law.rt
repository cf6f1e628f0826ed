//! What valid terms cost.

ghost use Rattle.wavefront.specs.FrontFits.{ValidFrontsAreSound};
ghost use Rattle.wavefront.specs.Fronts.{FrontWordsAreLoaded, FrontsAreLoaded, FrontsHaveVertices};
ghost use Rattle.wavefront.specs.Loads.{ColdTermsAreLoaded, ColdWordsAreLoaded, SoundColdsAreLoaded};

/// A law: a cold term whose claims hold is sound, and costs as many loads as its nest has points, in every complete
/// pebbling at all admitted parameter values. (Hong and Kung 1981.)
pub fn cold_terms_are_loaded()
    ensures { ColdTermsAreLoaded }
{}

/// A law: a cold term that is sound costs so many loads of its footprint, each of whose vertices is loaded.
pub fn sound_colds_are_loaded()
    ensures loaded { SoundColdsAreLoaded }
    ensures each { ColdWordsAreLoaded }
{}

/// A law: where a wavefront term is sound at parameter values, every complete pebbling with s red pebbles makes at least as
/// many loads of its words as its nest has points, less s for each point of its outer variables, and so many different ones of
/// them are loaded. (Elango et al. 2014.)
pub fn fronts_are_loaded()
    ensures loaded { FrontsAreLoaded }
    ensures different { FrontWordsAreLoaded }
    ensures vertices { FrontsHaveVertices }
{}

/// A law: a wavefront term whose claims hold, over true source trees, is sound at all admitted parameter values.
pub fn valid_fronts_are_sound()
    ensures { ValidFrontsAreSound }
{}
