//! What outputs cost.

ghost use Rattle.last_writers.specs.Outputs.{SoundOutputsAreStored, ValidOutputsAreSound};

/// A law: an output whose claims hold is sound: at all admitted parameter values, of any size, the instance of each point of its
/// nest writes its cell last, and different points have different instances.
pub fn valid_outputs_are_sound()
    ensures { ValidOutputsAreSound }
{}

/// A law: an output that is sound costs as many stores of its instances as its nest has points, in every complete pebbling.
/// (Hong and Kung 1981.)
pub fn outputs_are_stored()
    ensures { SoundOutputsAreStored }
{}
