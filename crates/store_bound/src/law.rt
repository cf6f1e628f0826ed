//! What accepted stores say, and that they have one answer.

ghost use Rattle.store_bound.specs.Exact.{StoresRefusalsAreOne, ValidStoresGiveOne, ValidStoresHaveCounts, ValidStoresStand};
ghost use Rattle.store_bound.specs.Sound.{SoundStoresAreMade};

use poly_tree::printed_law::terms_have_the_value;

/// A law: of sound stores beside an accepted certificate every complete pebbling makes at least as many stores as their value
/// says. An output's instances are last writers; of a wavefront term's words, which are instances, at most s for each vertex are
/// never loaded, and each other one is stored before it is loaded; and no instance is counted twice. (Hong and Kung 1981; Elango
/// et al. 2014.)
pub fn sound_stores_are_made()
    ensures { SoundStoresAreMade }
{
    terms_have_the_value();
}

/// A law: what stores claim beside a program and a certificate has one answer. Where all conditions hold they aren't refused, and
/// their outputs have counts, one list of them; else they are refused by one condition at one place.
pub fn stores_are_exact()
    ensures stand { ValidStoresStand }
    ensures counts { ValidStoresHaveCounts }
    ensures one { ValidStoresGiveOne }
    ensures refused { StoresRefusalsAreOne }
{}
