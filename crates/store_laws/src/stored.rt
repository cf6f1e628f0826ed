//! What every complete pebbling has to store.

ghost use Rattle.store_laws.specs.Stored.{LastWritersAreStored, LastWritersAreStores, LoadedInstancesAreStored, LoadedInstancesAreStores};

/// A law: an instance has no blue pebble at first and only a store puts one on it, so one that is loaded is stored, and so is a
/// last writer, which is blue at the end. So many stores of different ones are made as they are. (Hong and Kung 1981.)
pub fn instances_are_stored()
    ensures loaded { LoadedInstancesAreStored }
    ensures last { LastWritersAreStored }
    ensures loaded_ones { LoadedInstancesAreStores }
    ensures last_ones { LastWritersAreStores }
{}
