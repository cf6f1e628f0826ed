//! A text has one value as stores, or one fault.

ghost use Rattle.store_text.specs.OneReading.{TextsHaveOneStores};

/// What two readings of a text give is equal: stores that claim the same, by the same polynomials, or the same fault.
pub fn stores_are_one()
    ensures { TextsHaveOneStores }
{}
