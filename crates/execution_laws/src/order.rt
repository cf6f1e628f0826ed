//! In which order an execution has its instances.

ghost use Rattle.execution_laws.specs.Order.{OrderIsByLevels};

/// A law: of two instances in the execution of a well-formed program one stands before the other exactly where it comes
/// before it at some level of the loops around both. (Feautrier 1991; the levels of Allen and Kennedy 1987.)
pub fn order_is_by_levels()
    ensures { OrderIsByLevels }
{}
