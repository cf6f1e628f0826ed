//! Which instances an execution has.

ghost use Rattle.execution_laws.specs.Domain.{DomainsAreExecuted, InstancesAreExecutedOnce};

/// A law: at any parameter values an instance stands in the execution of a well-formed program exactly where its loop
/// values are in its statement's iteration domain, and it stands there once. (Feautrier 1991.)
pub fn domains_are_executed()
    ensures executed { DomainsAreExecuted }
    ensures once { InstancesAreExecutedOnce }
{}
