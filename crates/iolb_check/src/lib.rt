//! The checker: whether a certificate's claims hold of a program, and the bound on loads that they give.
#![tactic(auto)]

mod bound;
mod branches;
mod certificate;
mod checker;
pub mod evaluation;
mod family_targets;
mod family_walks;
mod fit_branches;
mod fit_colds;
mod fit_credits;
mod fit_fronts;
mod fit_joint_walks;
mod fit_joints;
mod fit_labelings;
mod fit_pairs;
mod fit_partitions;
mod fit_parts;
mod fit_splits;
mod fit_starts;
mod fit_ways;
mod joint_targets;
pub mod law;
mod limits;
mod pairs;
mod partition_limits;
pub mod partition_values;
mod term;
mod term_checks;
mod term_limits;
mod value_fault;

pub use bound::{Bound, Value};
pub use certificate::Certificate;
pub use checker::check;
pub use term::{Branch, Term};
pub use value_fault::ValueFault;
