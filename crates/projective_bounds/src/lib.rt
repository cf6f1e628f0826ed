//! Certificates of projective programs: the partition term of the whole domain for a least cover, and the cold terms of the arrays
//! (Dinh and Demmel 2020; Olivry et al. 2020). Branches of any cold terms of different arrays.
#![tactic(auto)]

mod branches;
mod certificates;
mod cold_branches;
mod covers;
mod entries;
mod families;
mod fault;
pub mod kept_laws;
mod labels;
pub mod law;
mod loops;
mod matrices;
mod multipliers;
mod nest;
mod outline;
mod terms;
mod values;
mod whole;
pub mod whole_laws;

pub use certificates::certify;
pub use cold_branches::cold_branch;
pub use fault::CertifyFault;
pub use whole::stretch_for;
