//! Partition and joint terms that are likely to be strong. Nothing is promised of them; the checker decides.
#![tactic(auto)]

mod apart;
mod candidates;
mod choices;
mod coordinates;
mod cutting;
mod drafts;
mod effort;
mod entries;
mod families;
mod gains;
mod groups;
mod growing;
mod joints;
mod labels;
mod making;
mod merged;
mod nodes;
mod pairs;
mod placing;
mod points;
mod schemes;
mod searching;
mod sharing;
mod singles;
mod strength;
mod taking;
mod terms;
mod walks;

pub use candidates::{Candidate, candidates_of};
pub use strength::StretchTerm;
