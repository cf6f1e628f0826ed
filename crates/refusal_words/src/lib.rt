//! Refusals of certificates and schedules in words: where a text has a fault, which condition a certificate fails, and
//! what its multipliers were to show there.
#![tactic(auto)]

mod branches;
mod failed;
mod heads;
mod joint_lengths;
mod joints;
mod lengths;
mod schedules;
mod sources;
mod terms;
mod unread;

pub use failed::write_failed;
pub use schedules::write_unscheduled;
pub use unread::write_unread;
