//! Bounds by words that meet: a word that comes meets at most one word less than the fast memory holds, and an order of the words
//! lets each meeting count for one point.
#![tactic(auto)]

pub mod meetings;
