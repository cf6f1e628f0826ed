//! A bound in words, term by term: what is counted, where it stands in the program's text, and how much it is worth.
#![tactic(auto)]

mod leading;
mod reads;
mod terms;
mod uncounted;
mod words;

pub use words::write_bound;
