//! The grammar of C texts in its own words: the texts that are read are those that it spells within the limits.
#![tactic(auto)]

mod law;

pub use law::{
    accepted_texts_spell, loops_take_values, readings_are_well_read, rows_have_values,
    rows_hold_so, spelled_texts_are_accepted,
};
