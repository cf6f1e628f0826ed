//! The affine programs that C texts mean, read and printed.
#![tactic(auto)]

mod fault;
mod forms;
mod items;
mod law;
mod matrix_products;
mod parts;
mod printed_words;
mod program;
mod read;
mod references;
mod statements;
mod tree;
mod ways;

pub use affine_program::{Item, Program, Reference, Statement};
pub use fault::{ProgramError, ProgramFault};
pub use law::texts_mean_one_program;
pub use matrix_products::products;
pub use printed_words::words_are_printed;
pub use program::program_text;
pub use read::read_program;
