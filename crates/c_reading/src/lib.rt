//! What C texts mean, read from their tokens.
#![tactic(auto)]

mod access;
mod affine;
mod among;
mod compare;
mod error;
mod guards;
mod head;
mod header;
mod input;
mod items;
mod named;
mod numbers;
mod refs;
mod rows;
mod seen;
mod text;
mod tree;
mod values;

pub use access::{Access, Row, Statement};
pub use error::{ReadError, ReadFault};
pub use named::Kind;
pub use text::{Reading, read_text};
pub use tree::{Header, Item};
