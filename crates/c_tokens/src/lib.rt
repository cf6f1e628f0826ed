//! The tokens of a C text: its opening and closing lines, its directives, and the tokens of both.
#![tactic(auto)]

mod bytes;
mod directives;
mod error;
mod law;
mod lines;
mod name;
mod piece;
mod scan;
mod text;
mod token;
mod words;

pub use error::TokensError;
pub use law::lines_are_compared;
pub use name::is_name;
pub use text::tokens;
pub use token::{Token, TokenKind};
