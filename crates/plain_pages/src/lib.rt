//! Plain text that is laid out: pages, and places in a source text.
#![tactic(auto)]

mod excerpt;
mod page;
mod position;

pub use excerpt::{EXCERPT_BYTES, Excerpt, excerpt_at};
pub use page::Page;
pub use position::{Position, position_of};
