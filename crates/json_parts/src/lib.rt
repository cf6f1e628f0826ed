//! Parts of JSON texts, each said once: a part's shape gives its reader, its writer and its limits, and the laws that what is
//! written is read back and that what is read is within the limits.
//!
//! A reader takes a JSON value (RFC 8259) and answers what it says, or the first fault of one walk over it: of an object
//! the keys first, then the values by the byte order of their keys; of a list its length, where that has a limit, then its
//! members. Fault 2 is a value of another shape, fault 3 a number or a length past a limit. A fault's place is the way to
//! the value at fault from the value that is read.
#![tactic(auto)]

mod boxed;
mod error;
mod json;
mod lists;
mod members;
mod nullable;
mod numbers;
mod one_to_most;
mod part;
mod puts;

pub use boxed::Boxed;
pub use error::{CertError, CertFault, fault, under};
pub use json::{elements, has_keys, integer, list, natural, short_list};
pub use lists::{Few, ListOf, write_list};
pub use members::{End, Members, member, read_object, said_member};
pub use nullable::OrNull;
pub use numbers::{Any8, Any16, Exactly, Number8, Number32};
pub use one_to_most::OneToMost;
pub use part::Part;
pub use puts::{Put, PutFew, PutList, Puts, put_list, put_part, write_object};
