//! The texts of certificates and of the bounds that they give.
#![tactic(auto)]

mod bound_lines;
mod certificates;
mod cold;
mod front;
mod one_certificate;
mod partition;
mod read_back;
mod reading;
mod terms;
mod text;

pub use bound_lines::bound_text;
pub use json_parts::{CertError, CertFault};
pub use one_certificate::{texts_have_one_answer, texts_have_one_certificate};
pub use read_back::certificates_are_read_back;
pub use reading::read_certificate;
pub use text::{branch_bytes, certificate_text};
