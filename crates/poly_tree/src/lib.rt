//! Polynomials as canonical trees.
#![tactic(auto)]

mod affine;
mod common_factor;
mod copy;
mod degrees;
mod equal;
mod evaluate;
mod fault;
mod flatten;
mod join;
mod linear;
mod mul;
mod numbers;
mod poly;
mod poly_text;
mod print_order;
pub mod printed_law;
mod product_text;
mod put;
mod raise;
mod scale;
mod size;
mod sum;
mod term;
mod terms;
mod top;
mod tree;
mod weight;
mod wide;
mod written;

pub use common_factor::gcd;
pub use fault::PolyFault;
pub use poly::Poly;
pub use tree::Tree;
pub use wide::Wide;
