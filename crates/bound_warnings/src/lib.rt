//! Warnings of what keeps bounds from being found, or from being read, of a program that is read.
#![tactic(auto)]

mod loops;
mod names;
mod spans;
mod warnings;

pub use warnings::{write_loop_warnings, write_name_warnings};
