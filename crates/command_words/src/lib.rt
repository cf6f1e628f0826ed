//! The words of the command line: what they ask for, and the sizes that they give to a program's parameters.
#![tactic(auto)]

mod capacities;
mod command;
mod number;
mod setting;
mod size;
mod values;

pub use command::{Command, Job, Work, command_of, file_at};
pub use setting::{LevelSetting, Setting};
pub use size::Size;
pub use values::values_for;
