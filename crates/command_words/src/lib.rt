//! The words after the program's name, read with `clap`.
#![tactic(auto)]

mod commands;
mod numbers;
mod options;

pub use commands::{Command, Recipe, command_of};
pub use options::NotTaken;
