//! The words of the command line, read with `clap`: the command that they are, if they are one.
#![tactic(auto)]

mod app;
pub mod command_line;
mod names;
mod number;
pub mod read;
mod table;
