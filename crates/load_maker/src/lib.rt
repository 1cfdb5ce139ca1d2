//! Objects that are generated from a number: a large valid input.
#![tactic(auto)]

mod body;
pub mod fault;
mod functions;
mod instrs;
pub mod make_objects;
mod objects;
mod register;
mod saved_registers;
mod sections;
mod statement;
mod symbols;
