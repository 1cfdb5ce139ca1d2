//! The formulas of the RISC-V ELF psABI's relocations. Nothing here takes memory.
#![tactic(auto)]

pub mod kind;
pub mod parts;
pub mod put;
pub mod reaches;
mod spelled;
