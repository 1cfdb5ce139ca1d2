//! The words of RV32I and M: what instruction a word spells, and what an instruction does to a
//! machine. Nothing here takes memory.
#![tactic(auto)]

pub mod bits;
pub mod decode;
pub mod device_access;
mod formats;
pub mod instr;
pub mod normal;
mod ops;
pub mod results;
pub mod system;
pub mod widths;
