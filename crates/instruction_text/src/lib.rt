//! The text of an instruction of two or four bytes, and the instruction that such a text spells.
#![tactic(auto)]

mod halves;
pub mod machine_code;
pub mod names;
pub mod operands;
pub mod operation;
pub mod push;
pub mod read;
mod read_operands;
mod words;
