//! Encodes instructions as halfwords of Zca, Zcb, Zcmp and Zcmt. Nothing here allocates.
#![tactic(auto)]

pub mod encode16;
pub mod fields;
pub mod jumps;
pub mod memory;
pub mod with_imm;
pub mod with_reg;
pub mod zcmp;
