//! What the passes that write objects anew share: which of their files is too large, that the others can be written, and
//! the judgement of what is written.
#![tactic(auto)]

pub mod judge;
pub mod relocs;
pub mod section_room;
pub mod sizes;
pub mod symbols;
