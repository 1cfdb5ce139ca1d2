//! The short and long forms of instructions: halfwords of Zca and Zcb with the same effect, the two words
//! of a branch whose target is out of range, and instructions with a changed immediate. Nothing here
//! allocates.
#![tactic(auto)]

pub mod long;
pub mod patched;
pub mod short;
