//! The code at the entry of an image with a jump table. Nothing here allocates.
#![tactic(auto)]

pub mod stub;
