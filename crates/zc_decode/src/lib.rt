//! The halfwords of Zca, Zcb, Zcmp and Zcmt: what a halfword spells. Nothing here takes memory.
#![tactic(auto)]

pub mod decode16;
pub mod extensions;
mod fields;
pub mod form;
pub mod lists;
pub mod row;
mod rows;
pub mod short;
mod spell;
