//! The choice of slots for a jump table, with prices that show that no other choice saves more, and the targets of the
//! slots.
#![tactic(auto)]

pub mod picker;
mod prices;
mod ranking;
mod slot_lists;
pub mod slots;
mod table;
