//! Finds groups of items that are written together as a push, a pop or a pair of moves of Zcmp.
#![tactic(auto)]

mod found;
mod frame;
pub mod group;
mod mark;
mod moves;
pub mod planned;
mod pops;
mod pushes;
mod read;
pub mod role;
mod run;
mod search;
mod slot;
mod slots;
mod walk;
