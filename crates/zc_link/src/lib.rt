//! The links of objects to images, which do what the objects' program does.
#![tactic(auto)]

mod code;
mod front;
mod group;
mod image;
mod item;
mod item_start;
mod layout;
pub mod linked;
pub mod plain;
mod text;
mod unit;
pub mod zc;
