//! The symbolic machine: it runs the objects' own instructions at places in code, before any address
//! is chosen for them, with bytes that may be undefined.
#![tactic(auto)]

mod address_parts;
pub mod answer;
pub mod arguments;
mod cells;
pub mod cursor;
mod first_data;
pub mod held;
pub mod known;
pub mod memory;
mod output;
pub mod page;
pub mod pages;
pub mod pool;
mod results;
pub mod run;
pub mod span;
pub mod stack;
pub mod state;
pub mod sym;
pub mod why;
pub mod word;
