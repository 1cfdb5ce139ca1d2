//! The layout of code that is made smaller: rounds of sizes, of which the first at which every item fits
//! is taken.
#![tactic(auto)]

mod blocks;
mod group_counts;
pub mod group_size;
mod instr_piece;
mod item_piece;
mod moves;
mod numbers;
pub mod piece;
mod pieces;
mod place_piece;
mod round;
mod rounds;
mod savings;
pub mod settled;
mod shortest;
pub mod site;
mod sites;
mod slots;
pub mod sums;
mod table_halves;
mod widths;
