//! Encodes instructions of RV32I and M as words. Nothing here allocates.
#![tactic(auto)]

mod codes;
pub mod encode;
mod words;
