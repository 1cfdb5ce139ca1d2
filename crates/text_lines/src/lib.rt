//! Texts of lines: a text is split into lines, a line into words, and a word is read as a number.
//!
//! Each call looks once at each byte of what it splits off, and copies nothing. Each number has one spelling: a word
//! is read as a number only if that number would be printed as this word.
#![tactic(auto)]

pub mod hex;
pub mod number;
pub mod split;
