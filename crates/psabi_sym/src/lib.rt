//! The objects of a link: their files, read and without a fault of their own, and what a symbol with
//! an addend resolves to.
#![tactic(auto)]

pub mod block;
mod commons;
mod contents;
pub mod data_class;
mod definitions;
mod key;
mod layout;
pub mod link_fault;
mod loaded;
pub mod long_files;
mod lookups;
pub mod meaning;
mod name_ends;
mod name_lengths;
mod name_tables;
mod named;
mod names;
pub mod objects;
pub mod padding;
mod read_sections;
mod read_symbols;
pub mod section_ref;
pub mod section_row;
mod sections;
mod shared;
mod start;
pub mod sums;
pub mod symbol_row;
mod symbols;
pub mod target;
mod texts;
mod used;
