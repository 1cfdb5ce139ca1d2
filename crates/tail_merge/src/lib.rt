//! Objects whose code shares equal tails.
#![tactic(auto)]

pub mod all_tails;
pub mod counts;
pub mod files;
mod host_tree;
pub mod left;
pub mod merge;
pub mod merge_fault;
pub mod moved_tail;
pub mod parts;
pub mod relocs;
pub mod removed_tail;
pub mod removed_tails;
pub mod section_code;
pub mod symbols;
mod tail_item;
mod tail_items;
mod tail_search;
pub mod tail_tables;
