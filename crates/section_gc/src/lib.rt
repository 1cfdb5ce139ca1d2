//! Objects without the sections of code that nothing reaches.
#![tactic(auto)]

pub mod counts;
pub mod files;
pub mod gc;
pub mod gc_fault;
pub mod graph;
pub mod left;
pub mod needed;
pub mod remains;
pub mod section_part;
pub mod sections;
pub mod symbols;
