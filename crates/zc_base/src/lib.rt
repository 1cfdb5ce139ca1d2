//! What all crates of the linker share: places in code, registers, the memory map, counts, pseudo-random
//! numbers, little-endian fields of bytes, and the options of a link. Only the names of options are allocated.
#![tactic(auto)]

pub mod counts;
pub mod draws;
pub mod extensions;
pub mod fields;
pub mod link_options;
pub mod mem_map;
pub mod place;
pub mod reg;
