//! Reads ELF files of 32-bit RISC-V: relocatable objects, by their sections, and images, by their
//! segments and the places that they list. A value borrows the bytes that it was read from, and
//! nothing here allocates.
#![tactic(auto)]

mod alignments;
mod bounds;
pub mod fault;
pub mod header;
pub mod image;
pub mod image_fault;
mod kinds;
mod loads;
mod names;
pub mod object;
mod places;
mod rela_table;
mod relas;
pub mod reloc;
pub mod relocs;
pub mod section;
pub mod section_entry;
pub mod section_flags;
mod sections;
pub mod segment;
mod segments;
pub mod symbol;
pub mod symbol_entry;
mod symbols;
mod unnamed;
