//! Writes ELF files of 32-bit RISC-V: images, the programs that the linker makes, and relocatable objects.
#![tactic(auto)]

mod fields;
mod headers;
pub mod image_parts;
mod name_table;
pub mod object_parts;
mod offsets;
mod relocs;
mod section_header;
mod section_table;
mod symbol_table;
pub mod write_image;
pub mod write_object;
