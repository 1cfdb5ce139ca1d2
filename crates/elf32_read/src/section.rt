// Sections.

use crate::section_flags::SectionFlags;

/// A section of an object, by its header (System V gABI, "Sections").
///
/// `name` is without the zero that ends it, `kind` is sh_type, `size` is sh_size in bytes, and
/// `align` is the raw sh_addralign. `bytes` is the section's content; it is empty for NULL and NOBITS,
/// which have none in the file.
#[derive(Clone, Copy)]
pub struct Section<'a> {
    pub name: &'a [u8],
    pub kind: u32,
    pub flags: SectionFlags,
    pub size: u32,
    pub align: u32,
    pub bytes: &'a [u8],
}
