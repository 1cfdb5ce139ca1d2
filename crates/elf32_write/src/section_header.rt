// The section headers of an image.

ghost use Rattle.std.specs.Prelude.{◌≡◌, ◌++◌, OnOk};
ghost use Rattle.std.specs.List.{flat_map};
ghost use Rattle.elf32_write.specs.Image.{bss_section, data_section, shstrtab_header, places_section, section_bytes, text_section, NumbersFit};
ghost use Rattle.elf32_write.specs.Offsets.{AreOffsetsOf};

use crate::fields::push_words;
use crate::image_parts::ImageParts;
use crate::offsets::{NAMES, Offsets, TEXT_OFFSET};
use elf32_read::header::{NOBITS, PROGBITS, STRTAB, SectionHeader};
use elf32_read::section_flags::SectionFlags;
use std::alloc::AllocError;

/// The header of section 0.
pub const NULL: SectionHeader = SectionHeader {
    name: 0,
    kind: 0,
    flags: 0,
    address: 0,
    offset: 0,
    size: 0,
    link: 0,
    info: 0,
    align: 0,
    entry_size: 0,
};

/// The header of the text.
pub fn text_header(parts: &ImageParts) -> SectionHeader
    requires { NumbersFit parts.now }
    ensures { result ≡ text_section parts.now }
{
    SectionHeader {
        name: 1,
        kind: PROGBITS,
        flags: SectionFlags::ALLOC.bits | SectionFlags::EXECINSTR.bits,
        address: parts.text_at,
        offset: TEXT_OFFSET,
        size: parts.text.len() as u32,
        align: 4,
        ..NULL
    }
}

/// The header of the data.
pub fn data_header(parts: &ImageParts, offsets: &Offsets) -> SectionHeader
    requires fits { NumbersFit parts.now }
    requires offsets { AreOffsetsOf parts.now offsets.now }
    ensures { result ≡ data_section parts.now }
{
    SectionHeader {
        name: 7,
        kind: PROGBITS,
        flags: SectionFlags::WRITE.bits | SectionFlags::ALLOC.bits,
        address: parts.data_at,
        offset: offsets.data,
        size: parts.data_bytes.len() as u32,
        align: 4,
        ..NULL
    }
}

/// The header of the zeros after the data.
pub fn bss_header(parts: &ImageParts, offsets: &Offsets) -> SectionHeader
    requires fits { NumbersFit parts.now }
    requires offsets { AreOffsetsOf parts.now offsets.now }
    ensures { result ≡ bss_section parts.now }
{
    let data_size = parts.data_bytes.len() as u32;
    SectionHeader {
        name: 13,
        kind: NOBITS,
        flags: SectionFlags::WRITE.bits | SectionFlags::ALLOC.bits,
        address: parts.data_at + data_size,
        offset: offsets.data + data_size,
        size: parts.zero,
        align: 4,
        ..NULL
    }
}

/// The header of the places.
pub fn places_header(parts: &ImageParts, offsets: &Offsets) -> SectionHeader
    requires fits { NumbersFit parts.now }
    requires offsets { AreOffsetsOf parts.now offsets.now }
    ensures { result ≡ places_section parts.now }
{
    SectionHeader {
        name: 18,
        kind: PROGBITS,
        flags: 0,
        address: 0,
        offset: offsets.places,
        size: 12 * parts.places.len() as u32,
        align: 4,
        ..NULL
    }
}

/// The header of the sections' names.
pub fn names_header(parts: &ImageParts, offsets: &Offsets) -> SectionHeader
    requires { AreOffsetsOf parts.now offsets.now }
    ensures { result ≡ shstrtab_header parts.now }
{
    SectionHeader {
        name: 31,
        kind: STRTAB,
        flags: 0,
        address: 0,
        offset: offsets.names,
        size: NAMES.len() as u32,
        align: 1,
        ..NULL
    }
}

// Appends a section header.
fn push_section_header(out: &mut Vec<u8>, section: SectionHeader) -> Result<(), AllocError>
    ensures { OnOk result (out.new.items ≡ out.old.items ++ section_bytes section) }
{
    push_words(
        out,
        &[
            section.name,
            section.kind,
            section.flags,
            section.address,
            section.offset,
            section.size,
            section.link,
            section.info,
            section.align,
            section.entry_size,
        ],
    )
}

/// Appends section headers, in order.
pub fn push_headers(out: &mut Vec<u8>, sections: &[SectionHeader]) -> Result<(), AllocError>
    ensures { OnOk result (out.new.items
        ≡ out.old.items ++ flat_map section_bytes sections.now) }
{
    for section in sections {
        push_section_header(out, *section)?;
    }
    Ok(())
}
